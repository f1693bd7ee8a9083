// Piles of layers over a track: each is a trackside again, and generic code runs over it.
#![tactic(auto)]

mod builds;
mod throws;

pub use builds::{counted_delay, delayed_motor, delayed_twice};
pub use throws::{meanings, throw_over};
