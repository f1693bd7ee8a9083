// What the words of a station text can be: names, things, states and the heads of rows.
#![tactic(auto)]

mod heads;
mod lists;
mod names;
mod states;
mod things;
mod words;

pub use heads::{Head, head_of};
pub use lists::Listing;
pub use names::Name;
pub use states::State;
pub use things::{Thing, joint_of, point_of, segment_of, thing_of};
