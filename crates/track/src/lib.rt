// The trackside: what lies outside, by its meaning. Points, signals and trains, and the eleven calls on them.
#![tactic(auto)]

mod laws;
mod refusals;
mod states;
mod trackside;

pub use laws::one_way_fits;
pub use refusals::Refusal;
pub use states::{Aspect, Place, PointState, Step, Train, holds};
pub use trackside::Trackside;
