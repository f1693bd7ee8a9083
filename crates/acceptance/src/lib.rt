// A draft becomes an accepted station only by the check.
#![tactic(auto)]

mod accepted;
mod breaches;
mod checking;
mod facts;
mod numbers;
mod rules;

pub use accepted::Accepted;
pub use breaches::Breach;
pub use checking::Draft;
