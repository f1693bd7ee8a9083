// A layer over any trackside that holds back the first settlings of a point whose target changes.
#![tactic(auto)]

mod calls;
mod delays;

pub use delays::Delay;
