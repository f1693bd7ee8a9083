// A list of calls on a newly opened machine, and what holds of trains all along.
#![tactic(auto)]

mod carrying;

pub use carrying::{Ran, Unrun, run};
