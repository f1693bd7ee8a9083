// Why trains are safe at an accepted station.
#![tactic(auto)]

mod laws;

pub use laws::safe_runs;
