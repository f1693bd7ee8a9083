// Searches over the numbers below a bound: the first breach of a claim, and the lowest answer of a question.
#![tactic(auto)]

mod searches;

pub use searches::{Claim, Probe, first_breach, least};
