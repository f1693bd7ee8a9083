// What the checker answers to a text, and how it says so.
#![tactic(auto)]

mod explain;
mod names;
mod places;
mod verdict;

pub use explain::Explained;
pub use names::Line;
pub use places::{Place, place_of};
pub use verdict::{Counts, Rejection, Verdict, judge};
