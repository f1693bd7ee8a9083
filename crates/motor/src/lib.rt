// The motor track: a driven point is in motion for 8 settlings.
#![tactic(auto)]

mod law;
mod runs;

pub use law::runs_for_eight;
pub use runs::{Motor, Run};
pub use waysides::MOST_POINTS;
