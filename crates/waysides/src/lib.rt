// A track that keeps its own points, signals and trains, over any kind of point.
#![tactic(auto)]

mod calls;
mod kept;
mod lending;
mod makes;
mod motion;
mod parts;
mod points;
mod stands;

pub use kept::Wayside;
pub use makes::MOST_POINTS;
pub use motion::Motion;
