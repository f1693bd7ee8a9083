// The lever track: a point is settled as soon as it is driven.
#![tactic(auto)]

mod law;
mod points;

pub use law::settles_at_once;
pub use points::{Lever, LeverPoint};
