// What a layer keeps that holds points in motion and trains derailed, and how a track is seen through it.
#![tactic(auto)]

mod courses;
mod homes;
mod kept;
mod laws;
mod sights;
mod writes;

pub use courses::Course;
pub use kept::Holding;
pub use laws::held_ways;
