// The tables of a station: what a station text says, with every name resolved to a number.
#![tactic(auto)]

mod names;
mod tables;
mod tests;

pub use names::Name;
pub use tables::{Beyond, Joint, Point, Route, Segment, Setting, Signal, Tables, Way, Zone};
pub use tests::{Action, ActivationTest, Lock, PointTest, Position, ReleaseTest, RequestTest};
