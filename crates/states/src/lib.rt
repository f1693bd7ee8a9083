// What an interlocking keeps of its own: the states of routes, the locks, and a note of each train.
#![tactic(auto)]

mod denials;
mod places;
mod routes;
mod slots;
mod writes;

pub use denials::Denial;
pub use routes::{Event, RouteState};
pub use slots::{Note, ROUTES, SUBROUTES, States, TRAINS, ZONES};
