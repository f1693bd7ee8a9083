// Station texts into tables.
#![tactic(auto)]

mod entries;
mod filling;
mod resolve;
mod whole;

pub use whole::read;
