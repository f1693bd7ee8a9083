// Whole texts as lists of rows.
#![tactic(auto)]

mod data;
mod layout;
mod sections;
mod sofar;

pub use sections::sheet;
