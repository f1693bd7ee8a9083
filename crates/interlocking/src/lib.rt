// The interlocking: a machine that steps a station's data over a trackside.
#![tactic(auto)]

mod calling;
mod grants;
mod machine;
mod moves;
mod opening;

pub use machine::Machine;
