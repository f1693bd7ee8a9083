// What a station says of its locks and signals to an interlocking, and the routes that a passing ends.
#![tactic(auto)]

mod locks;
mod signals;

pub use locks::{has_slots, is_declared, release_row};
pub use signals::{lowest_from, note_from, pass_routes, signal_of};
