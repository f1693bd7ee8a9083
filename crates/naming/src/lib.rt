// The numbers that names have, names that nothing has, and rows that are missing.
#![tactic(auto)]

mod index;
mod keys;
mod missing;
mod unknown;

pub use index::Index;
pub use keys::Keys;
pub use missing::incomplete;
pub use unknown::first_unknown;
