// The words and marks of a station text, read in place.
#![tactic(auto)]

mod faults;
mod octets;
mod reader;
mod tokens;

pub use faults::WordFault;
pub use octets::Class;
pub use reader::Reader;
pub use tokens::{Token, Word};
