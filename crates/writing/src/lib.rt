// The law of reading: which texts are read, and as what tables, by how rows are written.
#![tactic(auto)]

mod law;
mod whole;

pub use law::{
    lists_of_pairs, rows_as_written, texts_of_tokens, words_of_heads, words_of_things,
    writings_are_read,
};
pub use whole::read;
