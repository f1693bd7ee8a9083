// The steps by which rows are read: words of a form, and lists of pairs.
#![tactic(auto)]

mod lists;
mod words;

pub use lists::pairs;
pub use words::{far, joint, keyword, next_word, point, row_star, segment, star_or_end};
