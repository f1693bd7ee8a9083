// The tests of rows, and the one routine that finds the first test of a row that fails.
#![tactic(auto)]

mod kinds;
mod rows;
mod tests;
mod view;

pub use tests::Test;
pub use view::View;
