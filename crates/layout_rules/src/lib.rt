// The rules of the layout, each with the first thing that breaks it.
#![tactic(auto)]

mod settings;
mod sides;
mod signals;
mod way_pairs;
mod ways;

pub use sides::rule_11;
pub use signals::rule_14;
pub use way_pairs::rule_13;
pub use ways::rule_12;
