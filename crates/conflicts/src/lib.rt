// The rule of conflicting routes, over a board of marks that is restored when it ends.
#![tactic(auto)]

mod conflicts;
mod marks;
mod pairs;

pub use conflicts::rule_27;
