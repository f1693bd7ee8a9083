// The rules of locks: how subroutes are released, and what keeps points from moving.
#![tactic(auto)]

mod points;
mod release;

pub use points::rule_26;
pub use release::rule_25;
