// The rules of routes, each with the first route that breaks it.
#![tactic(auto)]

mod activation;
mod path;
mod request;
mod row;
mod signals;

pub use activation::rule_24;
pub use path::rule_21;
pub use request::rule_23;
pub use signals::rule_22;
