// The paths of routes, and the zones that cover their subroutes.
#![tactic(auto)]

mod along;
mod cover;
mod users;

pub use along::{on_path, path_length};
pub use cover::{covers, point_guards, request_guards};
pub use users::{locks, used, uses};
