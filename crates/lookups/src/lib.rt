// What the tables say of a number, and whether a row has a test.
#![tactic(auto)]

mod counts;
mod joints;
mod numbers;
mod rows;
mod shapes;
mod subroutes;

pub use counts::{joint_count, point_count, route_count, signal_count, subroute_count, way_count};
pub use joints::{across, is_segment, is_stop, signal, signalled, touches};
pub use numbers::{joint, point, route, way, zone};
pub use rows::{
    actions, activation_tests, home, normal_tests, release_tests, request_tests, reverse_tests,
    zone_tests,
};
pub use shapes::Shape;
pub use subroutes::{end, segment_of, settings_of, shape, start};
