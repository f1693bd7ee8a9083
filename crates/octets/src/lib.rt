// The octets of an image: its first three, and those of a point, a signal and a train, written and read.
#![tactic(auto)]

mod frame;
mod law;
mod lists;
mod points;
mod signals;
mod trains;

pub use frame::{HEAD, framed, head, rest_of};
pub use law::written_and_read;
pub use lists::{Code, each};
pub use points::{PointRead, PointWritten, point_octet, point_of};
pub use signals::{SignalRead, SignalWritten, aspect_octet, aspect_of};
pub use trains::{Numbers, TrainWritten, train_octets};
