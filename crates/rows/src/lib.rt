// The rows of a station text: their forms, their limits, and that nothing is declared twice.
#![tactic(auto)]

mod faults;
mod filters;
mod rows;

pub use faults::{ReadingFault, RowFault};
pub use filters::{Key, Kind, crowded, full, known};
pub use rows::{
    ActivationRow, Far, JointRow, MoveRow, Pair, PointRow, ReleaseRow, RequestRow, Row, SignalRow,
    WayRow, ZoneRow,
};
