// What lies at a joint.
ghost use Rattle.std.specs.Prelude.{◌≡◌};
ghost use Rattle.station.specs.Station.{station};
ghost use Rattle.station.specs.Numbers.{signal_at};
ghost use Rattle.station.specs.Joints.{is_segment, is_stop, beside, touches, across, signalled};

use crate::counts::joint_count;
use crate::numbers::joint;
use station::{Beyond, Signal, Tables};

// Whether a side is the segment.
pub fn is_segment(side: Beyond, segment: usize) -> bool
    ensures { result ≡ is_segment side segment }
{
    side == Beyond::Segment(segment)
}

pub fn is_stop(side: Beyond) -> bool
    ensures { result ≡ is_stop side }
{
    side == Beyond::BufferStop
}

// Whether a side of the joint is the segment.
fn beside(tables: &Tables, j: usize, segment: usize) -> bool
    ensures { result ≡ beside (station tables.now) j segment }
{
    joint(tables, j).map_or(segment == 0, |x| {
        x.segment == segment || is_segment(x.beyond, segment)
    })
}

// Whether the joint is one of the segment's.
pub fn touches(tables: &Tables, j: usize, segment: usize) -> bool
    ensures { result ≡ touches (station tables.now) j segment }
{
    j < joint_count(tables) && beside(tables, j, segment)
}

// What lies across the joint, seen from the segment.
pub fn across(tables: &Tables, j: usize, segment: usize) -> Beyond
    ensures { result ≡ across (station tables.now) j segment }
{
    joint(tables, j).map_or(Beyond::Segment(0), |x| {
        if x.segment == segment {
            x.beyond
        } else {
            Beyond::Segment(x.segment)
        }
    })
}

// Whether a signal at the joint governs entering the segment.
pub fn signalled(tables: &Tables, joint: usize, segment: usize) -> bool
    ensures { result ≡ signalled (station tables.now) joint segment }
{
    tables.signals.contains(&Signal { joint, segment })
}

// A signal by number; one that is lacking stands at 0.
pub fn signal(tables: &Tables, n: usize) -> Signal
    ensures { result ≡ signal_at (station tables.now) n }
{
    tables.signals.get(n).copied().unwrap_or(Signal {
        joint: 0,
        segment: 0,
    })
}
