// The octet of a point.
ghost use Rattle.std.specs.Prelude.{◌≡◌};
ghost use Rattle.octets.specs.Reads.{run_of};
ghost use Rattle.octets.specs.Writes.{run_octet};

use crate::lists::Code;
use motor::Run;
use station::Position;

const NORMAL: u8 = 0;

const REVERSE: u8 = 1;
// In motion to either side: the settlings left, 1 to 8, are added.
const TO_NORMAL: u8 = 16;

const TO_REVERSE: u8 = 32;

// A point as an octet: None where its motor has more than 8 settlings left.
pub fn point_octet(p: Run) -> Option<u8>
    ensures { result ≡ run_octet p }
{
    match (p.target, p.left) {
        (Position::Normal, 0) => Some(NORMAL),
        (Position::Reverse, 0) => Some(REVERSE),
        (Position::Normal, 1..=8) => Some(TO_NORMAL + p.left),
        (Position::Reverse, 1..=8) => Some(TO_REVERSE + p.left),
        _ => None,
    }
}

// The point that an octet means.
pub fn point_of(octet: u8) -> Option<Run>
    ensures { result ≡ run_of octet }
{
    let (target, left) = match octet {
        NORMAL => (Position::Normal, 0),
        REVERSE => (Position::Reverse, 0),
        17..=24 => (Position::Normal, octet - TO_NORMAL),
        33..=40 => (Position::Reverse, octet - TO_REVERSE),
        _ => return None,
    };
    Some(Run { target, left })
}

// Points as octets.
#[derive(Clone, Copy)]
pub struct PointWritten;

impl Code<Run, u8> for PointWritten {
    ghost code = { λ _ p. run_octet p };

    fn code(&self, p: Run) -> Option<u8> {
        point_octet(p)
    }
}

// Octets as points.
#[derive(Clone, Copy)]
pub struct PointRead;

impl Code<u8, Run> for PointRead {
    ghost code = { λ _ b. run_of b };

    fn code(&self, octet: u8) -> Option<Run> {
        point_of(octet)
    }
}
