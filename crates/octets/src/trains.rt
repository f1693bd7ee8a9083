// The four octets of a train: its state, front, joint and rear.
ghost use Rattle.std.specs.Prelude.{◌≡◌};
ghost use Rattle.octets.specs.Reads.{declared, train_of};
ghost use Rattle.octets.specs.Writes.{four, train_octets};

use crate::lists::Code;
use track::{Place, Train};

const ABSENT: u8 = 0;

const IN_ONE: u8 = 1;

const IN_TWO: u8 = 2;

const OUTSIDE: u8 = 3;

const DERAILED: u8 = 4;
// What stands in a field without meaning.
const NOTHING: u8 = 0;

// A train's octets, where its numbers have one each.
fn four(state: u8, front: usize, joint: usize, rear: usize) -> Option<[u8; 4]>
    ensures { result ≡ four state front joint rear }
{
    let front = u8::try_from(front).ok()?;
    let joint = u8::try_from(joint).ok()?;
    let rear = u8::try_from(rear).ok()?;
    Some([state, front, joint, rear])
}

// A train as four octets: None where it is derailed with a segment behind its front, or present and holds no segment, or
// where a number of it has no octet.
pub fn train_octets(train: Train) -> Option<[u8; 4]>
    ensures { result ≡ train_octets train }
{
    let Some(p) = train else {
        return Some([ABSENT, NOTHING, NOTHING, NOTHING]);
    };
    match (p.front, p.rear, p.derailed) {
        (Some(t), None, false) => four(IN_ONE, t, p.joint, 0),
        (Some(t), None, true) => four(DERAILED, t, p.joint, 0),
        (Some(t), Some(u), false) => four(IN_TWO, t, p.joint, u),
        (None, Some(u), false) => four(OUTSIDE, 0, p.joint, u),
        _ => None,
    }
}

// How many segments and joints a station has.
#[derive(Clone, Copy)]
pub struct Numbers {
    pub segments: usize,
    pub joints: usize,
}

// Whether the octet is a number below the count.
fn declared(count: usize, octet: u8) -> bool
    ensures { result ≡ declared count octet }
{
    usize::from(octet) < count
}

impl Numbers {
    // The train that four octets mean at a station with so many segments and joints.
    pub fn train_of(self, octets: [u8; 4]) -> Option<Train>
        ensures { result ≡ train_of self.segments self.joints octets }
    {
        let (front, joint, rear, derailed) = match octets {
            [ABSENT, NOTHING, NOTHING, NOTHING] => return Some(None),
            [IN_ONE, front, joint, NOTHING] => (Some(front), joint, None, false),
            [IN_TWO, front, joint, rear] => (Some(front), joint, Some(rear), false),
            [OUTSIDE, NOTHING, joint, rear] => (None, joint, Some(rear), false),
            [DERAILED, front, joint, NOTHING] => (Some(front), joint, None, true),
            _ => return None,
        };
        let all_declared = front.is_none_or(|t| declared(self.segments, t))
            && declared(self.joints, joint)
            && rear.is_none_or(|u| declared(self.segments, u));
        all_declared.then_some(Some(Place {
            front: front.map(usize::from),
            joint: usize::from(joint),
            rear: rear.map(usize::from),
            derailed,
        }))
    }
}

// Trains as octets.
#[derive(Clone, Copy)]
pub struct TrainWritten;

impl Code<Train, [u8; 4]> for TrainWritten {
    ghost code = { λ _ t. train_octets t };

    fn code(&self, train: Train) -> Option<[u8; 4]> {
        train_octets(train)
    }
}

impl Code<[u8; 4], Train> for Numbers {
    ghost code = { λ s q. train_of s.segments s.joints q };

    fn code(&self, octets: [u8; 4]) -> Option<Train> {
        self.train_of(octets)
    }
}
