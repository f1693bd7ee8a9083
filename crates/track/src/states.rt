// The states of points, signals and trains.
ghost use Rattle.std.specs.Prelude.{◌≡◌, Some};
ghost use Rattle.track.specs.Trains.{holds};

use crate::refusals::Refusal;
use station::Position;

// Where a point is driven to, and whether it lies there.
#[derive(Clone, Copy)]
pub struct PointState {
    pub target: Position,
    pub settled: bool,
}

#[derive(Clone, Copy, PartialEq)]
pub enum Aspect {
    Stop,
    Proceed,
}

// Where a train that is present stands.
#[derive(Clone, Copy)]
pub struct Place {
    // the segment in which its front is: none where that is outside
    pub front: Option<usize>,
    // the joint by which it came in
    pub joint: usize,
    // the segment behind its front
    pub rear: Option<usize>,
    pub derailed: bool,
}

// A train's record: none where the train is absent.
pub type Train = Option<Place>;

// What a call on a train comes to: its answer, with the signal passed, and the train's new record where that changes.
#[derive(Clone, Copy)]
pub struct Step {
    pub answer: Result<Option<usize>, Refusal>,
    pub train: Option<Train>,
}

impl Place {
    // Whether a train that stands so holds the segment.
    pub fn holds(self, segment: usize) -> bool
        ensures { result ≡ holds (Some self) segment }
    {
        self.front == Some(segment) || self.rear == Some(segment)
    }
}

// Whether the train holds the segment; one that is absent holds none.
pub fn holds(train: Train, segment: usize) -> bool
    ensures { result ≡ holds train segment }
{
    train.is_some_and(|p| p.holds(segment))
}
