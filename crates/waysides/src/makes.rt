// A new track.
ghost use Rattle.std.specs.Prelude.{◌≡◌, ◌<◌, length, IfOk, MatchOption};
ghost use Rattle.track.specs.Meaning.{at_rest, laid};
ghost use Rattle.waysides.specs.Waysides.{of_wayside};

use crate::kept::Wayside;
use crate::motion::Motion;
use acceptance::Accepted;
use lookups::{point_count, signal_count};
use standing::TRAINS;
use station::Position;
use std::alloc::{AllocError, Global};
use track::Aspect;

// A station has no more points.
pub const MOST_POINTS: usize = 32;

impl<P: Motion> Wayside<P> {
    // A new track for a station: points normal and settled, signals at stop, no trains. None where the station has more than 32 points.
    pub fn new(heap: Global, station: &Accepted<'_>) -> Result<Option<Wayside<P>>, AllocError>
        ensures { IfOk result (λ o. MatchOption o (32 < length (laid station.now).points) (λ t. of_wayside P.Motion.seen t ≡ at_rest (laid station.now))) }
    {
        let tables = station.tables();
        let n = point_count(tables);
        if n > MOST_POINTS {
            return Ok(None);
        }
        let points = vec![in heap; P::at_rest(Position::Normal); n]?;
        let signals = vec![in heap; Aspect::Stop; signal_count(tables)]?;
        let trains = vec![in heap; None; TRAINS]?;
        Ok(Some(Wayside {
            points,
            signals,
            trains,
        }))
    }
}
