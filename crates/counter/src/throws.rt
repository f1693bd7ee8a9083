// The throws of each point.
ghost use Rattle.std.specs.Prelude.{◌≡◌, replicate};
ghost use Rattle.counter.specs.Throws.{one_more, since_greasing, throws_at};
ghost use Rattle.track.specs.Calls.{point_refusal};
ghost use Rattle.track.specs.Meaning.{laid};
ghost use Rattle.track.specs.Refusals.{answer};

use acceptance::Accepted;
use track::{Refusal, Trackside};

// A track has no more points.
const MOST_POINTS: usize = 32;

// A point is greased after so many throws.
const GREASING: u32 = 4000;

#[derive(Drop)]
pub struct Counter<T: Trackside> {
    pub(crate) below: T,
    pub(crate) throws: [u32; 32],
}

// One throw more; the count stops at the top.
pub(crate) fn one_more(n: u32) -> u32
    ensures { result ≡ one_more n }
{
    n.saturating_add(1)
}

impl<T: Trackside> Counter<T> {
    // A layer that has counted no throw yet.
    pub fn new(below: T) -> Counter<T>
        ensures { (result.below ≡ below) × (result.throws ≡ replicate 32 0) }
    {
        Counter {
            below,
            throws: [0; MOST_POINTS],
        }
    }

    // The track below.
    pub fn below(&self) -> &T
        ensures { result.now ≡ self.now.below }
    {
        &self.below
    }

    // How often the point was thrown.
    pub fn throws(&self, station: &Accepted<'_>, point: usize) -> Result<u32, Refusal>
        ensures { result ≡ answer (point_refusal (laid station.now) (T.Trackside.meaning self.now.below) point) (throws_at self.now.throws point) }
    {
        self.below.point(station, point)?;
        Ok(self.throws[point])
    }

    // How often the point was thrown since it was last due for greasing.
    pub fn since_greasing(&self, station: &Accepted<'_>, point: usize) -> Result<u32, Refusal>
        ensures { result ≡ answer (point_refusal (laid station.now) (T.Trackside.meaning self.now.below) point) (since_greasing (throws_at self.now.throws point)) }
    {
        let n = self.throws(station, point)?;
        Ok(n % GREASING)
    }
}
