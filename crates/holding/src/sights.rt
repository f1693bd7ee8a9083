// A new holding, and what is seen through it.
ghost use Rattle.std.specs.Prelude.{◌≡◌, false, replicate};
ghost use Rattle.holding.specs.Seen.{count_at, hold, holds_back, marked, off_at};

use crate::kept::Holding;
use track::{Place, PointState, Train};

impl Holding {
    // Nothing is held back, and no train is kept derailed.
    pub fn new() -> Holding
        ensures { (result.counts ≡ replicate 32 0) × (result.derailed ≡ replicate 16 false) }
    {
        Holding {
            counts: [0; 32],
            derailed: [false; 16],
        }
    }

    // How many settlings of the point are held back. This and `is_off` are the library's `get` with a default of their own.
    pub(crate) fn count(&self, n: usize) -> u8
        ensures { result ≡ count_at self.now.counts n }
    {
        self.counts.get(n).copied().unwrap_or(0)
    }

    // Whether settlings of the point are held back.
    pub fn holds_back(&self, n: usize) -> bool
        ensures { result ≡ holds_back self.now.counts n }
    {
        self.count(n) != 0
    }

    // Whether the train is kept derailed.
    pub(crate) fn is_off(&self, n: usize) -> bool
        ensures { result ≡ off_at self.now.derailed n }
    {
        self.derailed.get(n).copied().unwrap_or(false)
    }

    // The point as it is seen: in motion while settlings are held back.
    pub fn seen_point(&self, n: usize, p: PointState) -> PointState
        ensures { result ≡ hold p (count_at self.now.counts n) }
    {
        PointState {
            settled: !self.holds_back(n) && p.settled,
            ..p
        }
    }

    // The train as it is seen: derailed where it is kept so.
    pub fn seen_train(&self, n: usize, t: Train) -> Train
        ensures { result ≡ marked t (off_at self.now.derailed n) }
    {
        t.map(|p| Place {
            derailed: self.is_off(n) || p.derailed,
            ..p
        })
    }
}
