// What the calls write into a holding.
ghost use Rattle.std.specs.Prelude.{◌≡◌, slice_set};
ghost use Rattle.holding.specs.Seen.{one_fewer, started};

use crate::kept::Holding;
use station::Position;

// Writes one element, where the list has it, as `states` does for slots: a crate for both would be longer. By index, since `get_mut` does not promise what the list holds after a write.
fn put<T: Copy>(xs: &mut [T], n: usize, x: T)
    ensures { xs.new ≡ slice_set xs.old n x }
{
    if n < xs.len() {
        xs[n] = x;
    }
}

impl Holding {
    // Holds back so many settlings of a point that is driven to the other side.
    pub fn driven(&mut self, n: usize, was: Position, to: Position, count: u8)
        ensures counts { self.new.counts ≡ started self.old.counts n count was to }
        ensures same { self.new.derailed ≡ self.old.derailed }
    {
        if was != to {
            put(&mut self.counts, n, count);
        }
    }

    // One settling of the point fewer is held back.
    pub fn take_one(&mut self, n: usize)
        ensures counts { self.new.counts ≡ one_fewer self.old.counts n }
        ensures same { self.new.derailed ≡ self.old.derailed }
    {
        let count = self.count(n);
        if count != 0 {
            put(&mut self.counts, n, count - 1);
        }
    }

    // Keeps the train derailed, or no longer.
    pub fn mark(&mut self, n: usize, off: bool)
        ensures derailed { self.new.derailed ≡ slice_set self.old.derailed n off }
        ensures same { self.new.counts ≡ self.old.counts }
    {
        put(&mut self.derailed, n, off);
    }
}
