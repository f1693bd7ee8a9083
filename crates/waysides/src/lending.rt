// The train table of a track, lent one record at a time.
ghost use Rattle.std.specs.Borrow.{follows, sem};
ghost use Rattle.std.specs.Prelude.{◌≡◌, ◌<◌, vec_len, slice_index_or};
ghost use Rattle.std.specs.Vec.{with_item};
ghost use Rattle.std.specs.contracts.option.Option.{the_row as option_row};
ghost use Rattle.track.specs.Meaning.{put, with_train};
ghost use Rattle.track.specs.contracts.states.Place.{the_row as place_row};
ghost use Rattle.waysides.specs.Waysides.{of_wayside, runs};
ghost use Rattle.waysides.specs.contracts.kept.Wayside.{the_row as wayside_row};

use crate::kept::Wayside;
use crate::motion::Motion;
use track::{Refusal, Step, Train};

impl<P: Motion> Wayside<P> {
    // Lends one train's record to be changed; the rest of the track stays as it is.
    fn train_mut(&mut self, n: usize) -> &mut Train
        requires { n < vec_len self.old.trains }
        ensures* follows { sem 𝓛 (follows (wayside_row P.row) (option_row place_row) self.entry.ghost_name result.ghost_name (λ w. record { points = self.old.points; signals = self.old.signals; trains = with_item self.old.trains n w; few = self.old.few; sixteen = self.old.sixteen })) }
        ensures value { result.now ≡ slice_index_or self.old.trains.items n result.now }
    {
        &mut self.trains[n]
    }

    // Changes one train's record, and no other's.
    fn put(&mut self, n: usize, t: Train)
        ensures meaning { of_wayside P.Motion.seen self.new ≡ with_train (of_wayside P.Motion.seen self.old) n t }
        ensures same { runs self.new ≡ runs self.old }
    {
        // By index, since a record is changed only where it is lent.
        if n < self.trains.len() {
            *self.train_mut(n) = t;
        }
    }

    // Changes one train's record as the step says, and answers what it answers.
    pub(crate) fn take(&mut self, n: usize, step: Step) -> Result<Option<usize>, Refusal>
        ensures answer { result ≡ step.answer }
        ensures meaning { of_wayside P.Motion.seen self.new ≡ put (of_wayside P.Motion.seen self.old) n step.train }
        ensures same { runs self.new ≡ runs self.old }
    {
        if let Some(t) = step.train {
            self.put(n, t);
        }
        step.answer
    }
}
