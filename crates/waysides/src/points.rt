// The points of such a track, read and written.
ghost use Rattle.std.specs.Prelude.{◌≡◌, ◌<◌, false, vec_len, slice_index_or, slice_set};
ghost use Rattle.station.specs.declared.tests.Position.TheVariants.{Normal};
ghost use Rattle.track.specs.Calls.{settled_so};
ghost use Rattle.track.specs.Meaning.{state_at, with_point};
ghost use Rattle.waysides.specs.Waysides.{of_wayside, runs, settled_run};

use crate::kept::Wayside;
use crate::motion::Motion;

impl<P: Motion> Wayside<P> {
    // How a point runs.
    #[tactic(auto, using(crate::proofs::Running::seen_at))]
    pub(crate) fn run_at(&self, n: usize) -> P
        requires { n < vec_len self.now.points }
        ensures value { (d : _) → result ≡ slice_index_or (runs self.now) n d }
        ensures state { state_at (of_wayside P.Motion.seen self.now) n ≡ P.Motion.seen result }
    {
        self.points[n]
    }

    // Changes how one point runs.
    #[tactic(auto, using(crate::proofs::Running::seen_set))]
    pub(crate) fn put_run(&mut self, n: usize, p: P)
        requires { n < vec_len self.old.points }
        ensures runs { runs self.new ≡ slice_set (runs self.old) n p }
        ensures meaning { of_wayside P.Motion.seen self.new ≡ with_point (of_wayside P.Motion.seen self.old) n (P.Motion.seen p) }
    {
        self.points[n] = p;
    }

    // Lets a point go on by one settling, and answers whether it lies then.
    pub(crate) fn run_on(&mut self, n: usize) -> bool
        requires { n < vec_len self.old.points }
        ensures runs { runs self.new ≡ settled_run P.Motion.going_on (P.Motion.resting Normal) (runs self.old) n }
        ensures lies { result ≡ (P.Motion.seen (P.Motion.going_on (slice_index_or (runs self.old) n (P.Motion.resting Normal)))).settled }
        ensures meaning { (state_at (of_wayside P.Motion.seen self.old) n).settled ≡ false → of_wayside P.Motion.seen self.new ≡ settled_so (of_wayside P.Motion.seen self.old) n result }
    {
        let run = self.run_at(n).go_on();
        self.put_run(n, run);
        run.state().settled
    }
}
