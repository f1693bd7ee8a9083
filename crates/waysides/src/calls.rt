// The eleven calls on such a track.
ghost use Rattle.std.specs.Prelude.{◌≡◌, slice_index_or};
ghost use Rattle.std.proofs.Common.{arith, rules};
ghost use Rattle.std.proofs.lemmas.List.{length-map};
ghost use Rattle.station.specs.declared.tests.Position.TheVariants.{Normal};
ghost use Rattle.track.specs.Calls.{Drives, Settles, Shows, Enters, Fronts, Rears, Turns, driven, point_refusal, settle_refusal};
ghost use Rattle.track.specs.Meaning.{laid};
ghost use Rattle.track.specs.Refusals.{after, answer};
ghost use Rattle.waysides.specs.Waysides.{driven_run, of_wayside, runs, settled_run};

use crate::kept::Wayside;
use crate::motion::Motion;
use acceptance::Accepted;
use moves::{enter_step, front_step, rear_step, turn_step};
use standing::{
    Standing, clear_refusal, is_clear, point_refusal, settle_refusal, signal_refusal, train_refusal,
};
use station::Position;
use track::{Aspect, PointState, Refusal, Trackside, Train};

impl<P: Motion> Trackside for Wayside<P> {
    ghost meaning = { of_wayside P.Motion.seen };

    ghost few = { λ x. let long = length-map (runs x) P.Motion.seen in omega (arith, long, x.points.ok.0, x.few) };

    ghost sixteen = { first_of (Prim.search rules, Prim.grind (arith, Self.row.coded.inj)) };

    // What every trackside promises; and a drive that changes the target starts the point, wherever it was.
    fn drive(&mut self, station: &Accepted<'_>, point: usize, to: Position) -> Result<(), Refusal>
        ensures every { Drives (laid station.now) (of_wayside P.Motion.seen self.old) point to result (of_wayside P.Motion.seen self.new) }
        ensures starts { of_wayside P.Motion.seen self.new ≡ after (point_refusal (laid station.now) (of_wayside P.Motion.seen self.old) point) (of_wayside P.Motion.seen self.old) (driven (of_wayside P.Motion.seen self.old) point to (P.Motion.seen (P.Motion.started to)).settled) }
        ensures runs { runs self.new ≡ after (point_refusal (laid station.now) (of_wayside P.Motion.seen self.old) point) (runs self.old) (driven_run P.Motion.seen P.Motion.started (P.Motion.resting Normal) (runs self.old) point to) }
    {
        point_refusal(station.tables(), self, point)?;
        let target = self.run_at(point).state().target;
        if target != to {
            self.put_run(point, P::start(to));
        }
        Ok(())
    }

    // What every trackside promises; and what a settling makes of the point.
    fn settle(&mut self, station: &Accepted<'_>, point: usize) -> Result<bool, Refusal>
        ensures every { Settles (laid station.now) (of_wayside P.Motion.seen self.old) point result (of_wayside P.Motion.seen self.new) }
        ensures runs { runs self.new ≡ after (settle_refusal (laid station.now) (of_wayside P.Motion.seen self.old) point) (runs self.old) (settled_run P.Motion.going_on (P.Motion.resting Normal) (runs self.old) point) }
        ensures settles { result ≡ answer (settle_refusal (laid station.now) (of_wayside P.Motion.seen self.old) point) (P.Motion.seen (P.Motion.going_on (slice_index_or (runs self.old) point (P.Motion.resting Normal)))).settled }
    {
        settle_refusal(station.tables(), self, point)?;
        Ok(self.run_on(point))
    }

    fn show(&mut self, station: &Accepted<'_>, signal: usize, aspect: Aspect) -> Result<(), Refusal>
        ensures every { Shows (laid station.now) (of_wayside P.Motion.seen self.old) signal aspect result (of_wayside P.Motion.seen self.new) }
        ensures same { runs self.new ≡ runs self.old }
    {
        signal_refusal(station.tables(), self, signal)?;
        self.signals[signal] = aspect;
        Ok(())
    }

    fn enter(&mut self, station: &Accepted<'_>, train: usize, signal: usize) -> Result<(), Refusal>
        ensures every { Enters (laid station.now) (of_wayside P.Motion.seen self.old) train signal result (of_wayside P.Motion.seen self.new) }
        ensures same { runs self.new ≡ runs self.old }
    {
        let step = enter_step(station.tables(), self, train, signal);
        self.take(train, step).map(|_| ())
    }

    fn front(&mut self, station: &Accepted<'_>, train: usize) -> Result<Option<usize>, Refusal>
        ensures every { Fronts (laid station.now) (of_wayside P.Motion.seen self.old) train result (of_wayside P.Motion.seen self.new) }
        ensures same { runs self.new ≡ runs self.old }
    {
        let step = front_step(station.tables(), self, train);
        self.take(train, step)
    }

    fn rear(&mut self, station: &Accepted<'_>, train: usize) -> Result<(), Refusal>
        ensures every { Rears (laid station.now) (of_wayside P.Motion.seen self.old) train result (of_wayside P.Motion.seen self.new) }
        ensures same { runs self.new ≡ runs self.old }
    {
        let step = rear_step(station.tables(), self, train);
        self.take(train, step).map(|_| ())
    }

    fn turn(&mut self, station: &Accepted<'_>, train: usize) -> Result<(), Refusal>
        ensures every { Turns (laid station.now) (of_wayside P.Motion.seen self.old) train result (of_wayside P.Motion.seen self.new) }
        ensures same { runs self.new ≡ runs self.old }
    {
        let step = turn_step(station.tables(), self, train);
        self.take(train, step).map(|_| ())
    }

    fn point(&self, station: &Accepted<'_>, point: usize) -> Result<PointState, Refusal> {
        point_refusal(station.tables(), self, point)?;
        Ok(self.point_at(point))
    }

    fn signal(&self, station: &Accepted<'_>, signal: usize) -> Result<Aspect, Refusal> {
        signal_refusal(station.tables(), self, signal)?;
        Ok(self.aspect_at(signal))
    }

    fn clear(&self, station: &Accepted<'_>, segment: usize) -> Result<bool, Refusal> {
        clear_refusal(station.tables(), self, segment)?;
        Ok(is_clear(self, segment))
    }

    fn place(&self, station: &Accepted<'_>, train: usize) -> Result<Train, Refusal> {
        train_refusal(station.tables(), self, train)?;
        Ok(self.train_at(train))
    }
}
