// The eleven calls: each goes down, and what it answers comes up. Only a drive counts.
ghost use Rattle.std.specs.Prelude.{◌≡◌};
ghost use Rattle.counter.specs.Throws.{counted, thrown};
ghost use Rattle.track.specs.Calls.{Drives, Settles, Shows, Enters, Fronts, Rears, Turns, point_refusal};
ghost use Rattle.track.specs.Meaning.{laid, state_at};
ghost use Rattle.std.proofs.Common.{rules};

use crate::throws::{Counter, one_more};
use acceptance::Accepted;
use station::Position;
use track::{Aspect, PointState, Refusal, Trackside, Train};

impl<T: Trackside> Trackside for Counter<T> {
    ghost meaning = { λ c. T.Trackside.meaning c.below };

    ghost few = { Prim.search rules };

    ghost sixteen = { Prim.search rules };

    // What every trackside promises; and a drive that changes the target counts one throw of the point.
    fn drive(&mut self, station: &Accepted<'_>, point: usize, to: Position) -> Result<(), Refusal>
        ensures every { Drives (laid station.now) (T.Trackside.meaning self.old.below) point to result (T.Trackside.meaning self.new.below) }
        ensures counts { self.new.throws ≡ counted (point_refusal (laid station.now) (T.Trackside.meaning self.old.below) point) self.old.throws (thrown self.old.throws point (state_at (T.Trackside.meaning self.old.below) point).target to) }
    {
        let p = self.below.point(station, point)?;
        self.below.drive(station, point, to)?;
        if p.target != to {
            self.throws[point] = one_more(self.throws[point]);
        }
        Ok(())
    }

    fn settle(&mut self, station: &Accepted<'_>, point: usize) -> Result<bool, Refusal>
        ensures every { Settles (laid station.now) (T.Trackside.meaning self.old.below) point result (T.Trackside.meaning self.new.below) }
        ensures same { self.new.throws ≡ self.old.throws }
    {
        self.below.settle(station, point)
    }

    // This call and those after it only go down; no trait can say that once for the calls of every layer.
    fn show(&mut self, station: &Accepted<'_>, signal: usize, aspect: Aspect) -> Result<(), Refusal>
        ensures every { Shows (laid station.now) (T.Trackside.meaning self.old.below) signal aspect result (T.Trackside.meaning self.new.below) }
        ensures same { self.new.throws ≡ self.old.throws }
    {
        self.below.show(station, signal, aspect)
    }

    fn enter(&mut self, station: &Accepted<'_>, train: usize, signal: usize) -> Result<(), Refusal>
        ensures every { Enters (laid station.now) (T.Trackside.meaning self.old.below) train signal result (T.Trackside.meaning self.new.below) }
        ensures same { self.new.throws ≡ self.old.throws }
    {
        self.below.enter(station, train, signal)
    }

    fn front(&mut self, station: &Accepted<'_>, train: usize) -> Result<Option<usize>, Refusal>
        ensures every { Fronts (laid station.now) (T.Trackside.meaning self.old.below) train result (T.Trackside.meaning self.new.below) }
        ensures same { self.new.throws ≡ self.old.throws }
    {
        self.below.front(station, train)
    }

    fn rear(&mut self, station: &Accepted<'_>, train: usize) -> Result<(), Refusal>
        ensures every { Rears (laid station.now) (T.Trackside.meaning self.old.below) train result (T.Trackside.meaning self.new.below) }
        ensures same { self.new.throws ≡ self.old.throws }
    {
        self.below.rear(station, train)
    }

    fn turn(&mut self, station: &Accepted<'_>, train: usize) -> Result<(), Refusal>
        ensures every { Turns (laid station.now) (T.Trackside.meaning self.old.below) train result (T.Trackside.meaning self.new.below) }
        ensures same { self.new.throws ≡ self.old.throws }
    {
        self.below.turn(station, train)
    }

    fn point(&self, station: &Accepted<'_>, point: usize) -> Result<PointState, Refusal> {
        self.below.point(station, point)
    }

    fn signal(&self, station: &Accepted<'_>, signal: usize) -> Result<Aspect, Refusal> {
        self.below.signal(station, signal)
    }

    fn clear(&self, station: &Accepted<'_>, segment: usize) -> Result<bool, Refusal> {
        self.below.clear(station, segment)
    }

    fn place(&self, station: &Accepted<'_>, train: usize) -> Result<Train, Refusal> {
        self.below.place(station, train)
    }
}
