// The eleven calls: what the layer itself does not answer goes down, and what the track below answers comes up.
ghost use Rattle.std.specs.Prelude.{◌≡◌, if◌then◌else◌, MatchBool};
ghost use Rattle.delay.specs.Delays.{counts_driven, counts_settled, draw_course, goes_down, held_answer, kept_off, marks_entered, marks_moved, move_course};
ghost use Rattle.holding.specs.Seen.{holds_back, through};
ghost use Rattle.track.specs.Calls.{Drives, Settles, Shows, Enters, Fronts, Rears, Turns};
ghost use Rattle.track.specs.Meaning.{laid};
ghost use Rattle.holding.proofs.Eaches.{length_each};

use crate::delays::Delay;
use acceptance::Accepted;
use holding::{Course, Holding, held_ways};
use station::Position;
use track::{Aspect, PointState, Refusal, Trackside, Train};

// Refuses a train whose course does not go down, and keeps one derailed that derails so.
fn follow(holding: &mut Holding, train: usize, course: Course) -> Result<(), Refusal>
    ensures answers { result ≡ (if goes_down course then Ok tt else Err Refusal.OffTrack) }
    ensures derailed { holding.new.derailed ≡ kept_off course holding.old.derailed train }
    ensures same { holding.new.counts ≡ holding.old.counts }
{
    match course {
        Course::Down => Ok(()),
        Course::Off => Err(Refusal::OffTrack),
        Course::Derails => {
            holding.mark(train, true);
            Err(Refusal::OffTrack)
        }
    }
}

impl<T: Trackside> Trackside for Delay<T> {
    ghost meaning = { λ d. through (T.Trackside.meaning d.below) d.holding };

    ghost few = { λ x. rw length_each (T.Trackside.few x.below) };

    ghost sixteen = { λ x. rw length_each (T.Trackside.sixteen x.below) };

    // What every trackside promises; the drive goes down, and where the target changes, the point's settlings are held back anew.
    fn drive(&mut self, station: &Accepted<'_>, point: usize, to: Position) -> Result<(), Refusal>
        ensures every { Drives (laid station.now) (through (T.Trackside.meaning self.old.below) self.old.holding) point to result (through (T.Trackside.meaning self.new.below) self.new.holding) }
        ensures below { Drives (laid station.now) (T.Trackside.meaning self.old.below) point to result (T.Trackside.meaning self.new.below) }
        ensures counts { self.new.holding.counts ≡ counts_driven (laid station.now) (T.Trackside.meaning self.old.below) self.old.holding self.old.settlings point to }
        ensures same { (self.new.holding.derailed ≡ self.old.holding.derailed) × (self.new.settlings ≡ self.old.settlings) }
    {
        let p = self.below.point(station, point)?;
        self.below.drive(station, point, to)?;
        self.holding.driven(point, p.target, to, self.settlings);
        Ok(())
    }

    // What every trackside promises; a settling of a held point takes one off and answers whether the point is seen settled then, and any other goes down.
    fn settle(&mut self, station: &Accepted<'_>, point: usize) -> Result<bool, Refusal>
        ensures every { Settles (laid station.now) (through (T.Trackside.meaning self.old.below) self.old.holding) point result (through (T.Trackside.meaning self.new.below) self.new.holding) }
        ensures below { MatchBool (holds_back self.old.holding.counts point) ((self.new.below ≡ self.old.below) × (result ≡ held_answer (laid station.now) (T.Trackside.meaning self.old.below) self.old.holding point)) (Settles (laid station.now) (T.Trackside.meaning self.old.below) point result (T.Trackside.meaning self.new.below)) }
        ensures counts { self.new.holding.counts ≡ counts_settled (laid station.now) (T.Trackside.meaning self.old.below) self.old.holding point }
        ensures same { (self.new.holding.derailed ≡ self.old.holding.derailed) × (self.new.settlings ≡ self.old.settlings) }
    {
        let p = self.below.point(station, point)?;
        if !self.holding.holds_back(point) {
            return self.below.settle(station, point);
        }
        self.holding.take_one(point);
        Ok(self.holding.seen_point(point, p).settled)
    }

    // This call and two of the questions only go down; no trait can say that once for every layer.
    fn show(&mut self, station: &Accepted<'_>, signal: usize, aspect: Aspect) -> Result<(), Refusal>
        ensures every { Shows (laid station.now) (through (T.Trackside.meaning self.old.below) self.old.holding) signal aspect result (through (T.Trackside.meaning self.new.below) self.new.holding) }
        ensures below { Shows (laid station.now) (T.Trackside.meaning self.old.below) signal aspect result (T.Trackside.meaning self.new.below) }
        ensures same { (self.new.holding ≡ self.old.holding) × (self.new.settlings ≡ self.old.settlings) }
    {
        self.below.show(station, signal, aspect)
    }

    // What every trackside promises; the entry goes down, and a train that enters is not kept derailed.
    fn enter(&mut self, station: &Accepted<'_>, train: usize, signal: usize) -> Result<(), Refusal>
        ensures every { Enters (laid station.now) (through (T.Trackside.meaning self.old.below) self.old.holding) train signal result (through (T.Trackside.meaning self.new.below) self.new.holding) }
        ensures below { Enters (laid station.now) (T.Trackside.meaning self.old.below) train signal result (T.Trackside.meaning self.new.below) }
        ensures derailed { self.new.holding.derailed ≡ marks_entered (laid station.now) (T.Trackside.meaning self.old.below) self.old.holding train signal }
        ensures same { (self.new.holding.counts ≡ self.old.holding.counts) × (self.new.settlings ≡ self.old.settlings) }
    {
        self.below.enter(station, train, signal)?;
        self.holding.mark(train, false);
        Ok(())
    }

    // What every trackside promises; over a held point the train derails in the layer, one that did so stays derailed, and any other goes on below.
    fn front(&mut self, station: &Accepted<'_>, train: usize) -> Result<Option<usize>, Refusal>
        ensures every { Fronts (laid station.now) (through (T.Trackside.meaning self.old.below) self.old.holding) train result (through (T.Trackside.meaning self.new.below) self.new.holding) }
        ensures below { MatchBool (goes_down (move_course (laid station.now) (T.Trackside.meaning self.old.below) self.old.holding train)) (Fronts (laid station.now) (T.Trackside.meaning self.old.below) train result (T.Trackside.meaning self.new.below)) (self.new.below ≡ self.old.below) }
        ensures derailed { self.new.holding.derailed ≡ marks_moved (laid station.now) (T.Trackside.meaning self.old.below) self.old.holding train }
        ensures same { (self.new.holding.counts ≡ self.old.holding.counts) × (self.new.settlings ≡ self.old.settlings) }
    {
        let t = self.below.place(station, train)?;
        held_ways(station);
        let course = self.holding.course(station.tables(), train, t);
        follow(&mut self.holding, train, course)?;
        self.below.front(station, train)
    }

    // What every trackside promises; a train that the layer keeps derailed stays so, and any other draws in below.
    fn rear(&mut self, station: &Accepted<'_>, train: usize) -> Result<(), Refusal>
        ensures every { Rears (laid station.now) (through (T.Trackside.meaning self.old.below) self.old.holding) train result (through (T.Trackside.meaning self.new.below) self.new.holding) }
        ensures below { MatchBool (goes_down (draw_course (T.Trackside.meaning self.old.below) self.old.holding train)) (Rears (laid station.now) (T.Trackside.meaning self.old.below) train result (T.Trackside.meaning self.new.below)) (self.new.below ≡ self.old.below) }
        ensures same { (self.new.holding ≡ self.old.holding) × (self.new.settlings ≡ self.old.settlings) }
    {
        let t = self.below.place(station, train)?;
        let Course::Down = self.holding.rear_course(train, t) else {
            return Err(Refusal::OffTrack);
        };
        self.below.rear(station, train)
    }

    // As front; a closure for the last call would borrow `below` beside the holding.
    fn turn(&mut self, station: &Accepted<'_>, train: usize) -> Result<(), Refusal>
        ensures every { Turns (laid station.now) (through (T.Trackside.meaning self.old.below) self.old.holding) train result (through (T.Trackside.meaning self.new.below) self.new.holding) }
        ensures below { MatchBool (goes_down (move_course (laid station.now) (T.Trackside.meaning self.old.below) self.old.holding train)) (Turns (laid station.now) (T.Trackside.meaning self.old.below) train result (T.Trackside.meaning self.new.below)) (self.new.below ≡ self.old.below) }
        ensures derailed { self.new.holding.derailed ≡ marks_moved (laid station.now) (T.Trackside.meaning self.old.below) self.old.holding train }
        ensures same { (self.new.holding.counts ≡ self.old.holding.counts) × (self.new.settlings ≡ self.old.settlings) }
    {
        let t = self.below.place(station, train)?;
        held_ways(station);
        let course = self.holding.course(station.tables(), train, t);
        follow(&mut self.holding, train, course)?;
        self.below.turn(station, train)
    }

    fn point(&self, station: &Accepted<'_>, point: usize) -> Result<PointState, Refusal> {
        self.below
            .point(station, point)
            .map(|p| self.holding.seen_point(point, p))
    }

    #[tactic(auto, using(holding::proofs::Eaches::length_each))]
    fn signal(&self, station: &Accepted<'_>, signal: usize) -> Result<Aspect, Refusal> {
        self.below.signal(station, signal)
    }

    fn clear(&self, station: &Accepted<'_>, segment: usize) -> Result<bool, Refusal> {
        self.below.clear(station, segment)
    }

    fn place(&self, station: &Accepted<'_>, train: usize) -> Result<Train, Refusal> {
        self.below
            .place(station, train)
            .map(|t| self.holding.seen_train(train, t))
    }
}
