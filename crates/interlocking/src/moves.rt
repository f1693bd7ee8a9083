// Settling, entry, front, rear and turn.
ghost use Rattle.std.specs.Prelude.{◌≡◌};
ghost use Rattle.conditions.specs.States.{a_state};
ghost use Rattle.interlocking.specs.Machines.{state_of};
ghost use Rattle.calls.specs.Moves.{Entering, Fronting, Rearing, Settling, Turning, advanced, is_inside, passed, went_on};
ghost use Rattle.track.specs.Calls.{place_answer};
ghost use Rattle.track.specs.Meaning.{laid};

use crate::grants::show;
use crate::machine::Machine;
use crate::opening::check;
use acceptance::Accepted;
use passing::{note_from, pass_routes};
use states::{Denial, Note};
use track::{Aspect, Place, Trackside};

// Whether the trackside answers that the train's front is in a segment.
fn is_inside<T: Trackside>(track: &T, station: &Accepted<'_>, train: usize) -> bool
    ensures { result ≡ is_inside (place_answer (laid station.now) (T.Trackside.meaning track.now) train) }
{
    matches!(
        track.place(station, train),
        Ok(Some(Place { front: Some(_), .. }))
    )
}

impl<T: Trackside> Machine<T> {
    // A train has passed the signal: every active route from it is unset, it shows stop, and the lowest of those routes is noted.
    fn pass(&mut self, station: &Accepted<'_>, train: usize, signal: usize)
        ensures { state_of T.Trackside.meaning self.new ≡ passed (laid station.now) (state_of T.Trackside.meaning self.old) train signal }
    {
        let tables = station.tables();
        let note = note_from(tables, &self.states, signal);
        pass_routes(tables, &mut self.states, signal);
        self.states.set_note(train, note);
        show(&mut self.track, station, Some(signal), Aspect::Stop);
    }

    // One place further on, where the front has come into a segment.
    fn advance(&mut self, station: &Accepted<'_>, train: usize)
        ensures { state_of T.Trackside.meaning self.new ≡ advanced (laid station.now) (state_of T.Trackside.meaning self.old) train }
    {
        if is_inside(&self.track, station, train) {
            let note = self.states.note(train).map(Note::next);
            self.states.set_note(train, note);
        }
    }

    // What is noted of a front that went on past the signal, or past none.
    fn go_on(&mut self, station: &Accepted<'_>, train: usize, signal: Option<usize>)
        ensures { state_of T.Trackside.meaning self.new ≡ went_on (laid station.now) (state_of T.Trackside.meaning self.old) train signal }
    {
        match signal {
            Some(n) => self.pass(station, train, n),
            None => self.advance(station, train),
        }
    }

    // Lets a point in motion settle, or not, as the trackside chooses; answers which.
    pub fn settle(&mut self, station: &Accepted<'_>, point: usize) -> Result<bool, Denial>
        ensures { Settling (laid station.now) (state_of T.Trackside.meaning self.old) point result (state_of T.Trackside.meaning self.new) }
    {
        check(&self.track, station)?;
        Ok(self.track.settle(station, point)?)
    }

    // A train enters from outside past a signal.
    pub fn enter(
        &mut self,
        station: &Accepted<'_>,
        train: usize,
        signal: usize,
    ) -> Result<(), Denial>
        ensures { Entering (laid station.now) (state_of T.Trackside.meaning self.old) train signal result (state_of T.Trackside.meaning self.new) }
    {
        check(&self.track, station)?;
        self.track.enter(station, train, signal)?;
        self.pass(station, train, signal);
        Ok(())
    }

    // A train's front goes on; answers the signal that it passed.
    pub fn front(&mut self, station: &Accepted<'_>, train: usize) -> Result<Option<usize>, Denial>
        ensures { Fronting (laid station.now) (state_of T.Trackside.meaning self.old) train result (state_of T.Trackside.meaning self.new) }
    {
        check(&self.track, station)?;
        let passed = self.track.front(station, train)?;
        self.go_on(station, train, passed);
        Ok(passed)
    }

    // A train gives up the segment behind its front.
    pub fn rear(&mut self, station: &Accepted<'_>, train: usize) -> Result<(), Denial>
        ensures { Rearing (laid station.now) (state_of T.Trackside.meaning self.old) train result (state_of T.Trackside.meaning self.new) }
    {
        check(&self.track, station)?;
        Ok(self.track.rear(station, train)?)
    }

    // Turns a train; nothing is noted of it then.
    pub fn turn(&mut self, station: &Accepted<'_>, train: usize) -> Result<(), Denial>
        ensures { Turning (laid station.now) (state_of T.Trackside.meaning self.old) train result (state_of T.Trackside.meaning self.new) }
    {
        check(&self.track, station)?;
        self.track.turn(station, train)?;
        self.states.set_note(train, None);
        Ok(())
    }
}
