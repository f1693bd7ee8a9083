// Any call by its value.
ghost use Rattle.calls.specs.Steps.{Steps, answered};
ghost use Rattle.interlocking.specs.Machines.{state_of};
ghost use Rattle.track.specs.Meaning.{laid};

use crate::machine::Machine;
use acceptance::Accepted;
use calls::{Answer, Call};
use states::Denial;
use track::Trackside;

impl<T: Trackside> Machine<T> {
    // Carries out a call, and gives the answer to its value.
    fn carry_out(&mut self, station: &Accepted<'_>, call: Call) -> Result<Answer, Denial>
        ensures { Steps (laid station.now) (state_of T.Trackside.meaning self.old) call (answered (λ a. a) result) (state_of T.Trackside.meaning self.new) }
    {
        match call {
            Call::Request(r) => self.request(station, r).map(|_| Answer::Done),
            Call::Activate(r) => self.activate(station, r).map(|_| Answer::Done),
            Call::Release(l) => self.release(station, l).map(|_| Answer::Done),
            Call::Settle(p) => self.settle(station, p).map(Answer::Settled),
            Call::Enter(t, n) => self.enter(station, t, n).map(|_| Answer::Done),
            Call::Front(t) => self.front(station, t).map(Answer::Passed),
            Call::Rear(t) => self.rear(station, t).map(|_| Answer::Done),
            Call::Turn(t) => self.turn(station, t).map(|_| Answer::Done),
        }
    }

    // Carries out a call, and gives its answer.
    pub fn call(&mut self, station: &Accepted<'_>, call: Call) -> Answer
        ensures { Steps (laid station.now) (state_of T.Trackside.meaning self.old) call result (state_of T.Trackside.meaning self.new) }
    {
        self.carry_out(station, call)
            .unwrap_or_else(Answer::Refused)
    }
}
