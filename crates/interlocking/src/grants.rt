// Request, activation and release.
ghost use Rattle.std.specs.Prelude.{◌≡◌};
ghost use Rattle.conditions.specs.Firsts.{first_fails};
ghost use Rattle.conditions.specs.States.{a_state};
ghost use Rattle.calls.specs.Grants.{Acted, Activates, AllActed, Releases, Requests, shown};
ghost use Rattle.interlocking.specs.Machines.{state_of};
ghost use Rattle.states.specs.Denials.{by_test};
ghost use Rattle.track.specs.Refusals.{answer};
ghost use Rattle.track.specs.Meaning.{laid};

use crate::machine::Machine;
use crate::opening::check;
use acceptance::Accepted;
use conditions::{Test, View};
use lookups::{actions, activation_tests, request_tests, route_count};
use passing::{is_declared, release_row, signal_of};
use states::{Denial, Event};
use station::{Action, Lock};
use track::{Aspect, Trackside};

// Shows an aspect at the signal, if any.
pub(crate) fn show<T: Trackside>(
    track: &mut T,
    station: &Accepted<'_>,
    signal: Option<usize>,
    aspect: Aspect,
)
    ensures { T.Trackside.meaning track.new ≡ shown (laid station.now) (T.Trackside.meaning track.old) signal aspect }
{
    if let Some(n) = signal {
        let _ = track.show(station, n, aspect);
    }
}

impl<T: Trackside> Machine<T> {
    // One action of a request row.
    fn act(&mut self, station: &Accepted<'_>, action: Action)
        ensures { Acted (laid station.now) action (state_of T.Trackside.meaning self.old) (state_of T.Trackside.meaning self.new) }
    {
        match action {
            Action::Set(r) => self.states.move_route(r, Event::Request),
            Action::Drive(p, x) => {
                let _ = self.track.drive(station, p, x);
            }
            Action::Take(l) => self.states.set_lock(l, true),
        }
    }

    // The actions of a request row, in written order.
    fn act_all(&mut self, station: &Accepted<'_>, actions: &[Action])
        ensures { AllActed (laid station.now) actions.now (state_of T.Trackside.meaning self.old) (state_of T.Trackside.meaning self.new) }
    {
        // A loop, since of what a closure changes a chain promises nothing.
        for a in actions {
            self.act(station, *a);
        }
    }

    // 33 with the place of the first test of a row that fails.
    fn hold<X: Test>(&self, station: &Accepted<'_>, tests: &[X]) -> Result<(), Denial>
        ensures { result ≡ answer (by_test (first_fails (λ x. X.Test.holds x (laid station.now) (state_of T.Trackside.meaning self.now)) tests.now)) tt }
    {
        let view = View {
            station,
            states: &self.states,
            track: &self.track,
        };
        view.first_failing(tests)
            .map_or(Ok(()), |k| Err(Denial::Fails(k)))
    }

    // Requests a route: where all tests of its row hold, its actions follow.
    pub fn request(&mut self, station: &Accepted<'_>, route: usize) -> Result<(), Denial>
        ensures { Requests (laid station.now) (state_of T.Trackside.meaning self.old) route result (state_of T.Trackside.meaning self.new) }
    {
        check(&self.track, station)?;
        let tables = station.tables();
        if route >= route_count(tables) {
            return Err(Denial::Unknown);
        }
        self.hold(station, request_tests(tables, route))?;
        self.act_all(station, actions(tables, route));
        Ok(())
    }

    // Activates a set route: where all tests of its row hold, it is active and its first signal shows proceed.
    pub fn activate(&mut self, station: &Accepted<'_>, route: usize) -> Result<(), Denial>
        ensures { Activates (laid station.now) (state_of T.Trackside.meaning self.old) route result (state_of T.Trackside.meaning self.new) }
    {
        check(&self.track, station)?;
        let tables = station.tables();
        if route >= route_count(tables) {
            return Err(Denial::Unknown);
        }
        let active = self.states.route(route).next(Event::Activation);
        active.ok_or(Denial::Idle)?;
        self.hold(station, activation_tests(tables, route))?;
        self.states.move_route(route, Event::Activation);
        show(
            &mut self.track,
            station,
            signal_of(tables, route),
            Aspect::Proceed,
        );
        Ok(())
    }

    // Releases a locked subroute or zone: where all tests of its row hold, it is free.
    pub fn release(&mut self, station: &Accepted<'_>, lock: Lock) -> Result<(), Denial>
        ensures { Releases (laid station.now) (state_of T.Trackside.meaning self.old) lock result (state_of T.Trackside.meaning self.new) }
    {
        check(&self.track, station)?;
        let tables = station.tables();
        if !is_declared(tables, lock) {
            return Err(Denial::Unknown);
        }
        if !self.states.is_locked(lock) {
            return Err(Denial::Idle);
        }
        self.hold(station, release_row(tables, lock))?;
        self.states.set_lock(lock, false);
        Ok(())
    }
}
