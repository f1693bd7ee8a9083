// What the calls of an interlocking write into its slots.
ghost use Rattle.std.specs.Prelude.{◌≡◌};
ghost use Rattle.states.specs.Slots.{moved, stepped, with_lock, with_note};

use crate::places::put;
use crate::routes::Event;
use crate::slots::{Note, States};
use station::Lock;

impl States {
    // What an event makes of a route. Nothing changes where it does not fit the route's state.
    pub fn move_route(&mut self, n: usize, event: Event)
        ensures { self.new ≡ moved self.old n event }
    {
        if let Some(next) = self.route(n).next(event) {
            put(&mut self.routes, n, next);
        }
    }

    // Locks a subroute or a zone, or frees it.
    pub fn set_lock(&mut self, lock: Lock, locked: bool)
        ensures { self.new ≡ with_lock self.old lock locked }
    {
        match lock {
            Lock::Zone(z) => put(&mut self.zones, z, locked),
            Lock::Subroute(u) => put(&mut self.subroutes, u, locked),
        }
    }

    // Notes a route and a place of a train, or nothing.
    pub fn set_note(&mut self, train: usize, note: Option<Note>)
        ensures { self.new ≡ with_note self.old train note }
    {
        put(&mut self.notes, train, note);
    }
}

impl Note {
    // One place further on; the count stops at 255.
    pub fn next(self) -> Note
        ensures { result ≡ stepped self }
    {
        Note {
            place: self.place.saturating_add(1),
            ..self
        }
    }
}
