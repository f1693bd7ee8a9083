// The slots of an interlocking: one for each number that a station may declare.
ghost use Rattle.std.specs.Prelude.{◌≡◌};
ghost use Rattle.states.specs.Slots.{fresh, is_locked, note_at, route_state};

use crate::routes::RouteState;
use station::Lock;

// A station that is read from a text has at most so many routes, subroutes and zones.
pub const ROUTES: usize = 48;

pub const SUBROUTES: usize = 192;

pub const ZONES: usize = 32;

// Trains are numbered 0 to 15.
pub const TRAINS: usize = 16;

// A train's route, and how many segments it has entered since it passed the route's signal; at most 255 are counted.
#[derive(Clone, Copy, PartialEq)]
pub struct Note {
    pub route: usize,
    pub place: u8,
}

#[derive(Clone, Copy)]
pub struct States {
    pub(crate) routes: [RouteState; ROUTES],
    pub(crate) subroutes: [bool; SUBROUTES],
    pub(crate) zones: [bool; ZONES],
    pub(crate) notes: [Option<Note>; TRAINS],
}

impl States {
    // Every route unset, every lock free, no notes.
    pub fn new() -> States
        ensures { result ≡ fresh }
    {
        States {
            routes: [RouteState::Unset; ROUTES],
            subroutes: [false; SUBROUTES],
            zones: [false; ZONES],
            notes: [None; TRAINS],
        }
    }

    // A route's state. One that has no slot is unset. This and the next two are the library's `get` with a default of their own.
    pub fn route(&self, n: usize) -> RouteState
        ensures { result ≡ route_state self.now n }
    {
        self.routes.get(n).copied().unwrap_or(RouteState::Unset)
    }

    // Whether a subroute or a zone is locked. One that has no slot is free.
    pub fn is_locked(&self, lock: Lock) -> bool
        ensures { result ≡ is_locked self.now lock }
    {
        match lock {
            Lock::Zone(z) => self.zones.get(z).copied().unwrap_or(false),
            Lock::Subroute(u) => self.subroutes.get(u).copied().unwrap_or(false),
        }
    }

    // What is noted of a train.
    pub fn note(&self, train: usize) -> Option<Note>
        ensures { result ≡ note_at self.now train }
    {
        self.notes.get(train).copied().unwrap_or(None)
    }
}
