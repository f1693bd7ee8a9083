// Why a call of the interlocking is refused.
ghost use Rattle.std.specs.Prelude.{◌≡◌};
ghost use Rattle.states.specs.Denials.{number, place_of};
ghost use Rattle.states.specs.declared.denials.Denial.TheVariants.{Track};

use track::Refusal;

#[derive(Clone, Copy, PartialEq)]
pub enum Denial {
    // what the trackside refuses: 31, and 34 to 40
    Track(Refusal),
    // 31: no such route, subroute or zone
    Unknown,
    // 32: a train is present at the opening
    Occupied,
    // 33: a test fails; its place in the row, from 1
    Fails(usize),
    // 34: the route is not set, or the lock is free
    Idle,
}

impl From<Refusal> for Denial {
    ghost from_gives = { λ e r. r ≡ Track e };

    fn from(e: Refusal) -> Denial {
        Denial::Track(e)
    }
}

impl Denial {
    // The number by which a refusal is known.
    pub fn number(self) -> u8
        ensures { result ≡ number self }
    {
        match self {
            Denial::Track(e) => e.number(),
            Denial::Unknown => 31,
            Denial::Occupied => 32,
            Denial::Fails(_) => 33,
            Denial::Idle => 34,
        }
    }

    // The place of the test that fails.
    pub fn place(self) -> Option<usize>
        ensures { result ≡ place_of self }
    {
        match self {
            Denial::Fails(n) => Some(n),
            _ => None,
        }
    }
}
