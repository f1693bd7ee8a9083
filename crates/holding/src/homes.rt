// Whether a segment has a home point that is held.
ghost use Rattle.std.specs.Prelude.{◌≡◌};
ghost use Rattle.holding.specs.Courses.{held_here, some_held};
ghost use Rattle.station.specs.Station.{station};

use crate::kept::Holding;
use lookups::{home, point_count};
use station::Tables;

impl Holding {
    // Whether the point's home is the segment, and settlings of it are held back.
    fn held_here(&self, tables: &Tables, segment: usize, p: usize) -> bool
        ensures { result ≡ held_here (station tables.now) self.now.counts segment p }
    {
        home(tables, p) == segment && self.holds_back(p)
    }

    // Whether settlings of some home point of the segment are held back.
    pub(crate) fn some_held(&self, tables: &Tables, segment: usize) -> bool
        ensures { result ≡ some_held (station tables.now) self.now.counts segment }
    {
        (0..point_count(tables)).any(|p| self.held_here(tables, segment, p))
    }
}
