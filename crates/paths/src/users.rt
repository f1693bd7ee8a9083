// Which routes use a subroute, and which lock a zone.
ghost use Rattle.std.specs.Prelude.{◌≡◌};
ghost use Rattle.firsts.specs.Lists.{any};
ghost use Rattle.station.specs.Alike.{same_action};
ghost use Rattle.station.specs.Numbers.{route_at};
ghost use Rattle.station.specs.Station.{station};
ghost use Rattle.station.specs.Paths.{uses, used, locks};
ghost use Rattle.station.specs.declared.tests.Action.TheVariants.{Take};

use lookups::{actions, route_count};
use station::{Action, Lock, Tables};

// Whether the route's request takes the lock. By a pattern, as in `tests_free`.
fn takes(tables: &Tables, r: usize, lock: Lock) -> bool
    ensures { result ≡ any (same_action (Take lock)) (route_at (station tables.now) r).actions }
{
    actions(tables, r)
        .iter()
        .any(|a| matches!(*a, Action::Take(l) if l == lock))
}

// Whether the route's path has the subroute.
pub fn uses(tables: &Tables, r: usize, u: usize) -> bool
    ensures { result ≡ uses (station tables.now) r u }
{
    takes(tables, r, Lock::Subroute(u))
}

// Whether the route's request locks the zone.
pub fn locks(tables: &Tables, r: usize, z: usize) -> bool
    ensures { result ≡ locks (station tables.now) r z }
{
    takes(tables, r, Lock::Zone(z))
}

// Whether some route's path has the subroute.
pub fn used(tables: &Tables, u: usize) -> bool
    ensures { result ≡ used (station tables.now) u }
{
    (0..route_count(tables)).any(|r| uses(tables, r, u))
}
