// When a zone covers a subroute, and which rows keep a subroute free.
ghost use Rattle.std.specs.Prelude.{◌≡◌};
ghost use Rattle.firsts.specs.Lists.{any};
ghost use Rattle.station.specs.Alike.{same_release};
ghost use Rattle.station.specs.Station.{station};
ghost use Rattle.station.specs.Covers.{covers, guards, users_lock, request_guards, point_guards};
ghost use Rattle.station.specs.declared.tests.ReleaseTest.TheVariants.{Free};

use crate::users::{locks, uses};
use lookups::{route_count, zone_tests};
use station::{Lock, PointTest, ReleaseTest, RequestTest, Tables};

// Whether every route that uses the subroute locks the zone.
fn users_lock(tables: &Tables, zone: usize, subroute: usize) -> bool
    ensures { result ≡ users_lock (station tables.now) zone subroute }
{
    (0..route_count(tables)).all(|r| !uses(tables, r, subroute) || locks(tables, r, zone))
}

// Whether the tests ask for the subroute free. By a pattern and no `contains`, whose test of equality by reference costs more.
fn tests_free(tests: &[ReleaseTest], subroute: usize) -> bool
    ensures { result ≡ any (same_release (Free subroute)) tests.now }
{
    tests
        .iter()
        .any(|t| matches!(*t, ReleaseTest::Free(u) if u == subroute))
}

// Whether the zone's row tests the subroute free, and every route that uses it locks the zone.
pub fn covers(tables: &Tables, zone: usize, subroute: usize) -> bool
    ensures { result ≡ covers (station tables.now) zone subroute }
{
    tests_free(zone_tests(tables, zone), subroute) && users_lock(tables, zone, subroute)
}

// Whether the lock is the subroute's own, or a zone that covers it.
fn guards(tables: &Tables, subroute: usize, lock: Lock) -> bool
    ensures { result ≡ guards (station tables.now) subroute lock }
{
    match lock {
        Lock::Zone(z) => covers(tables, z, subroute),
        Lock::Subroute(v) => v == subroute,
    }
}

// Whether the row of a request tests the subroute free, or a zone that covers it.
pub fn request_guards(tables: &Tables, tests: &[RequestTest], subroute: usize) -> bool
    ensures { result ≡ request_guards (station tables.now) tests.now subroute }
{
    tests.iter().any(|t| matches!(*t, RequestTest::Free(lock) if guards(tables, subroute, lock)))
}

// Whether the row of a point tests the subroute free, or a zone that covers it.
pub fn point_guards(tables: &Tables, tests: &[PointTest], subroute: usize) -> bool
    ensures { result ≡ point_guards (station tables.now) tests.now subroute }
{
    tests.iter().any(|t| guards(tables, subroute, t.free))
}
