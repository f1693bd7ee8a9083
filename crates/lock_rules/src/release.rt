// Rule 25: the release row of a used subroute tests its segment, the routes that it starts, and the subroutes just before it.
ghost use Rattle.std.specs.Prelude.{◌≡◌, ◌==◌, cond, length, true};
ghost use Rattle.firsts.specs.Claims.{all_below};
ghost use Rattle.firsts.specs.Lists.{any};
ghost use Rattle.station.specs.Alike.{same_release};
ghost use Rattle.station.specs.Paths.{on_path, path_length};
ghost use Rattle.station.specs.Station.{station};
ghost use Rattle.station.specs.declared.tests.ReleaseTest.TheVariants.{Unset};
ghost use Rattle.lock_rules.specs.Release.{asks_before, asks_along, sound_release, kept_25, breach_25, Breach25};

use firsts::{Claim, first_breach};
use lookups::{release_tests, route_count, segment_of, subroute_count};
use paths::{on_path, path_length, used, uses};
use station::{ReleaseTest, Tables};

// A subroute, with the tests of its release row.
#[derive(Clone, Copy)]
struct Release<'a> {
    tables: &'a Tables,
    subroute: usize,
    tests: &'a [ReleaseTest],
}

impl<'a> Release<'a> {
    // Whether the tests ask for the route to be neither set nor active.
    fn asks_unset(&self, route: usize) -> bool
        ensures { result ≡ any (same_release (Unset route)) self.now.tests.now }
    {
        self.tests.contains(&ReleaseTest::Unset(route))
    }

    // Whether the tests ask for what stands before the k-th place of the route's path: at the first, the route itself.
    fn asks_before(&self, route: usize, k: usize) -> bool
        ensures { result ≡ asks_before (station self.now.tables.now) self.now.tests.now route k }
    {
        if 0 < k {
            self.tests
                .contains(&ReleaseTest::Free(on_path(self.tables, route, k - 1)))
        } else {
            self.asks_unset(route)
        }
    }

    // Whether they do at each place of the route's path that has the subroute.
    fn asks_at_each(&self, route: usize) -> bool
        ensures { result ≡ all_below (λ k. cond (on_path (station self.now.tables.now) route k == self.now.subroute) (asks_before (station self.now.tables.now) self.now.tests.now route k) true) (path_length (station self.now.tables.now) route) }
    {
        (0..path_length(self.tables, route)).all(|k| {
            on_path(self.tables, route, k) != self.subroute || self.asks_before(route, k)
        })
    }

    // Whether they do wherever the route's path has the subroute.
    fn asks_along(&self, route: usize) -> bool
        ensures { result ≡ asks_along (station self.now.tables.now) self.now.tests.now self.now.subroute route }
    {
        !uses(self.tables, route, self.subroute) || self.asks_at_each(route)
    }

    // Whether they do on the path of each route.
    fn asks_everywhere(&self) -> bool
        ensures { result ≡ all_below (asks_along (station self.now.tables.now) self.now.tests.now self.now.subroute) (length (station self.now.tables.now).routes) }
    {
        (0..route_count(self.tables)).all(|route| self.asks_along(route))
    }
}

// Whether the subroute's row tests all that it must.
fn sound_release(tables: &Tables, u: usize) -> bool
    ensures { result ≡ sound_release (station tables.now) u }
{
    let row = Release {
        tables,
        subroute: u,
        tests: release_tests(tables, u),
    };
    row.tests
        .contains(&ReleaseTest::Clear(segment_of(tables, u)))
        && row.asks_everywhere()
}

// Whether the subroute is used by no route or has a sound row.
fn kept(tables: &Tables, u: usize) -> bool
    ensures { result ≡ kept_25 (station tables.now) u }
{
    !used(tables, u) || sound_release(tables, u)
}

// That a subroute is used by no route or has a sound row.
#[derive(Clone, Copy)]
struct Releases<'a> {
    tables: &'a Tables,
}

impl<'a> Claim<usize> for Releases<'a> {
    ghost holds = { λ s u. kept_25 (station s.tables.now) u };

    fn holds(&self, u: usize) -> bool {
        kept(self.tables, u)
    }
}

// The first used subroute that may be released too early.
#[tactic(auto, using(crate::proofs::Told::first_25))]
pub fn rule_25(tables: &Tables) -> Option<usize>
    ensures value { result ≡ breach_25 (station tables.now) }
    ensures first { Breach25 (station tables.now) result }
{
    first_breach(&Releases { tables }, subroute_count(tables))
}
