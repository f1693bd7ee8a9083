// The locks of a station and their release rows.
ghost use Rattle.std.specs.Prelude.{◌≡◌, length};
ghost use Rattle.passing.specs.Locks.{has_slots, is_declared, release_row};
ghost use Rattle.station.specs.Station.{station};

use lookups::{release_tests, route_count, subroute_count, way_count, zone_tests};
use states::{ROUTES, SUBROUTES, ZONES};
use station::{Lock, ReleaseTest, Tables};

// Two subroutes for each way.
const WAYS: usize = SUBROUTES / 2;

fn zone_count(tables: &Tables) -> usize
    ensures { result ≡ length (station tables.now).zones }
{
    tables.zones.len()
}

// Whether an interlocking has slots for every route, subroute and zone.
pub fn has_slots(tables: &Tables) -> bool
    ensures { result ≡ has_slots (station tables.now) }
{
    route_count(tables) <= ROUTES && way_count(tables) <= WAYS && zone_count(tables) <= ZONES
}

// Whether the subroute or zone is in its table.
pub fn is_declared(tables: &Tables, lock: Lock) -> bool
    ensures { result ≡ is_declared (station tables.now) lock }
{
    match lock {
        Lock::Zone(z) => z < zone_count(tables),
        Lock::Subroute(u) => u < subroute_count(tables),
    }
}

pub fn release_row(tables: &Tables, lock: Lock) -> &[ReleaseTest]
    ensures { result.now ≡ release_row (station tables.now) lock }
{
    match lock {
        Lock::Zone(z) => zone_tests(tables, z),
        Lock::Subroute(u) => release_tests(tables, u),
    }
}
