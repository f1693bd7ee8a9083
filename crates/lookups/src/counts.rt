// How many things the tables have: each is one call of the library's generic `len` on a field of its own, which no type parameter names.
ghost use Rattle.std.specs.Prelude.{◌≡◌, length};
ghost use Rattle.station.specs.Station.{station};
ghost use Rattle.station.specs.Subroutes.{subroutes};

use station::Tables;

pub fn joint_count(tables: &Tables) -> usize
    ensures { result ≡ length (station tables.now).joints }
{
    tables.joints.len()
}

pub fn point_count(tables: &Tables) -> usize
    ensures { result ≡ length (station tables.now).points }
{
    tables.points.len()
}

pub fn way_count(tables: &Tables) -> usize
    ensures { result ≡ length (station tables.now).ways }
{
    tables.ways.len()
}

pub fn signal_count(tables: &Tables) -> usize
    ensures { result ≡ length (station tables.now).signals }
{
    tables.signals.len()
}

pub fn route_count(tables: &Tables) -> usize
    ensures { result ≡ length (station tables.now).routes }
{
    tables.routes.len()
}

// Two subroutes for each way.
pub fn subroute_count(tables: &Tables) -> usize
    ensures { result ≡ subroutes (station tables.now) }
{
    2 * tables.ways.len()
}
