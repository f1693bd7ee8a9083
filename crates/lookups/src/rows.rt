// The rows of the tables by number: empty past the end of a table. Each names its own field, which no type parameter can.
ghost use Rattle.std.specs.Prelude.{◌≡◌};
ghost use Rattle.station.specs.Station.{station};
ghost use Rattle.station.specs.Numbers.{point_at, route_at, zone_at, release_at};

use crate::numbers::{point, release, route, zone};
use station::{Action, ActivationTest, PointTest, ReleaseTest, RequestTest, Tables};

pub fn request_tests(tables: &Tables, n: usize) -> &[RequestTest]
    ensures { result.now ≡ (route_at (station tables.now) n).tests }
{
    route(tables, n).map_or(&[], |x| x.tests.as_slice())
}

pub fn actions(tables: &Tables, n: usize) -> &[Action]
    ensures { result.now ≡ (route_at (station tables.now) n).actions }
{
    route(tables, n).map_or(&[], |x| x.actions.as_slice())
}

pub fn activation_tests(tables: &Tables, n: usize) -> &[ActivationTest]
    ensures { result.now ≡ (route_at (station tables.now) n).activation }
{
    route(tables, n).map_or(&[], |x| x.activation.as_slice())
}

pub fn normal_tests(tables: &Tables, n: usize) -> &[PointTest]
    ensures { result.now ≡ (point_at (station tables.now) n).normal }
{
    point(tables, n).map_or(&[], |x| x.normal.as_slice())
}

pub fn reverse_tests(tables: &Tables, n: usize) -> &[PointTest]
    ensures { result.now ≡ (point_at (station tables.now) n).reverse }
{
    point(tables, n).map_or(&[], |x| x.reverse.as_slice())
}

pub fn zone_tests(tables: &Tables, n: usize) -> &[ReleaseTest]
    ensures { result.now ≡ (zone_at (station tables.now) n).tests }
{
    zone(tables, n).map_or(&[], |x| x.tests.as_slice())
}

// The release row of a subroute; one that is lacking is empty.
pub fn release_tests(tables: &Tables, u: usize) -> &[ReleaseTest]
    ensures { result.now ≡ release_at (station tables.now) u }
{
    match release(tables, u) {
        Some(Some(row)) => row.as_slice(),
        _ => &[],
    }
}

// The home segment of a point.
pub fn home(tables: &Tables, p: usize) -> usize
    ensures { result ≡ (point_at (station tables.now) p).home }
{
    point(tables, p).map_or(0, |x| x.home)
}
