// The things of the tables by number: none past the end of a table.
// Each function is one call of the library's generic `get`; a trait over the tables would need more lines than it saves.
ghost use Rattle.std.specs.Prelude.{◌≡◌, None, MatchOption, slice_index_or};
ghost use Rattle.std.specs.Option.{option_map};
ghost use Rattle.station.specs.Station.{station, joint_entry, point_entry, way_entry, route_entry, zone_entry};
ghost use Rattle.station.specs.Numbers.{joint_at, point_at, way_at, route_at, zone_at, no_joint, no_point, no_way, no_route, no_zone};

use station::{Joint, Point, ReleaseTest, Route, Tables, Way, Zone};

pub fn joint(tables: &Tables, n: usize) -> Option<&Joint>
    ensures { MatchOption result (joint_at (station tables.now) n ≡ no_joint) (λ x. joint_at (station tables.now) n ≡ joint_entry x.now) }
{
    tables.joints.get(n)
}

pub fn point(tables: &Tables, n: usize) -> Option<&Point>
    ensures { MatchOption result (point_at (station tables.now) n ≡ no_point) (λ x. point_at (station tables.now) n ≡ point_entry x.now) }
{
    tables.points.get(n)
}

pub fn way(tables: &Tables, n: usize) -> Option<&Way>
    ensures { MatchOption result (way_at (station tables.now) n ≡ no_way) (λ x. way_at (station tables.now) n ≡ way_entry x.now) }
{
    tables.ways.get(n)
}

pub fn route(tables: &Tables, n: usize) -> Option<&Route>
    ensures { MatchOption result (route_at (station tables.now) n ≡ no_route) (λ x. route_at (station tables.now) n ≡ route_entry x.now) }
{
    tables.routes.get(n)
}

pub fn zone(tables: &Tables, n: usize) -> Option<&Zone>
    ensures { MatchOption result (zone_at (station tables.now) n ≡ no_zone) (λ x. zone_at (station tables.now) n ≡ zone_entry x.now) }
{
    tables.zones.get(n)
}

// The place of a subroute's release row.
pub(crate) fn release(tables: &Tables, n: usize) -> Option<&Option<Vec<ReleaseTest>>>
    ensures { MatchOption result (slice_index_or (station tables.now).releases n None ≡ None) (λ x. slice_index_or (station tables.now).releases n None ≡ option_map (λ v. v.items) x.now) }
{
    tables.releases.get(n)
}
