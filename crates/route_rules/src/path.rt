// Rule 21: a route's path has a subroute, each runs a way and is joined to the one before it, and no segment comes twice.
ghost use Rattle.std.specs.Prelude.{◌≡◌};
ghost use Rattle.firsts.specs.Claims.{all_below};
ghost use Rattle.station.specs.Station.{station};
ghost use Rattle.station.specs.Paths.{path_length};
ghost use Rattle.route_rules.specs.Path.{joined_at, fresh_at, sound_at, sound_path, breach_21, Breach21};

use firsts::{Claim, first_breach};
use lookups::{end, route_count, segment_of, start, subroute_count};
use paths::{on_path, path_length};
use station::Tables;

// Whether the k-th subroute of a path starts where the one before it ends. A struct for a route and a place would be made only to be taken apart.
fn joined_at(tables: &Tables, route: usize, k: usize) -> bool
    ensures { result ≡ joined_at (station tables.now) route k }
{
    if 0 < k {
        end(tables, on_path(tables, route, k - 1)) == start(tables, on_path(tables, route, k))
    } else {
        true
    }
}

// Whether the segment of the k-th subroute did not come before.
fn fresh_at(tables: &Tables, route: usize, k: usize) -> bool
    ensures { result ≡ fresh_at (station tables.now) route k }
{
    let segment = segment_of(tables, on_path(tables, route, k));
    (0..k).all(|i| segment_of(tables, on_path(tables, route, i)) != segment)
}

fn sound_at(tables: &Tables, route: usize, k: usize) -> bool
    ensures { result ≡ sound_at (station tables.now) route k }
{
    on_path(tables, route, k) < subroute_count(tables)
        && joined_at(tables, route, k)
        && fresh_at(tables, route, k)
}

fn sound_everywhere(tables: &Tables, route: usize) -> bool
    ensures { result ≡ all_below (sound_at (station tables.now) route) (path_length (station tables.now) route) }
{
    (0..path_length(tables, route)).all(|k| sound_at(tables, route, k))
}

fn is_sound(tables: &Tables, route: usize) -> bool
    ensures { result ≡ sound_path (station tables.now) route }
{
    0 < path_length(tables, route) && sound_everywhere(tables, route)
}

// That the path of a route is sound.
#[derive(Clone, Copy)]
struct Paths<'a> {
    tables: &'a Tables,
}

impl<'a> Claim<usize> for Paths<'a> {
    ghost holds = { λ s route. sound_path (station s.tables.now) route };

    fn holds(&self, route: usize) -> bool {
        is_sound(self.tables, route)
    }
}

// The first route whose path is empty or broken, or comes into a segment twice.
#[tactic(auto, using(crate::proofs::Told::first_21))]
pub fn rule_21(tables: &Tables) -> Option<usize>
    ensures value { result ≡ breach_21 (station tables.now) }
    ensures first { Breach21 (station tables.now) result }
{
    first_breach(&Paths { tables }, route_count(tables))
}
