// Rule 22: a signal at a route's start, none at an inner joint along its path, and at its end one onward, or the outside or a buffer stop.
ghost use Rattle.std.specs.Prelude.{◌≡◌};
ghost use Rattle.firsts.specs.Claims.{all_below};
ghost use Rattle.station.specs.Station.{station};
ghost use Rattle.station.specs.Paths.{path_length};
ghost use Rattle.route_rules.specs.Signals.{into, leads_on, last_of, unsignalled_at, sound_signals, breach_22, Breach22};

use firsts::{Claim, first_breach};
use lookups::{across, end, route_count, segment_of, signalled, start};
use paths::{on_path, path_length};
use station::{Beyond, Tables};

// Whether a signal governs the way into the subroute.
fn into(tables: &Tables, u: usize) -> bool
    ensures { result ≡ into (station tables.now) u }
{
    signalled(tables, start(tables, u), segment_of(tables, u))
}

// Whether what lies past the subroute is signalled or is no segment.
fn leads_on(tables: &Tables, u: usize) -> bool
    ensures { result ≡ leads_on (station tables.now) u }
{
    let joint = end(tables, u);
    match across(tables, joint, segment_of(tables, u)) {
        Beyond::Segment(t) => signalled(tables, joint, t),
        Beyond::Outside | Beyond::BufferStop => true,
    }
}

// The last subroute of a route's path, or 0.
fn last_of(tables: &Tables, route: usize) -> usize
    ensures { result ≡ last_of (station tables.now) route }
{
    on_path(tables, route, path_length(tables, route).saturating_sub(1))
}

// Whether the k-th joint of a path is its first or has no signal along the path.
fn unsignalled_at(tables: &Tables, route: usize, k: usize) -> bool
    ensures { result ≡ unsignalled_at (station tables.now) route k }
{
    if 0 < k {
        !into(tables, on_path(tables, route, k))
    } else {
        true
    }
}

fn unsignalled_inside(tables: &Tables, route: usize) -> bool
    ensures { result ≡ all_below (unsignalled_at (station tables.now) route) (path_length (station tables.now) route) }
{
    (0..path_length(tables, route)).all(|k| unsignalled_at(tables, route, k))
}

fn is_sound(tables: &Tables, route: usize) -> bool
    ensures { result ≡ sound_signals (station tables.now) route }
{
    into(tables, on_path(tables, route, 0))
        && unsignalled_inside(tables, route)
        && leads_on(tables, last_of(tables, route))
}

// That a route is signalled as its path runs.
#[derive(Clone, Copy)]
struct Signals<'a> {
    tables: &'a Tables,
}

impl<'a> Claim<usize> for Signals<'a> {
    ghost holds = { λ s route. sound_signals (station s.tables.now) route };

    fn holds(&self, route: usize) -> bool {
        is_sound(self.tables, route)
    }
}

// The first route without a signal at its start, with one along its path, or without one at its end.
#[tactic(auto, using(crate::proofs::Told::first_22))]
pub fn rule_22(tables: &Tables) -> Option<usize>
    ensures value { result ≡ breach_22 (station tables.now) }
    ensures first { Breach22 (station tables.now) result }
{
    first_breach(&Signals { tables }, route_count(tables))
}
