// Rule 23: a request tests and sets its own route, drives each point once and under its test, and drives its path's points as its ways say.
ghost use Rattle.std.specs.Prelude.{◌≡◌};
ghost use Rattle.station.specs.Station.{station};
ghost use Rattle.route_rules.specs.Request.{path_driven, sound_request, breach_23, Breach23};

use crate::row::{drives_all, row_fits};
use firsts::{Claim, first_breach};
use lookups::{actions, request_tests, route_count, settings_of};
use paths::{on_path, path_length};
use station::Tables;

// Whether the route's request drives the points of its path as its ways say.
fn path_driven(tables: &Tables, route: usize) -> bool
    ensures { result ≡ path_driven (station tables.now) route }
{
    let actions = actions(tables, route);
    (0..path_length(tables, route)).all(|k| drives_all(
        actions,
        settings_of(tables, on_path(tables, route, k)),
    ))
}

fn is_sound(tables: &Tables, route: usize) -> bool
    ensures { result ≡ sound_request (station tables.now) route }
{
    row_fits(route, request_tests(tables, route), actions(tables, route))
        && path_driven(tables, route)
}

// That the request of a route keeps to itself and its points.
#[derive(Clone, Copy)]
struct Requests<'a> {
    tables: &'a Tables,
}

impl<'a> Claim<usize> for Requests<'a> {
    ghost holds = { λ s route. sound_request (station s.tables.now) route };

    fn holds(&self, route: usize) -> bool {
        is_sound(self.tables, route)
    }
}

// The first route whose request does not keep to itself and its points.
#[tactic(auto, using(crate::proofs::Told::first_23))]
pub fn rule_23(tables: &Tables) -> Option<usize>
    ensures value { result ≡ breach_23 (station tables.now) }
    ensures first { Breach23 (station tables.now) result }
{
    first_breach(&Requests { tables }, route_count(tables))
}
