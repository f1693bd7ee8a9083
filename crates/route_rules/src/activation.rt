// Rule 24: an activation tests each point of its route's path as its way says, and each segment clear.
ghost use Rattle.std.specs.Prelude.{◌≡◌};
ghost use Rattle.firsts.specs.Lists.{all, any};
ghost use Rattle.station.specs.Station.{station};
ghost use Rattle.station.specs.Alike.{same_activation};
ghost use Rattle.station.specs.declared.tests.ActivationTest.TheVariants.{Lies};
ghost use Rattle.route_rules.specs.Activation.{asks, sound_activation, breach_24, Breach24};

use firsts::{Claim, first_breach};
use lookups::{activation_tests, route_count, segment_of, settings_of};
use paths::{on_path, path_length};
use station::{ActivationTest, Setting, Tables};

// Whether the tests ask for each point as its setting says.
fn asks_points(tests: &[ActivationTest], settings: &[Setting]) -> bool
    ensures { result ≡ all (λ x. any (same_activation (Lies x.point x.position)) tests.now) settings.now }
{
    settings.iter().all(|x| tests.contains(&ActivationTest::Lies(x.point, x.position)))
}

// Whether the tests ask for the subroute's segment clear, and its points as its way says.
fn asks(tables: &Tables, tests: &[ActivationTest], u: usize) -> bool
    ensures { result ≡ asks (station tables.now) tests.now u }
{
    tests.contains(&ActivationTest::Clear(segment_of(tables, u)))
        && asks_points(tests, settings_of(tables, u))
}

// Whether the route's activation asks for every subroute of its path.
fn is_sound(tables: &Tables, route: usize) -> bool
    ensures { result ≡ sound_activation (station tables.now) route }
{
    let tests = activation_tests(tables, route);
    (0..path_length(tables, route)).all(|k| asks(tables, tests, on_path(tables, route, k)))
}

// That the activation of a route asks for every subroute of its path.
#[derive(Clone, Copy)]
struct Activations<'a> {
    tables: &'a Tables,
}

impl<'a> Claim<usize> for Activations<'a> {
    ghost holds = { λ s route. sound_activation (station s.tables.now) route };

    fn holds(&self, route: usize) -> bool {
        is_sound(self.tables, route)
    }
}

// The first route whose activation leaves a point or a segment of its path untested.
#[tactic(auto, using(crate::proofs::Told::first_24))]
pub fn rule_24(tables: &Tables) -> Option<usize>
    ensures value { result ≡ breach_24 (station tables.now) }
    ensures first { Breach24 (station tables.now) result }
{
    first_breach(&Activations { tables }, route_count(tables))
}
