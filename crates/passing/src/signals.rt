// The signals of routes, and the routes that a passing ends.
ghost use Rattle.std.specs.Prelude.{◌≡◌, length};
ghost use Rattle.passing.specs.Signals.{from_signal, is_active_from, lowest_from, note_from, passed_route, passed_routes, signal_of};
ghost use Rattle.station.specs.Station.{station};

use lookups::{route_count, segment_of, start};
use paths::on_path;
use standing::governor;
use states::{Event, Note, RouteState, States};
use station::Tables;

// The signal at which a route's path starts.
pub fn signal_of(tables: &Tables, route: usize) -> Option<usize>
    ensures { result ≡ signal_of (station tables.now) route }
{
    let u = on_path(tables, route, 0);
    governor(tables, start(tables, u), segment_of(tables, u))
}

fn from_signal(tables: &Tables, signal: usize, route: usize) -> bool
    ensures { result ≡ from_signal (station tables.now) signal route }
{
    signal_of(tables, route) == Some(signal)
}

// Whether the route is active and from the signal.
fn is_active_from(tables: &Tables, states: &States, signal: usize, route: usize) -> bool
    ensures { result ≡ is_active_from (station tables.now) signal states.now route }
{
    from_signal(tables, signal, route) && states.route(route) == RouteState::Active
}

// The lowest active route from a signal.
pub fn lowest_from(tables: &Tables, states: &States, signal: usize) -> Option<usize>
    ensures { result ≡ lowest_from (station tables.now) signal states.now }
{
    (0..route_count(tables)).find(|r| is_active_from(tables, states, signal, *r))
}

// What is noted of a train that passes the signal.
pub fn note_from(tables: &Tables, states: &States, signal: usize) -> Option<Note>
    ensures { result ≡ note_from (station tables.now) signal states.now }
{
    lowest_from(tables, states, signal).map(|route| Note { route, place: 0 })
}

fn pass_route(tables: &Tables, states: &mut States, signal: usize, route: usize)
    ensures { states.new ≡ passed_route (station tables.now) signal route states.old }
{
    if from_signal(tables, signal, route) {
        states.move_route(route, Event::Passing);
    }
}

// Every active route from the signal becomes unset.
#[tactic(auto, unfolding(crate::specs::Signals::passed_routes))]
pub fn pass_routes(tables: &Tables, states: &mut States, signal: usize)
    ensures { states.new ≡ passed_routes (station tables.now) signal states.old (length (station tables.now).routes) }
{
    // a loop, since of what a closure changes a chain promises nothing
    for r in 0..route_count(tables) {
        pass_route(tables, states, signal, r);
    }
}
