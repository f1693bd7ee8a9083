// A route's path: the subroutes that its request locks, in written order.
ghost use Rattle.std.specs.Prelude.{◌≡◌, slice_get};
ghost use Rattle.station.specs.Station.{station};
ghost use Rattle.station.specs.Paths.{taken, path_of, path_length, on_path};

use lookups::actions;
use station::{Action, Lock, Tables};

// The subroute that an action locks.
fn taken(action: Action) -> Option<usize>
    ensures { result ≡ taken action }
{
    match action {
        Action::Take(Lock::Subroute(u)) => Some(u),
        _ => None,
    }
}

// How many subroutes a route's path has.
pub fn path_length(tables: &Tables, r: usize) -> usize
    ensures { result ≡ path_length (station tables.now) r }
{
    actions(tables, r).iter().filter_map(|a| taken(*a)).count()
}

// The k-th subroute that the actions lock.
fn subroute_at(actions: &[Action], k: usize) -> Option<usize>
    ensures { result ≡ slice_get (path_of actions.now) k }
{
    actions.iter().filter_map(|a| taken(*a)).nth(k)
}

// The k-th subroute of a route's path, or 0.
pub fn on_path(tables: &Tables, r: usize, k: usize) -> usize
    ensures { result ≡ on_path (station tables.now) r k }
{
    subroute_at(actions(tables, r), k).unwrap_or(0)
}
