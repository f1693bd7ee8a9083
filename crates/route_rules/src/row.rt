// The row of a request by itself.
ghost use Rattle.std.specs.Prelude.{◌≡◌, not};
ghost use Rattle.firsts.specs.Claims.{all_below};
ghost use Rattle.firsts.specs.Lists.{all};
ghost use Rattle.route_rules.specs.Request.{action_at, drives, fits, first_drive, driven_once, drives_all, row_fits};

use station::{Action, RequestTest, Setting};

// The i-th action; where there is none, one that drives and locks nothing.
fn action_at(actions: &[Action], i: usize) -> Action
    ensures { result ≡ action_at actions.now i }
{
    actions.get(i).copied().unwrap_or(Action::Set(0))
}

// Whether the action drives the point, to either side.
fn drives(action: Action, point: usize) -> bool
    ensures { result ≡ drives action point }
{
    matches!(action, Action::Drive(p, _) if p == point)
}

// Whether no action before the k-th drives the point.
fn spared(actions: &[Action], k: usize, point: usize) -> bool
    ensures { result ≡ all_below (λ i. not (drives (action_at actions.now i) point)) k }
{
    (0..k).all(|i| !drives(action_at(actions, i), point))
}

// Whether no action before the k-th drives the point that the action drives.
fn first_drive(actions: &[Action], k: usize, action: Action) -> bool
    ensures { result ≡ first_drive actions.now k action }
{
    match action {
        Action::Drive(point, _) => spared(actions, k, point),
        Action::Set(_) | Action::Take(_) => true,
    }
}

// Whether no point is driven twice.
fn driven_once(actions: &[Action]) -> bool
    ensures { result ≡ driven_once actions.now }
{
    (0..actions.len()).all(|k| first_drive(actions, k, action_at(actions, k)))
}

// Whether the action sets the route, or drives a point under its test, or takes a lock.
fn fits(route: usize, tests: &[RequestTest], action: Action) -> bool
    ensures { result ≡ fits route tests.now action }
{
    match action {
        Action::Set(r) => r == route,
        Action::Drive(p, x) => tests.contains(&RequestTest::Movable(p, x)),
        Action::Take(_) => true,
    }
}

fn all_fit(route: usize, tests: &[RequestTest], actions: &[Action]) -> bool
    ensures { result ≡ all (fits route tests.now) actions.now }
{
    actions.iter().all(|a| fits(route, tests, *a))
}

// Whether the row tests its route's `xs`, sets just its route, and drives no point twice or without its test.
pub(crate) fn row_fits(route: usize, tests: &[RequestTest], actions: &[Action]) -> bool
    ensures { result ≡ row_fits route tests.now actions.now }
{
    tests.contains(&RequestTest::Unset(route))
        && actions.contains(&Action::Set(route))
        && all_fit(route, tests, actions)
        && driven_once(actions)
}

// Whether the actions drive every setting.
pub(crate) fn drives_all(actions: &[Action], settings: &[Setting]) -> bool
    ensures { result ≡ drives_all actions.now settings.now }
{
    settings
        .iter()
        .all(|x| actions.contains(&Action::Drive(x.point, x.position)))
}
