// Pairs into tests, actions and settings, with names as numbers.
ghost use Rattle.std.specs.Prelude.{◌≡◌, map, filter_map, IfOk, Option as Maybe};
ghost use Rattle.forms.specs.Things.{Spot, placed};
ghost use Rattle.rows.specs.Rows.{Pair as Written, placed_pair};
ghost use Rattle.naming.specs.Index.{Index as Numbers, indexed};
ghost use Rattle.reading.specs.Resolve.{side_of, lock_of, setting_of, request_test_of, action_of, activation_test_of, point_test_of, release_test_of};

use crate::entries::Source;
use forms::{State, Thing};
use naming::Index;
use rows::Pair;
use station::{
    Action, ActivationTest, Lock, PointTest, Position, ReleaseTest, RequestTest, Setting,
};
use std::alloc::AllocError;

// What a pair of a list means. A list takes each thing in its own states only, so the thing tells the
// test, and the state no more than the side.
pub trait Resolve: Sized {
    ghost meant: { Numbers → Written Spot → Maybe Self };

    fn resolve<'a>(index: &Index<'a>, pair: Pair<'a>) -> Option<Self>
        ensures { result ≡ meant (indexed index.now) (placed_pair pair.entry) };
}

// Not a conversion of states: most of them have no position, and of these the answer means nothing.
fn side(state: State) -> Position
    ensures { result ≡ side_of state }
{
    match state {
        State::Cfr | State::Cr | State::R => Position::Reverse,
        _ => Position::Normal,
    }
}

// The lock of a zone or of a subroute.
fn lock<'a>(index: &Index<'a>, thing: Thing<'a>) -> Option<Lock>
    ensures { result ≡ lock_of (indexed index.now) (placed thing.entry) }
{
    match thing {
        Thing::Zone(x) => Some(Lock::Zone(index.zones.number(x))),
        Thing::Subroute(a, b) => Some(Lock::Subroute(index.subroute(a, b))),
        _ => None,
    }
}

impl Resolve for Setting {
    ghost meant = { setting_of };

    fn resolve<'a>(index: &Index<'a>, pair: Pair<'a>) -> Option<Setting> {
        match pair.thing {
            Thing::Point(x) => Some(Setting {
                point: index.points.number(x),
                position: side(pair.state),
            }),
            _ => None,
        }
    }
}

impl Resolve for RequestTest {
    ghost meant = { request_test_of };

    fn resolve<'a>(index: &Index<'a>, pair: Pair<'a>) -> Option<RequestTest> {
        match pair.thing {
            Thing::Route(x) => Some(RequestTest::Unset(index.routes.number(x))),
            Thing::Point(x) => Some(RequestTest::Movable(index.points.number(x), side(pair.state))),
            thing => lock(index, thing).map(RequestTest::Free),
        }
    }
}

impl Resolve for Action {
    ghost meant = { action_of };

    fn resolve<'a>(index: &Index<'a>, pair: Pair<'a>) -> Option<Action> {
        match pair.thing {
            Thing::Route(x) => Some(Action::Set(index.routes.number(x))),
            Thing::Point(x) => Some(Action::Drive(index.points.number(x), side(pair.state))),
            thing => lock(index, thing).map(Action::Take),
        }
    }
}

impl Resolve for ActivationTest {
    ghost meant = { activation_test_of };

    fn resolve<'a>(index: &Index<'a>, pair: Pair<'a>) -> Option<ActivationTest> {
        match pair.thing {
            Thing::Point(x) => Some(ActivationTest::Lies(index.points.number(x), side(pair.state))),
            Thing::Segment(x) => Some(ActivationTest::Clear(index.segments.number(x))),
            _ => None,
        }
    }
}

impl Resolve for PointTest {
    ghost meant = { point_test_of };

    fn resolve<'a>(index: &Index<'a>, pair: Pair<'a>) -> Option<PointTest> {
        lock(index, pair.thing).map(|free| PointTest { free })
    }
}

impl Resolve for ReleaseTest {
    ghost meant = { release_test_of };

    fn resolve<'a>(index: &Index<'a>, pair: Pair<'a>) -> Option<ReleaseTest> {
        match pair.thing {
            Thing::Route(x) => Some(ReleaseTest::Unset(index.routes.number(x))),
            Thing::Subroute(a, b) => Some(ReleaseTest::Free(index.subroute(a, b))),
            Thing::Segment(x) => Some(ReleaseTest::Clear(index.segments.number(x))),
            _ => None,
        }
    }
}

impl<'r, 'a> Source<'r, 'a> {
    // All that a list of pairs means, in order.
    pub fn resolve_all<T: Resolve + Drop>(&self, pairs: &[Pair<'a>]) -> Result<Vec<T>, AllocError>
        ensures { IfOk result (λ v. v.items ≡ filter_map (T.Resolve.meant (indexed self.now.index.now)) (map placed_pair pairs.now)) }
    {
        pairs
            .iter()
            .filter_map(|p| T::resolve(self.index, *p))
            .collect(self.heap)
    }
}
