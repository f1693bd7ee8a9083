// The tests of the four kinds of row.
ghost use Rattle.std.specs.Prelude.{◌≡◌};
ghost use Rattle.conditions.specs.Tests.{activation_holds, movable, point_holds, release_holds, request_holds, row_for};
ghost use Rattle.conditions.specs.Views.{seen};
ghost use Rattle.station.specs.Station.{station};
ghost use Rattle.track.specs.Meaning.{laid};
ghost use Rattle.std.proofs.Common.{rules};
ghost use Rattle.station.specs.declared.tests.RequestTest.TheVariants.{Unset, Movable, Free};
ghost use Rattle.station.specs.declared.tests.ActivationTest.TheVariants.{Lies, Clear};
ghost use Rattle.station.specs.declared.tests.ReleaseTest.TheVariants as release;
ghost use Rattle.station.specs.declared.tests.Lock.TheVariants.{Subroute};
ghost use Rattle.conditions.specs.Weakening.{clear_weaker, free_weaker, lies_weaker, movable_weaker};

use crate::tests::Test;
use crate::view::View;
use lookups::{normal_tests, reverse_tests};
use station::{ActivationTest, Lock, PointTest, Position, ReleaseTest, RequestTest, Tables};
use track::Trackside;

impl Test for PointTest {
    ghost holds = { point_holds };

    ghost weaker = { Prim.search rules };

    fn test<T: Trackside>(&self, view: &View<'_, '_, T>) -> bool {
        view.is_free(self.free)
    }
}

// The row of a point for a position.
fn row_for(tables: &Tables, point: usize, position: Position) -> &[PointTest]
    ensures { result.now ≡ row_for (station tables.now) point position }
{
    match position {
        Position::Normal => normal_tests(tables, point),
        Position::Reverse => reverse_tests(tables, point),
    }
}

impl<T: Trackside> View<'_, '_, T> {
    // Whether the point's target is so already, or its row for that position holds.
    fn movable(&self, point: usize, position: Position) -> bool
        ensures { result ≡ movable (laid self.now.station.now) (seen T.Trackside.meaning self.now) point position }
    {
        self.point(point).target == position
            || self.all_hold(row_for(self.station.tables(), point, position))
    }
}

impl Test for RequestTest {
    ghost holds = { request_holds };

    ghost weaker = { elim [
      | Unset r ↦ λ s v w more e. more.routes r e
      | Movable p x ↦ λ s v w more e. movable_weaker s v w more p x e
      | Free l ↦ λ s v w more e. free_weaker s v w more l e
    ] };

    fn test<T: Trackside>(&self, view: &View<'_, '_, T>) -> bool {
        match self {
            RequestTest::Unset(r) => view.is_unset(*r),
            RequestTest::Movable(p, x) => view.movable(*p, *x),
            RequestTest::Free(l) => view.is_free(*l),
        }
    }
}

impl Test for ActivationTest {
    ghost holds = { activation_holds };

    ghost weaker = { elim [
      | Lies p x ↦ λ s v w more e. lies_weaker s v w more p x e
      | Clear t ↦ λ s v w more e. clear_weaker s v w more t e
    ] };

    fn test<T: Trackside>(&self, view: &View<'_, '_, T>) -> bool {
        match self {
            ActivationTest::Lies(p, x) => view.lies(*p, *x),
            ActivationTest::Clear(t) => view.is_clear(*t),
        }
    }
}

impl Test for ReleaseTest {
    ghost holds = { release_holds };

    ghost weaker = { elim [
      | release.Unset r ↦ λ s v w more e. more.routes r e
      | release.Free u ↦ λ s v w more e. free_weaker s v w more (Subroute u) e
      | release.Clear t ↦ λ s v w more e. clear_weaker s v w more t e
    ] };

    fn test<T: Trackside>(&self, view: &View<'_, '_, T>) -> bool {
        match self {
            ReleaseTest::Unset(r) => view.is_unset(*r),
            ReleaseTest::Free(u) => view.is_free(Lock::Subroute(*u)),
            ReleaseTest::Clear(t) => view.is_clear(*t),
        }
    }
}
