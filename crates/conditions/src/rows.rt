// The first test of a row that fails, for every kind of row.
ghost use Rattle.std.specs.Prelude.{◌≡◌, not, position};
ghost use Rattle.conditions.specs.Firsts.{FirstFails, first_fails};
ghost use Rattle.conditions.specs.Views.{seen};
ghost use Rattle.firsts.specs.Lists.{all};
ghost use Rattle.track.specs.Meaning.{laid};

use crate::tests::Test;
use crate::view::View;
use track::Trackside;

impl<T: Trackside> View<'_, '_, T> {
    // The index of the first test that fails.
    fn broken<X: Test>(&self, tests: &[X]) -> Option<usize>
        ensures { result ≡ position (λ x. not (X.Test.holds x (laid self.now.station.now) (seen T.Trackside.meaning self.now))) tests.now }
    {
        tests.iter().position(|x| !x.test(self))
    }

    // The place of the first test that fails, from 1.
    #[tactic(auto, using(crate::proofs::Failing::first_failing))]
    pub fn first_failing<X: Test>(&self, tests: &[X]) -> Option<usize>
        ensures value { result ≡ first_fails (λ x. X.Test.holds x (laid self.now.station.now) (seen T.Trackside.meaning self.now)) tests.now }
        ensures first { FirstFails (λ x. X.Test.holds x (laid self.now.station.now) (seen T.Trackside.meaning self.now)) tests.now result }
    {
        self.broken(tests).map(|i| i + 1)
    }

    // Whether all tests hold.
    pub fn all_hold<X: Test>(&self, tests: &[X]) -> bool
        ensures { result ≡ all (λ x. X.Test.holds x (laid self.now.station.now) (seen T.Trackside.meaning self.now)) tests.now }
    {
        tests.iter().all(|x| x.test(self))
    }
}
