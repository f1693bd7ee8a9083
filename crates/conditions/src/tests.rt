// What a test of a row is.
ghost use Rattle.std.specs.Prelude.{◌≡◌, Bool, true};
ghost use Rattle.conditions.specs.States.{State};
ghost use Rattle.conditions.specs.Views.{seen};
ghost use Rattle.conditions.specs.Weaker.{More};
ghost use Rattle.station.specs.Station.{Station};
ghost use Rattle.track.specs.Meaning.{laid};

use crate::view::View;
use track::Trackside;

pub trait Test {
    ghost holds: { Self → Station → State → Bool };

    // Whether the test holds.
    fn test<T: Trackside>(&self, view: &View<'_, '_, T>) -> bool
        ensures { result ≡ holds self.now (laid view.now.station.now) (seen T.Trackside.meaning view.now) };

    // More locks, set routes or occupied segments never make a failing test hold.
    ghost weaker: { (x : Self) (s : Station) (v w : State) → More v w → holds x s w ≡ true → holds x s v ≡ true };
}
