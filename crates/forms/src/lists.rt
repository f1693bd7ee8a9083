// The lists of pairs that rows have, and what may stand in each.
ghost use Rattle.std.specs.Prelude.{◌≡◌};
ghost use Rattle.forms.specs.Lists.{choice, most};
ghost use Rattle.forms.specs.Things.{placed};

use crate::states::State;
use crate::things::Thing;

#[derive(Clone, Copy)]
pub enum Listing {
    Settings,
    RequestTests,
    Actions,
    ActivationTests,
    PointTests,
    ReleaseTests,
}

impl Listing {
    // The states that a thing can have in this list: none where it may not stand there.
    pub fn choice(self, thing: Thing) -> &'static [State]
        ensures { result.now ≡ choice self (placed thing.entry) }
    {
        match (self, thing) {
            (Listing::Settings, Thing::Point(_)) => &[State::N, State::R],
            (Listing::RequestTests, Thing::Route(_)) => &[State::Xs],
            (Listing::RequestTests, Thing::Point(_)) => &[State::Cfn, State::Cfr],
            (Listing::RequestTests, Thing::Zone(_) | Thing::Subroute(_, _)) => &[State::F],
            (Listing::Actions, Thing::Route(_)) => &[State::S],
            (Listing::Actions, Thing::Point(_)) => &[State::Cn, State::Cr],
            (Listing::Actions, Thing::Zone(_) | Thing::Subroute(_, _)) => &[State::L],
            (Listing::ActivationTests, Thing::Point(_)) => &[State::N, State::R],
            (Listing::ActivationTests, Thing::Segment(_)) => &[State::C],
            (Listing::PointTests, Thing::Zone(_) | Thing::Subroute(_, _)) => &[State::F],
            (Listing::ReleaseTests, Thing::Route(_)) => &[State::Xs],
            (Listing::ReleaseTests, Thing::Subroute(_, _)) => &[State::F],
            (Listing::ReleaseTests, Thing::Segment(_)) => &[State::C],
            _ => &[],
        }
    }

    // How many pairs it may have.
    pub fn most(self) -> usize
        ensures { result ≡ most self }
    {
        match self {
            Listing::Settings => 4,
            Listing::Actions => 32,
            Listing::RequestTests
            | Listing::ActivationTests
            | Listing::PointTests
            | Listing::ReleaseTests => 24,
        }
    }
}
