// What a track keeps, handed in and shown.
ghost use Rattle.std.specs.Prelude.{◌≡◌, false, MatchOption};
ghost use Rattle.waysides.specs.Waysides.{keeping, kept, may_keep};

use crate::kept::Wayside;
use crate::makes::MOST_POINTS;
use standing::TRAINS;
use track::{Aspect, Train};

impl<P: Drop> Wayside<P> {
    // A track that keeps these. None where there are more than 32 points, or not 16 trains.
    pub fn of_parts(points: Vec<P>, signals: Vec<Aspect>, trains: Vec<Train>) -> Option<Wayside<P>>
        ensures { MatchOption result (may_keep (keeping points.items signals.items trains.items) ≡ false) (λ t. kept t ≡ keeping points.items signals.items trains.items) }
    {
        if points.len() > MOST_POINTS || trains.len() != TRAINS {
            return None;
        }
        Some(Wayside {
            points,
            signals,
            trains,
        })
    }

    // How the points run. This and the next two each lend a field of their own.
    pub fn runs(&self) -> &[P]
        ensures { result.now ≡ (kept self.now).runs }
    {
        self.points.as_slice()
    }

    // What the signals show.
    pub fn aspects(&self) -> &[Aspect]
        ensures { result.now ≡ (kept self.now).signals }
    {
        self.signals.as_slice()
    }

    // The trains, present or not.
    pub fn trains(&self) -> &[Train]
        ensures { result.now ≡ (kept self.now).trains }
    {
        self.trains.as_slice()
    }
}
