// What holds of every accepted station.
ghost use Rattle.station.specs.Station.{station};
ghost use Rattle.acceptance.specs.Consequences.{Consequences};
ghost use Rattle.acceptance.specs.Soundness.{Sound};

use crate::accepted::Accepted;

impl<'a> Accepted<'a> {
    // Does nothing: its contract is that the rules hold of an accepted station, and what follows from them.
    pub fn facts(&self)
        ensures rules { Sound (station self.now.tables.now) }
        ensures follows { Consequences (station self.now.tables.now) }
    {}
}
