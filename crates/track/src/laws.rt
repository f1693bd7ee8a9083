// What an accepted station promises of ways.
ghost use Rattle.track.specs.Meaning.{laid};
ghost use Rattle.track.specs.Ways.{WaysLeadOut, OneFits};

use acceptance::Accepted;

// Does nothing: its contract is that at most one way fits a train, however the points lie, and that a train leaves by it.
pub fn one_way_fits(station: &Accepted<'_>)
    ensures one { OneFits (laid station.now) }
    ensures out { WaysLeadOut (laid station.now) }
{
    station.facts();
}
