// What an accepted station promises of ways over held points.
ghost use Rattle.holding.specs.Courses.{HeldWays};
ghost use Rattle.track.specs.Meaning.{laid};

use acceptance::Accepted;

// Does nothing: its contract is that no way fits over a held point, and elsewhere the way that fits is that of the track below.
pub fn held_ways(station: &Accepted<'_>)
    ensures { HeldWays (laid station.now) }
{
    station.facts();
}
