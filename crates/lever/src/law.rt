// What the calls of every track that keeps its state come to at a lever track.
ghost use Rattle.std.specs.Prelude.{◌≡◌, ℕ, true};
ghost use Rattle.lever.specs.Levers.{Lever as Levers, of_lever};
ghost use Rattle.lever.specs.declared.points.LeverPoint.{LeverPoint};
ghost use Rattle.station.specs.declared.tests.Position.{Position};
ghost use Rattle.track.specs.Calls.{driven};
ghost use Rattle.track.specs.Meaning.{Meaning};
ghost use Rattle.waysides.specs.Waysides.{of_wayside};

use crate::points::LeverPoint;
use waysides::Motion;

// Does nothing: its contract is that a lever track means what its points are, that a drive settles a point at once, and
// that a settling settles it.
pub fn settles_at_once()
    ensures meaning { (t : Levers) → of_wayside ⟦<LeverPoint as Motion>⟧.seen t ≡ of_lever t }
    ensures drive { (m : Meaning) (i : ℕ) (to : Position) → driven m i to (⟦<LeverPoint as Motion>⟧.seen (⟦<LeverPoint as Motion>⟧.started to)).settled ≡ driven m i to true }
    ensures settle { (p : LeverPoint) → (⟦<LeverPoint as Motion>⟧.seen (⟦<LeverPoint as Motion>⟧.going_on p)).settled ≡ true }
{}
