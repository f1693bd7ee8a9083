// What the calls of every track that keeps its state come to at a motor track.
ghost use Rattle.std.specs.Prelude.{◌≡◌, ℕ, List, ◌==◌, slice_index_or};
ghost use Rattle.motor.specs.Motors.{Motor as Motors, less_left, of_motor, run_at, run_on, thrown};
ghost use Rattle.motor.specs.declared.runs.Run.{Run};
ghost use Rattle.station.specs.declared.tests.Position.{Position};
ghost use Rattle.station.specs.declared.tests.Position.TheVariants.{Normal};
ghost use Rattle.waysides.specs.Waysides.{driven_run, of_wayside, settled_run};

use crate::runs::Run;
use waysides::Motion;

// Does nothing: its contract is that a motor track means what its motors tell, that a drive to the other side starts 8
// settlings, and that each settling takes one off, the last of them settling the point.
pub fn runs_for_eight()
    ensures meaning { (t : Motors) → of_wayside ⟦<Run as Motion>⟧.seen t ≡ of_motor t }
    ensures drive { (rs : List Run) (i : ℕ) (to : Position) → driven_run ⟦<Run as Motion>⟧.seen ⟦<Run as Motion>⟧.started (⟦<Run as Motion>⟧.resting Normal) rs i to ≡ thrown rs i to }
    ensures settle { (rs : List Run) (i : ℕ) → settled_run ⟦<Run as Motion>⟧.going_on (⟦<Run as Motion>⟧.resting Normal) rs i ≡ run_on rs i }
    ensures last { (rs : List Run) (i : ℕ) → (⟦<Run as Motion>⟧.seen (⟦<Run as Motion>⟧.going_on (slice_index_or rs i (⟦<Run as Motion>⟧.resting Normal)))).settled ≡ (less_left (run_at rs i).left == 0) }
{}
