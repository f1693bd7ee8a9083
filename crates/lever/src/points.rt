// A point of a lever track.
ghost use Rattle.std.specs.Prelude.{refl};
ghost use Rattle.lever.specs.Levers.{lever_at, seen, settled};

use station::Position;
use track::PointState;
use waysides::{Motion, Wayside};

// A point that lies where it is driven to as soon as it is driven.
#[derive(Clone, Copy)]
pub struct LeverPoint {
    pub state: PointState,
}

pub type Lever = Wayside<LeverPoint>;

impl Motion for LeverPoint {
    ghost seen = { seen };

    ghost resting = { lever_at };

    ghost started = { lever_at };

    ghost going_on = { settled };

    ghost lies = { λ x. refl };

    ghost turns = { λ x. refl };

    ghost keeps = { λ p. refl };

    ghost copied = { λ p q e. e };

    fn state(self) -> PointState {
        self.state
    }

    fn at_rest(position: Position) -> LeverPoint {
        LeverPoint {
            state: PointState {
                target: position,
                settled: true,
            },
        }
    }

    fn start(to: Position) -> LeverPoint {
        LeverPoint::at_rest(to)
    }

    fn go_on(self) -> LeverPoint {
        LeverPoint::at_rest(self.state.target)
    }
}
