// How a point's motor runs.
ghost use Rattle.std.specs.Prelude.{refl};
ghost use Rattle.motor.specs.Motors.{at_rest, on, started, state_of};

use station::Position;
use track::PointState;
use waysides::{Motion, Wayside};

// Where a point is driven to, and how many settlings are left until it lies there.
#[derive(Clone, Copy)]
pub struct Run {
    pub target: Position,
    pub left: u8,
}

pub type Motor = Wayside<Run>;

// A throw takes so many settlings.
const THROW: u8 = 8;

impl Motion for Run {
    ghost seen = { state_of };

    ghost resting = { at_rest };

    ghost started = { started };

    ghost going_on = { on };

    ghost lies = { λ x. refl };

    ghost turns = { λ x. refl };

    ghost keeps = { λ p. refl };

    ghost copied = { λ p q e. e };

    fn state(self) -> PointState {
        PointState {
            target: self.target,
            settled: self.left == 0,
        }
    }

    // This and `start` differ in a number that says all there is to them.
    fn at_rest(position: Position) -> Run {
        Run {
            target: position,
            left: 0,
        }
    }

    fn start(to: Position) -> Run {
        Run {
            target: to,
            left: THROW,
        }
    }

    fn go_on(self) -> Run {
        Run {
            target: self.target,
            left: self.left.saturating_sub(1),
        }
    }
}
