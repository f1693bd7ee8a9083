// How such a track stands, by number.
ghost use Rattle.waysides.specs.Waysides.{of_wayside};

use crate::kept::Wayside;
use crate::motion::Motion;
use standing::Standing;
use station::Position;
use track::{Aspect, PointState, Train};

impl<P: Motion> Standing for Wayside<P> {
    ghost told = { of_wayside P.Motion.seen };

    fn points(&self) -> usize {
        self.points.len()
    }

    fn signals(&self) -> usize {
        self.signals.len()
    }

    fn point_at(&self, n: usize) -> PointState {
        self.points.get(n).map_or(
            PointState {
                target: Position::Normal,
                settled: false,
            },
            |p| p.state(),
        )
    }

    fn aspect_at(&self, n: usize) -> Aspect {
        self.signals.get(n).copied().unwrap_or(Aspect::Stop)
    }

    fn train_at(&self, n: usize) -> Train {
        self.trains.get(n).copied().unwrap_or(None)
    }
}
