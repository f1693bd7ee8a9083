// One function over every trackside, and what the piles mean over which it runs.
ghost use Rattle.std.specs.Prelude.{◌≡◌};
ghost use Rattle.holding.specs.Seen.{through};
ghost use Rattle.lever.specs.Levers.{of_lever};
ghost use Rattle.motor.specs.Motors.{of_motor};
ghost use Rattle.piles.specs.Piles.{Throws};
ghost use Rattle.track.specs.Meaning.{laid};

use acceptance::Accepted;
use counter::Counter;
use delay::Delay;
use lever::Lever;
use motor::Motor;
use station::Position;
use track::{Refusal, Trackside};

// Drives a point to the side at which it is not.
pub fn throw_over<T: Trackside>(
    track: &mut T,
    station: &Accepted<'_>,
    point: usize,
) -> Result<(), Refusal>
    ensures { Throws (laid station.now) (T.Trackside.meaning track.old) point result (T.Trackside.meaning track.new) }
{
    let other_side = match track.point(station, point)?.target {
        Position::Normal => Position::Reverse,
        Position::Reverse => Position::Normal,
    };
    track.drive(station, point, other_side)
}

// Does nothing: its contract is what the piles mean, of which the contract of `throw_over` speaks.
pub fn meanings(motor: &Delay<Motor>, counted: &Counter<Delay<Lever>>, twice: &Delay<Delay<Lever>>)
    ensures motor { ⟦<Delay<Motor> as Trackside>⟧.meaning motor.now ≡ through (of_motor motor.now.below) motor.now.holding }
    ensures counted { ⟦<Counter<Delay<Lever>> as Trackside>⟧.meaning counted.now ≡ through (of_lever counted.now.below.below) counted.now.below.holding }
    ensures twice { ⟦<Delay<Delay<Lever>> as Trackside>⟧.meaning twice.now ≡ through (through (of_lever twice.now.below.below) twice.now.below.holding) twice.now.holding }
{}
