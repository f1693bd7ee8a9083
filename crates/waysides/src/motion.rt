// A point of a track: where it is seen to lie, and what a drive and a settling make of it.
ghost use Rattle.std.specs.Prelude.{◌≡◌, true};
ghost use Rattle.station.specs.declared.tests.Position.{Position};
ghost use Rattle.track.specs.Meaning.{a_point};
ghost use Rattle.track.specs.declared.states.PointState.{PointState};

use station::Position;
use track::PointState;

pub trait Motion: Copy {
    ghost seen: { Self → PointState };

    ghost resting: { Position → Self };

    ghost started: { Position → Self };

    ghost going_on: { Self → Self };

    // Where the point is driven to, and whether it lies there.
    fn state(self) -> PointState
        ensures { result ≡ seen self };

    // A point that lies so.
    fn at_rest(position: Position) -> Self
        ensures { result ≡ resting position };

    // A point that is driven to the other side.
    fn start(to: Position) -> Self
        ensures { result ≡ started to };

    // The point after a settling.
    fn go_on(self) -> Self
        ensures { result ≡ going_on self };

    // A point at rest lies there settled.
    ghost lies: { (x : Position) → seen (resting x) ≡ a_point x true };

    // A drive changes the target.
    ghost turns: { (x : Position) → (seen (started x)).target ≡ x };

    // A settling keeps it.
    ghost keeps: { (p : Self) → (seen (going_on p)).target ≡ (seen p).target };

    // A copy of a point is the point.
    ghost copied: { (p q : Self) → Self.is_clone p q → q ≡ p };
}
