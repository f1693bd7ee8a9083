// A station, and the state of an interlocking over its trackside: what the tests of rows are asked of.
ghost use Rattle.std.specs.Prelude.{◌≡◌};
ghost use Rattle.conditions.specs.Tests.{is_clear, is_free, lies, point_told, unset};
ghost use Rattle.track.specs.Meaning.{laid};

use acceptance::Accepted;
use states::States;
use station::{Lock, Position};
use track::{PointState, Trackside};

#[derive(Drop)]
pub struct View<'a, 'b, T: Trackside> {
    pub station: &'a Accepted<'b>,
    pub states: &'a States,
    pub track: &'a T,
}

impl<T: Trackside> View<'_, '_, T> {
    // Whether the route is neither set nor active.
    pub(crate) fn is_unset(&self, route: usize) -> bool
        ensures { result ≡ unset self.now.states.now route }
    {
        self.states.route(route).is_unset()
    }

    pub(crate) fn is_free(&self, lock: Lock) -> bool
        ensures { result ≡ is_free self.now.states.now lock }
    {
        !self.states.is_locked(lock)
    }

    // A point as the trackside answers; one of which it answers nothing is normal and not settled.
    pub(crate) fn point(&self, point: usize) -> PointState
        ensures { result ≡ point_told (laid self.now.station.now) (T.Trackside.meaning self.now.track.now) point }
    {
        self.track.point(self.station, point).unwrap_or(PointState {
            target: Position::Normal,
            settled: false,
        })
    }

    // Whether the point is settled so.
    pub(crate) fn lies(&self, point: usize, position: Position) -> bool
        ensures { result ≡ lies (laid self.now.station.now) (T.Trackside.meaning self.now.track.now) point position }
    {
        let p = self.point(point);
        p.settled && p.target == position
    }

    // Whether the trackside answers that the segment is clear.
    pub(crate) fn is_clear(&self, segment: usize) -> bool
        ensures { result ≡ is_clear (laid self.now.station.now) (T.Trackside.meaning self.now.track.now) segment }
    {
        self.track.clear(self.station, segment).unwrap_or(false)
    }
}
