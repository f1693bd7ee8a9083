// What a track that keeps its own state tells of it, by number. Past the end nothing is settled, signals are at stop and trains absent.
ghost use Rattle.std.specs.Prelude.{length, ◌≡◌};
ghost use Rattle.track.specs.Meaning.{Meaning, aspect_at, state_at, train_at};

use track::{Aspect, PointState, Train};

pub trait Standing {
    ghost told: { Self → Meaning };

    fn points(&self) -> usize
        ensures { result ≡ length (told self.now).points };

    fn signals(&self) -> usize
        ensures { result ≡ length (told self.now).signals };

    fn point_at(&self, n: usize) -> PointState
        ensures { result ≡ state_at (told self.now) n };

    fn aspect_at(&self, n: usize) -> Aspect
        ensures { result ≡ aspect_at (told self.now) n };

    fn train_at(&self, n: usize) -> Train
        ensures { result ≡ train_at (told self.now) n };
}
