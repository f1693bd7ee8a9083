// What such a track keeps.
ghost use Rattle.std.specs.Prelude.{◌≡◌, ◌≤◌, vec_len};

use track::{Aspect, Train};

#[derive(Drop)]
pub struct Wayside<P> {
    pub(crate) points: Vec<P>,
    pub(crate) signals: Vec<Aspect>,
    pub(crate) trains: Vec<Train>,
    ghost few: { vec_len points ≤ 32 },
    ghost sixteen: { vec_len trains ≡ 16 },
}
