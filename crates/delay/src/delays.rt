// A new delay.
ghost use Rattle.std.specs.Prelude.{◌≡◌, ◌<◌, ◌≤◌, false, replicate, MatchResult};
ghost use Rattle.track.specs.declared.refusals.Refusal.TheVariants.{Unknown as unknown};

use holding::Holding;
use track::{Refusal, Trackside};

// No more settlings can be held back.
const MOST_SETTLINGS: u8 = 20;

#[derive(Drop)]
pub struct Delay<T: Trackside> {
    pub(crate) below: T,
    pub(crate) settlings: u8,
    pub(crate) holding: Holding,
}

impl<T: Trackside> Delay<T> {
    // A layer that holds back so many settlings, 0 to 20; nothing is held yet. The track comes back where there are more.
    pub fn new(below: T, settlings: u8) -> Result<Delay<T>, (T, Refusal)>
        ensures { MatchResult result (λ d. (settlings ≤ 20) × (d.below ≡ below) × (d.settlings ≡ settlings) × (d.holding.counts ≡ replicate 32 0) × (d.holding.derailed ≡ replicate 16 false)) (λ e. (20 < settlings) × (e.0 ≡ below) × (e.1 ≡ unknown)) }
    {
        if settlings > MOST_SETTLINGS {
            return Err((below, Refusal::Unknown));
        }
        Ok(Delay {
            below,
            settlings,
            holding: Holding::new(),
        })
    }

    // The track below.
    pub fn below(&self) -> &T
        ensures { result.now ≡ self.now.below }
    {
        &self.below
    }
}
