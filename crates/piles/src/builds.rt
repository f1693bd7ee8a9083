// Building the piles.
ghost use Rattle.std.specs.Prelude.{◌≡◌, ◌<◌, ◌≤◌, MatchResult};

use counter::Counter;
use delay::Delay;
use lever::Lever;
use motor::Motor;
use track::Refusal;

// A delay over a motor track.
pub fn delayed_motor(motor: Motor, settlings: u8) -> Result<Delay<Motor>, (Motor, Refusal)>
    ensures { MatchResult result (λ d. (settlings ≤ 20) × (d.below ≡ motor) × (d.settlings ≡ settlings)) (λ e. (20 < settlings) × (e.0 ≡ motor) × (e.1 ≡ Refusal.Unknown)) }
{
    Delay::new(motor, settlings)
}

// A throw counter over a delay over a lever track.
pub fn counted_delay(track: Lever, settlings: u8) -> Result<Counter<Delay<Lever>>, (Lever, Refusal)>
    ensures { MatchResult result (λ c. (settlings ≤ 20) × (c.below.below ≡ track) × (c.below.settlings ≡ settlings)) (λ e. (20 < settlings) × (e.0 ≡ track) × (e.1 ≡ Refusal.Unknown)) }
{
    Delay::new(track, settlings).map(Counter::new)
}

// A delay over a delay over a lever track.
pub fn delayed_twice(track: Lever, first: u8, second: u8) -> Result<Delay<Delay<Lever>>, Refusal>
    ensures { MatchResult result (λ d. (first ≤ 20) × (second ≤ 20) × (d.below.below ≡ track) × (d.below.settlings ≡ first) × (d.settlings ≡ second)) (λ e. (first ≤ 20 → 20 < second) × (e ≡ Refusal.Unknown)) }
{
    let delay = Delay::new(track, first).map_err(|(_, e)| e)?;
    Delay::new(delay, second).map_err(|(_, e)| e)
}
