// How many settlings of each point are held back, and which trains are kept derailed.
ghost use Rattle.std.specs.Prelude.{◌≡◌, length};

#[derive(Drop)]
pub struct Holding {
    // a track has no more points
    pub(crate) counts: [u8; 32],
    // trains are numbered 0 to 15
    pub(crate) derailed: [bool; 16],
    ghost points: { length counts ≡ 32 },
    ghost trains: { length derailed ≡ 16 },
}
