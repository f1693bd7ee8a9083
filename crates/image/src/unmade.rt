// Why a track is not made.
ghost use Rattle.std.specs.Prelude.{◌≡◌};
ghost use Rattle.image.specs.declared.unmade.Unmade.TheVariants.{Memory};

use std::alloc::AllocError;
use track::Refusal;

#[derive(Clone, Copy, PartialEq)]
pub enum Unmade {
    // the octets mean no track
    Refused(Refusal),
    // there is no memory for it
    Memory,
}

impl From<AllocError> for Unmade {
    ghost from_gives = { λ _ u. u ≡ Memory };

    fn from(_want: AllocError) -> Unmade {
        Unmade::Memory
    }
}
