// The octet of a signal.
ghost use Rattle.std.specs.Prelude.{◌≡◌, Some};
ghost use Rattle.octets.specs.Reads.{aspect_of};
ghost use Rattle.octets.specs.Writes.{aspect_octet};

use crate::lists::Code;
use track::Aspect;

const STOP: u8 = 0;

const PROCEED: u8 = 1;

pub fn aspect_octet(aspect: Aspect) -> u8
    ensures { result ≡ aspect_octet aspect }
{
    match aspect {
        Aspect::Stop => STOP,
        Aspect::Proceed => PROCEED,
    }
}

// What a signal shows by its octet.
pub fn aspect_of(octet: u8) -> Option<Aspect>
    ensures { result ≡ aspect_of octet }
{
    match octet {
        STOP => Some(Aspect::Stop),
        PROCEED => Some(Aspect::Proceed),
        _ => None,
    }
}

// Signals as octets.
#[derive(Clone, Copy)]
pub struct SignalWritten;

impl Code<Aspect, u8> for SignalWritten {
    ghost code = { λ _ a. Some (aspect_octet a) };

    fn code(&self, aspect: Aspect) -> Option<u8> {
        Some(aspect_octet(aspect))
    }
}

// Octets as signals.
#[derive(Clone, Copy)]
pub struct SignalRead;

impl Code<u8, Aspect> for SignalRead {
    ghost code = { λ _ b. aspect_of b };

    fn code(&self, octet: u8) -> Option<Aspect> {
        aspect_of(octet)
    }
}
