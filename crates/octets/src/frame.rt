// The first three octets of an image: its version, and how many octets follow.
ghost use Rattle.std.specs.Prelude.{◌≡◌};
ghost use Rattle.octets.specs.Frames.{framed, head, rest};

const VERSION: u8 = 1;
// The version, and two octets for the length of the rest.
pub const HEAD: usize = 3;
// 16 trains of four octets.
const TRAIN_OCTETS: usize = 64;

// How many octets follow the first three, where two octets can say it.
pub fn rest_of(points: usize, signals: usize) -> Option<u16>
    ensures { result ≡ rest points signals }
{
    let n = points.checked_add(signals)?.checked_add(TRAIN_OCTETS)?;
    u16::try_from(n).ok()
}

pub fn head(rest: u16) -> [u8; 3]
    ensures { result ≡ head rest }
{
    let [high, low] = rest.to_be_bytes();
    [VERSION, high, low]
}

// Whether the octets begin as an image does, with as many after that as they say.
pub fn framed(octets: &[u8], rest: u16) -> bool
    ensures { result ≡ framed rest octets.now }
{
    octets.len() == HEAD + usize::from(rest) && octets.starts_with(&head(rest))
}
