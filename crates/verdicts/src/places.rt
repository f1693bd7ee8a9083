// Offsets as lines and columns.
ghost use Rattle.std.specs.Prelude.{◌≡◌, count_by};
ghost use Rattle.std.specs.List.{suffix_len};
ghost use Rattle.verdicts.specs.Places.{ends_line, within_line, lines_before, octets_since};

// How many lines end before an offset, and how many octets of its own line do.
#[derive(Clone, Copy)]
pub struct Place {
    pub lines: usize,
    pub octets: usize,
}

fn end_of(front: &[u8]) -> Place
    ensures lines { result.lines ≡ count_by ends_line front.now }
    ensures octets { result.octets ≡ suffix_len within_line front.now }
{
    Place {
        lines: front.iter().filter(|b| **b == b'\n').count(),
        octets: front.iter().rev().take_while(|b| **b != b'\n').count(),
    }
}

#[tactic(auto, using(crate::proofs::Lines::before_end))]
pub fn place_of(text: &[u8], at: usize) -> Place
    ensures lines { result.lines ≡ lines_before text.now at }
    ensures octets { result.octets ≡ octets_since text.now at }
{
    let (front, _) = text.split_at(at.min(text.len()));
    end_of(front)
}
