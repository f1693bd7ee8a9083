// A list written by number, past its end too.
ghost use Rattle.std.specs.Prelude.{◌≡◌, slice_set};

// Writes at a number. Past the end nothing changes.
#[tactic(auto, using(std::proofs::lemmas::List::set_past))]
pub(crate) fn put<T: Copy>(xs: &mut [T], n: usize, x: T)
    ensures { xs.new ≡ slice_set xs.old n x }
{
    // by index: the library's `get_mut` of a slice does not promise what the slice holds after a write through it
    if n < xs.len() {
        xs[n] = x;
    }
}
