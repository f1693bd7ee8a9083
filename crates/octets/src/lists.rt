// Every element of a list, written or read, over a trait and no closure: a function that calls one has a precondition.
ghost use Rattle.std.specs.Prelude.{◌≡◌, IfOk, Option as Maybe};
ghost use Rattle.octets.specs.Each.{Told, each};

use std::alloc::{AllocError, Global};

// What a thing is written or read as, where it can be.
pub trait Code<X, Y> {
    ghost code: { Self → X → Maybe Y };

    fn code(&self, x: X) -> Option<Y>
        ensures { result ≡ code self.now x };
}

// What all elements are written or read as, in their order, or None where one of them cannot be.
pub fn each<X: Copy, Y: Drop, C: Code<X, Y>>(
    heap: Global,
    code: &C,
    xs: &[X],
) -> Result<Option<Vec<Y>>, AllocError>
    ensures { IfOk result (λ o. Told o (each (C.Code.code code.now) xs.now)) }
{
    let mut ys = Vec::new(heap);
    // A loop, since of `collect` into an Option nothing is promised of when it fails.
    for x in xs {
        let Some(y) = code.code(*x) else {
            return Ok(None);
        };
        ys.push(y)?;
    }
    Ok(Some(ys))
}
