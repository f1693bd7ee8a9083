// The searches, over traits and no closures: a function that calls a closure has a precondition, and no exported one has.
ghost use Rattle.std.specs.Prelude.{◌≡◌, ℕ, Bool, Option as Maybe};
ghost use Rattle.firsts.specs.Claims.{first_failing};
ghost use Rattle.firsts.specs.Least.{lower, least_below};

// What may hold of a thing or not.
pub trait Claim<T> {
    ghost holds: { Self → T → Bool };

    fn holds(&self, x: T) -> bool
        ensures { result ≡ holds self.now x };
}

// A question that has an answer at some numbers.
pub trait Probe {
    type Found;

    ghost at: { Self → ℕ → Maybe Self.Found };

    fn probe(&self, i: usize) -> Option<Self::Found>
        ensures { result ≡ at self.now i };
}

// The first number below n of which the claim does not hold.
pub fn first_breach<C: Claim<usize>>(claim: &C, n: usize) -> Option<usize>
    ensures { result ≡ first_failing (C.Claim.holds claim.now) n }
{
    (0..n).find(|i| !claim.holds(*i))
}

// The lower of two answers, where there are two.
fn lower(a: Option<usize>, b: Option<usize>) -> Option<usize>
    ensures { result ≡ lower a b }
{
    match (a, b) {
        (Some(x), Some(y)) => Some(x.min(y)),
        _ => a.or(b),
    }
}

// The lowest answer at the numbers below n.
pub fn least<P: Probe<Found = usize>>(p: &P, n: usize) -> Option<usize>
    ensures { result ≡ least_below (P.at p.now) n }
{
    (0..n).fold(None, |lowest, i| lower(lowest, p.probe(i)))
}
