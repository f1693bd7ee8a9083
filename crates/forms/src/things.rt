// The things that words name.
// `or` and not `or_else`: of a closure over a borrowed word the proof knows nothing.
ghost use Rattle.std.specs.Prelude.{◌≡◌};
ghost use Rattle.std.specs.Option.{option_map};
ghost use Rattle.forms.specs.Things.{spelled, spot, placed, segment_of, point_of, joint_of, lettered, lock_of, thing_of};

use crate::names::Name;
use crate::words::{bracketed, is_joint, joined, prefixed};
use text::Word;

#[derive(Clone, Copy)]
pub enum Thing<'a> {
    Segment(Name<'a>),
    Point(Name<'a>),
    Route(Name<'a>),
    Zone(Name<'a>),
    // from a joint to another
    Subroute(Name<'a>, Name<'a>),
}

// `T_x`; this and the next are one call of what they share.
pub fn segment_of<'a>(w: Word<'a>) -> Option<Name<'a>>
    ensures { option_map spot result ≡ segment_of (spelled w.entry) }
{
    prefixed(w, b"T_")
}

// `P_x`
pub fn point_of<'a>(w: Word<'a>) -> Option<Name<'a>>
    ensures { option_map spot result ≡ point_of (spelled w.entry) }
{
    prefixed(w, b"P_")
}

// A joint's name.
pub fn joint_of<'a>(w: Word<'a>) -> Option<Name<'a>>
    ensures { option_map spot result ≡ joint_of (spelled w.entry) }
{
    let Word { octets, at } = w;
    is_joint(octets).then_some(Name { octets, at })
}

// `T_x`, `P_x` or `R_x`
fn lettered<'a>(w: Word<'a>) -> Option<Thing<'a>>
    ensures { option_map placed result ≡ lettered (spelled w.entry) }
{
    segment_of(w)
        .map(Thing::Segment)
        .or(point_of(w).map(Thing::Point))
        .or(prefixed(w, b"R_").map(Thing::Route))
}

// `U_IR(x)` or `U_a_b`
fn lock_of<'a>(w: Word<'a>) -> Option<Thing<'a>>
    ensures { option_map placed result ≡ lock_of (spelled w.entry) }
{
    let zone = bracketed(w, b"U_IR(", b')').map(Thing::Zone);
    let subroute = joined(w, b"U_").map(|(from, to)| Thing::Subroute(from, to));
    zone.or(subroute)
}

// `T_x`, `P_x`, `R_x`, `U_IR(x)` or `U_a_b`
pub fn thing_of<'a>(w: Word<'a>) -> Option<Thing<'a>>
    ensures { option_map placed result ≡ thing_of (spelled w.entry) }
{
    // Not by `or`, so that locks are tried only where no other thing fits.
    match lettered(w) {
        Some(thing) => Some(thing),
        None => lock_of(w),
    }
}
