// The words that rows begin with.
// `or` and not `or_else`: of a closure over a borrowed word the proof knows nothing.
ghost use Rattle.std.specs.Prelude.{◌≡◌};
ghost use Rattle.std.specs.Option.{option_map};
ghost use Rattle.forms.specs.Things.{spelled};
ghost use Rattle.forms.specs.Heads.{headed, layout_head, route_head, lock_head, point_head, data_head, head};

use crate::names::Name;
use crate::words::{bracketed, joined};
use station::Position;
use text::Word;

#[derive(Clone, Copy)]
pub enum Head<'a> {
    Segment,
    Joint,
    Point,
    Way,
    Signal,
    Data,
    Request(Name<'a>),
    Activation(Name<'a>),
    PointRow(Name<'a>, Position),
    // of a subroute, from a joint to another
    Release(Name<'a>, Name<'a>),
    Zone(Name<'a>),
}

// A `match` of the words leaves search the 27 paths that lead to its last arm.
fn layout_head<'a>(w: &'a [u8]) -> Option<Head<'a>>
    ensures { option_map headed result ≡ layout_head w.now }
{
    if w == b"SEG".as_slice() {
        Some(Head::Segment)
    } else if w == b"JOINT".as_slice() {
        Some(Head::Joint)
    } else if w == b"POINT".as_slice() {
        Some(Head::Point)
    } else if w == b"WAY".as_slice() {
        Some(Head::Way)
    } else if w == b"SIGNAL".as_slice() {
        Some(Head::Signal)
    } else if w == b"DATA".as_slice() {
        Some(Head::Data)
    } else {
        None
    }
}

// `Q_R(x)` or `A_R(x)`
fn route_head<'a>(w: Word<'a>) -> Option<Head<'a>>
    ensures { option_map headed result ≡ route_head (spelled w.entry) }
{
    bracketed(w, b"Q_R(", b')')
        .map(Head::Request)
        .or(bracketed(w, b"A_R(", b')').map(Head::Activation))
}

// `U_IR(x)` or `U_a_b`
fn lock_head<'a>(w: Word<'a>) -> Option<Head<'a>>
    ensures { option_map headed result ≡ lock_head (spelled w.entry) }
{
    let zone = bracketed(w, b"U_IR(", b')').map(Head::Zone);
    let release = joined(w, b"U_").map(|(from, to)| Head::Release(from, to));
    zone.or(release)
}

// `P_xN` or `P_xR`
fn point_head<'a>(w: Word<'a>) -> Option<Head<'a>>
    ensures { option_map headed result ≡ point_head (spelled w.entry) }
{
    bracketed(w, b"P_", b'N')
        .map(|name| Head::PointRow(name, Position::Normal))
        .or(bracketed(w, b"P_", b'R').map(|name| Head::PointRow(name, Position::Reverse)))
}

#[tactic(auto, using(crate::proofs::Ors::or_seen))]
fn data_head<'a>(w: Word<'a>) -> Option<Head<'a>>
    ensures { option_map headed result ≡ data_head (spelled w.entry) }
{
    route_head(w).or(lock_head(w)).or(point_head(w))
}

// The head that a row's first word is.
pub fn head_of<'a>(w: Word<'a>) -> Option<Head<'a>>
    ensures { option_map headed result ≡ head (spelled w.entry) }
{
    // Not by `or`, so that the heads of the data are tried only where no head of the layout fits.
    match layout_head(w.octets) {
        Some(head) => Some(head),
        None => data_head(w),
    }
}
