// Forms of words.
ghost use Rattle.std.specs.Prelude.{◌≡◌};
ghost use Rattle.std.specs.Option.{option_map};
ghost use Rattle.forms.specs.Words.{is_name, is_joint, prefixed, bracketed, joined, two_joints, both};
ghost use Rattle.forms.specs.Things.{spelled, spot, spots, name_at, names_at};

use crate::names::Name;
use text::{Class, Word};

// A name of a segment, point, route or zone.
fn is_name(w: &[u8]) -> bool
    ensures { result ≡ is_name w.now }
{
    (1..=8).contains(&w.len()) && Class::Name.all(w)
}

// A joint's name.
pub fn is_joint(w: &[u8]) -> bool
    ensures { result ≡ is_joint w.now }
{
    (1..=6).contains(&w.len()) && Class::Plain.all(w) && !matches!(w, b"OUT" | b"END")
}

// The name x in a word that is the front and x.
pub fn prefixed<'a>(w: Word<'a>, front: &[u8]) -> Option<Name<'a>>
    ensures { option_map spot result ≡ name_at (spelled w.entry) (prefixed front.now w.entry.octets.now) }
{
    let octets = w.octets.strip_prefix(front)?;
    is_name(octets).then_some(Name { octets, at: w.at })
}

// The name x in a word that is the front, x and a last octet.
pub fn bracketed<'a>(w: Word<'a>, front: &[u8], last: u8) -> Option<Name<'a>>
    ensures { option_map spot result ≡ name_at (spelled w.entry) (bracketed front.now last w.entry.octets.now) }
{
    let (end, octets) = w.octets.split_last()?;
    if *end != last {
        return None;
    }
    prefixed(Word { octets, at: w.at }, front)
}

// The joints a and b in a word that is the front, a, `_` and b.
pub fn joined<'a>(w: Word<'a>, front: &[u8]) -> Option<(Name<'a>, Name<'a>)>
    ensures { option_map spots result ≡ names_at (spelled w.entry) (joined front.now w.entry.octets.now) }
{
    let (a, b) = two_joints(w.octets.strip_prefix(front)?)?;
    let at = w.at;
    Some((Name { octets: a, at }, Name { octets: b, at }))
}

// The two joints' names with `_`, which neither has, between them.
fn two_joints(octets: &[u8]) -> Option<(&[u8], &[u8])>
    ensures { option_map both result ≡ two_joints octets.now }
{
    let (a, rest) = octets.split_at(Class::Plain.run(octets));
    let b = rest.strip_prefix(b"_")?;
    (is_joint(a) && is_joint(b)).then_some((a, b))
}
