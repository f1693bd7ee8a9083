// Which of the rows so far a new row must not repeat or add to.
ghost use Rattle.std.specs.Prelude.{◌≡◌, map, [], count_by};
ghost use Rattle.rows.specs.Rows.{placed_pair, placed_row, tests_of};
ghost use Rattle.rows.specs.Filters.{move_kind, head_of, first_of, second_of, of_head, named, at_home, full, known, crowded};

use crate::rows::{Pair, Row};
use forms::Name;
use station::Position;

// The most points that have one home segment.
const HOMES: usize = 4;

#[derive(Clone, Copy, PartialEq)]
pub enum Kind {
    Segment,
    Joint,
    Point,
    Way,
    Signal,
    Request,
    Activation,
    NormalMove,
    ReverseMove,
    Release,
    Zone,
}

impl From<Position> for Kind {
    ghost from_gives = { λ p k. k ≡ move_kind p };

    // The kind of a point's row to this side.
    fn from(position: Position) -> Kind {
        match position {
            Position::Normal => Kind::NormalMove,
            Position::Reverse => Kind::ReverseMove,
        }
    }
}

// What tells rows of one kind apart: a name and nothing, or two names.
#[derive(Clone, Copy, PartialEq)]
pub struct Key<'a> {
    pub first: &'a [u8],
    pub second: &'a [u8],
}

impl<'a> From<Name<'a>> for Key<'a> {
    ghost from_gives = { λ n k. (k.first.now ≡ n.octets.now) × (k.second.now ≡ []) };

    fn from(name: Name<'a>) -> Key<'a> {
        Key {
            first: name.octets,
            second: b"",
        }
    }
}

impl<'a> From<(Name<'a>, Name<'a>)> for Key<'a> {
    ghost from_gives = { λ p k. (k.first.now ≡ p.0.octets.now) × (k.second.now ≡ p.1.octets.now) };

    fn from((first, second): (Name<'a>, Name<'a>)) -> Key<'a> {
        Key {
            first: first.octets,
            second: second.octets,
        }
    }
}

impl<'a> Row<'a> {
    fn kind(&self) -> Kind
        ensures { result ≡ head_of (placed_row self.now) }
    {
        match self {
            Row::Segment(_) => Kind::Segment,
            Row::Joint(_) => Kind::Joint,
            Row::Point(_) => Kind::Point,
            Row::Way(_) => Kind::Way,
            Row::Signal(_) => Kind::Signal,
            Row::Request(_) => Kind::Request,
            Row::Activation(_) => Kind::Activation,
            Row::Move(m) => Kind::from(m.position),
            Row::Release(_) => Kind::Release,
            Row::Zone(_) => Kind::Zone,
        }
    }

    // The name that the row declares or is about; a way, a signal and a release have two.
    pub fn key(&self) -> Key<'a>
        ensures first { result.first.now ≡ first_of (placed_row self.now) }
        ensures second { result.second.now ≡ second_of (placed_row self.now) }
    {
        match self {
            Row::Segment(name) => Key::from(*name),
            Row::Joint(j) => Key::from(j.name),
            Row::Point(p) => Key::from(p.name),
            Row::Way(w) => Key::from((w.from, w.to)),
            Row::Signal(s) => Key::from((s.joint, s.segment)),
            Row::Request(q) => Key::from(q.route),
            Row::Activation(a) => Key::from(a.route),
            Row::Move(m) => Key::from(m.point),
            Row::Release(u) => Key::from((u.from, u.to)),
            Row::Zone(z) => Key::from(z.zone),
        }
    }

    pub fn is_of(&self, kind: Kind) -> bool
        ensures { result ≡ of_head kind (placed_row self.now) }
    {
        self.kind() == kind
    }

    // Whether the row is of the kind and has this key, which is lent: one passed by value is copied for each row.
    fn has_key(&self, kind: Kind, key: &Key) -> bool
        ensures { result ≡ named kind key.now.first.now key.now.second.now (placed_row self.now) }
    {
        if !self.is_of(kind) {
            return false;
        }
        // Name by name, since `==` of two keys has both of them written to memory first.
        let Key { first, second } = self.key();
        first == key.first && second == key.second
    }

    // Whether the row is of the kind and has this key.
    pub fn is_named(&self, kind: Kind, key: Key) -> bool
        ensures { result ≡ named kind key.entry.first.now key.entry.second.now (placed_row self.now) }
    {
        self.has_key(kind, &key)
    }

    // Whether the row is a point's with this home segment.
    fn is_at_home(&self, segment: &[u8]) -> bool
        ensures { result ≡ at_home segment.now (placed_row self.now) }
    {
        matches!(self, Row::Point(p) if p.home.octets == segment)
    }

    // The row's tests, or a way's settings.
    pub fn tests(&self) -> &[Pair<'a>]
        ensures { map placed_pair result.now ≡ tests_of (placed_row self.now) }
    {
        match self {
            Row::Way(w) => w.settings.as_slice(),
            Row::Request(q) => q.tests.as_slice(),
            Row::Activation(a) => a.tests.as_slice(),
            Row::Move(m) => m.tests.as_slice(),
            Row::Release(u) => u.tests.as_slice(),
            Row::Zone(z) => z.tests.as_slice(),
            _ => &[],
        }
    }
}

// Whether there are as many rows of a kind as there may be.
pub fn full(rows: &[Row], kind: Kind, most: usize) -> bool
    ensures { result ≡ full (map placed_row rows.now) kind most }
{
    rows.iter().filter(|r| r.is_of(kind)).count() >= most
}

// How many rows of the kind have this key.
fn how_many(rows: &[Row], kind: Kind, key: &Key) -> usize
    ensures { result ≡ count_by (λ r. named kind key.now.first.now key.now.second.now (placed_row r)) rows.now }
{
    rows.iter().filter(|r| r.has_key(kind, key)).count()
}

// Whether there is a row of the kind with this key.
#[tactic(auto, using(firsts::proofs::Elements::any_counted, firsts::proofs::Elements::any_map))]
pub fn known(rows: &[Row], kind: Kind, key: Key) -> bool
    ensures { result ≡ known (map placed_row rows.now) kind key.entry.first.now key.entry.second.now }
{
    how_many(rows, kind, &key) > 0
}

// Whether the segment has as many points as it may have.
pub fn crowded(rows: &[Row], segment: &[u8]) -> bool
    ensures { result ≡ crowded (map placed_row rows.now) segment.now }
{
    rows.iter().filter(|r| r.is_at_home(segment)).count() >= HOMES
}
