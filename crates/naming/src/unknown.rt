// Names that nothing declares.
ghost use Rattle.std.specs.Prelude.{◌≡◌, map};
ghost use Rattle.forms.specs.Things.{spot, placed};
ghost use Rattle.rows.specs.Rows.{placed_pair, placed_far, placed_row};
ghost use Rattle.naming.specs.Index.{indexed};
ghost use Rattle.naming.specs.Unknown.{unknown_thing, unknown_far, unknown_in, unknown_in_row, first_unknown};
ghost use Rattle.forms.specs.Things as thing;

use crate::index::Index;
use forms::{Name, Thing};
use rows::{Far, Key, Pair, Row};

impl<'a> Index<'a> {
    // A subroute is known where a way joins its joints in either order. Two names and no pair, since both orders are asked.
    fn unknown_subroute(&self, from: Name<'a>, to: Name<'a>) -> Option<usize>
        ensures { result ≡ unknown_thing (indexed self.now) (thing.subroute (spot from.entry) (spot to.entry)) }
    {
        let known = self.ways.has(Key::from((from, to))) || self.ways.has(Key::from((to, from)));
        (!known).then_some(from.at)
    }

    fn unknown_thing(&self, thing: Thing<'a>) -> Option<usize>
        ensures { result ≡ unknown_thing (indexed self.now) (placed thing.entry) }
    {
        match thing {
            Thing::Segment(name) => self.segments.unknown(name),
            Thing::Point(name) => self.points.unknown(name),
            Thing::Route(name) => self.routes.unknown(name),
            Thing::Zone(name) => self.zones.unknown(name),
            Thing::Subroute(from, to) => self.unknown_subroute(from, to),
        }
    }

    fn unknown_far(&self, far: Far<'a>) -> Option<usize>
        ensures { result ≡ unknown_far (indexed self.now) (placed_far far.entry) }
    {
        match far {
            Far::Segment(name) => self.segments.unknown(name),
            _ => None,
        }
    }

    fn unknown_in(&self, pairs: &[Pair<'a>]) -> Option<usize>
        ensures { result ≡ unknown_in (indexed self.now) (map placed_pair pairs.now) }
    {
        pairs.iter().find_map(|p| self.unknown_thing(p.thing))
    }

    fn unknown_in_row(&self, row: &Row<'a>) -> Option<usize>
        ensures { result ≡ unknown_in_row (indexed self.now) (placed_row row.now) }
    {
        match row {
            Row::Segment(_) => None,
            Row::Joint(j) => self.segments.unknown(j.segment).or(self.unknown_far(j.far)),
            Row::Point(p) => self.segments.unknown(p.home),
            Row::Way(w) => self
                .segments
                .unknown(w.segment)
                .or(self.joints.unknown(w.from))
                .or(self.joints.unknown(w.to))
                .or(self.unknown_in(w.settings.as_slice())),
            Row::Signal(s) => self
                .joints
                .unknown(s.joint)
                .or(self.segments.unknown(s.segment)),
            Row::Request(q) => self
                .unknown_in(q.tests.as_slice())
                .or(self.unknown_in(q.actions.as_slice())),
            Row::Activation(a) => self
                .routes
                .unknown(a.route)
                .or(self.unknown_in(a.tests.as_slice())),
            Row::Move(m) => self
                .points
                .unknown(m.point)
                .or(self.unknown_in(m.tests.as_slice())),
            Row::Release(u) => self
                .unknown_subroute(u.from, u.to)
                .or(self.unknown_in(u.tests.as_slice())),
            Row::Zone(z) => self.unknown_in(z.tests.as_slice()),
        }
    }
}

// The offset of the first name, in the order of the text, that nothing declares.
pub fn first_unknown<'a>(index: &Index<'a>, rows: &[Row<'a>]) -> Option<usize>
    ensures { result ≡ first_unknown (indexed index.now) (map placed_row rows.now) }
{
    rows.iter().find_map(|r| index.unknown_in_row(r))
}
