// The names of all things, by kind; a thing's number is its place.
ghost use Rattle.std.specs.Prelude.{◌≡◌, map, IfOk};
ghost use Rattle.forms.specs.Things.{spot};
ghost use Rattle.rows.specs.Rows.{placed_row};
ghost use Rattle.naming.specs.Index.{indexed, index_of, subroute_number};

use crate::keys::Keys;
use forms::Name;
use rows::{Key, Kind, Row};
use std::alloc::{AllocError, Global};

#[derive(Drop)]
pub struct Index<'a> {
    pub segments: Keys<'a>,
    pub joints: Keys<'a>,
    pub points: Keys<'a>,
    pub routes: Keys<'a>,
    pub zones: Keys<'a>,
    // by their joints
    pub ways: Keys<'a>,
}

impl<'a> Index<'a> {
    pub fn new(rows: &[Row<'a>], heap: Global) -> Result<Index<'a>, AllocError>
        ensures { IfOk result (λ x. indexed x ≡ index_of (map placed_row rows.now)) }
    {
        Ok(Index {
            segments: Keys::of(rows, Kind::Segment, heap)?,
            joints: Keys::of(rows, Kind::Joint, heap)?,
            points: Keys::of(rows, Kind::Point, heap)?,
            routes: Keys::of(rows, Kind::Request, heap)?,
            zones: Keys::of(rows, Kind::Zone, heap)?,
            ways: Keys::of(rows, Kind::Way, heap)?,
        })
    }

    // The subroute of the first way between the joints, in either order: twice the way's number, plus one
    // against the order in which it is written. Two names and no pair, since both orders are asked.
    pub fn subroute(&self, from: Name<'a>, to: Name<'a>) -> usize
        ensures { result ≡ subroute_number (indexed self.now) (spot from.entry) (spot to.entry) }
    {
        let along = self.ways.place(Key::from((from, to)));
        let against = self.ways.place(Key::from((to, from)));
        if along <= against {
            along * 2
        } else {
            against * 2 + 1
        }
    }
}
