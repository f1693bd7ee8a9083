// The rows so far, and what may not come after them.
ghost use Rattle.std.specs.Prelude.{◌≡◌, cond};
ghost use Rattle.rows.specs.Filters.{full, known, crowded};
ghost use Rattle.sheets.specs.Layout.{rows_of};

use forms::Name;
use rows::{Key, Kind, Row, RowFault, crowded, full, known};
use std::alloc::Global;

// Rows in the order of the text, and the allocator for more. The reader is not in it, since rows are looked through while it is moved on.
#[derive(Drop)]
pub struct Sofar<'a> {
    pub rows: Vec<Row<'a>>,
    pub heap: Global,
}

impl<'a> Sofar<'a> {
    // Refuses one more row of a kind, at the offset `at`, where there are as many as there may be. In this and the next
    // two the test and the fault are all there is; a function for the rest would be as long.
    pub fn room(&self, kind: Kind, most: usize, at: usize) -> Result<(), RowFault>
        ensures { result ≡ cond (full (rows_of self.now.rows) kind most) (Err (RowFault.Limit at)) (Ok tt) }
    {
        if full(self.rows.as_slice(), kind, most) {
            Err(RowFault::Limit(at))
        } else {
            Ok(())
        }
    }

    // Refuses a row of a kind, at the offset `at`, whose key a row of that kind has.
    pub fn fresh(&self, kind: Kind, key: Key, at: usize) -> Result<(), RowFault>
        ensures { result ≡ cond (known (rows_of self.now.rows) kind key.entry.first.now key.entry.second.now) (Err (RowFault.Twice at)) (Ok tt) }
    {
        if known(self.rows.as_slice(), kind, key) {
            Err(RowFault::Twice(at))
        } else {
            Ok(())
        }
    }

    // Refuses one more point at a segment that has as many as it may have.
    pub fn uncrowded(&self, home: Name<'a>) -> Result<(), RowFault>
        ensures { result ≡ cond (crowded (rows_of self.now.rows) home.entry.octets.now) (Err (RowFault.Limit home.entry.at)) (Ok tt) }
    {
        if crowded(self.rows.as_slice(), home.octets) {
            Err(RowFault::Limit(home.at))
        } else {
            Ok(())
        }
    }
}
