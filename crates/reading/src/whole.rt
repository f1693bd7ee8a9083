// A whole text into tables.
ghost use Rattle.std.specs.Prelude.{◌≡◌, map};
ghost use Rattle.rows.specs.Rows.{placed_row};
ghost use Rattle.sheets.specs.Outcomes.{done};
ghost use Rattle.station.specs.Station.{station, empty};
ghost use Rattle.reading.specs.Reading.{judged, reading, Settles, Fills};

use crate::entries::Source;
use naming::{Index, first_unknown, incomplete};
use rows::{ReadingFault, Row};
use sheets::sheet;
use station::Tables;
use std::alloc::Global;

// The rows of a text of this length, into empty tables.
fn judge<'a>(
    rows: &[Row<'a>],
    length: usize,
    heap: Global,
    tables: &mut Tables,
) -> Result<(), ReadingFault>
    requires { station tables.old ≡ empty }
    ensures { Fills result (station tables.new) (judged length (done (map placed_row rows.now))) }
{
    let index = Index::new(rows, heap)?;
    // The first name is a finding of its own in the specifications, and becomes a fault only here.
    if let Some(at) = first_unknown(&index, rows) {
        return Err(ReadingFault::Undeclared(at));
    }
    if incomplete(rows) {
        return Err(ReadingFault::Incomplete(length));
    }
    let source = Source {
        rows,
        index: &index,
        heap,
    };
    source.add_rows(tables)?;
    Ok(())
}

fn fill(text: &[u8], heap: Global, tables: &mut Tables) -> Result<(), ReadingFault>
    requires { station tables.old ≡ empty }
    ensures { Fills result (station tables.new) (reading text.now) }
{
    let rows = sheet(text, heap)?;
    judge(rows.as_slice(), text.len(), heap, tables)
}

// Reads the text into the tables, whatever they held; on any refusal they are left empty.
pub fn read(text: &[u8], heap: Global, tables: &mut Tables) -> Result<(), ReadingFault>
    ensures { Settles result (station tables.new) (reading text.now) }
{
    tables.clear();
    let filled = fill(text, heap, tables);
    if filled.is_err() {
        tables.clear();
    }
    filled
}
