// The layout, the row `*DATA` and the data.
ghost use Rattle.std.specs.Option.{option_map};
ghost use Rattle.text.specs.Ahead.{tokens_ahead, text_of};
ghost use Rattle.rows.specs.Faults.{Reads};
ghost use Rattle.rows.specs.Rows.{placed_row};
ghost use Rattle.sheets.specs.Outcomes.{Answers};
ghost use Rattle.sheets.specs.Layout.{rows_of};
ghost use Rattle.sheets.specs.Sections.{layout_turn, data_turn, sheet};

use crate::sofar::Sofar;
use forms::head_of;
use rows::{ReadingFault, Row, RowFault};
use std::alloc::Global;
use steps::{next_word, row_star, star_or_end};
use text::Reader;

// The longest text.
const LONGEST: usize = 32_768;

impl<'a> Sofar<'a> {
    // A row of the layout, or nothing where the data begins.
    fn layout_turn(&self, reader: &mut Reader<'a>) -> Result<Option<Row<'a>>, ReadingFault>
        ensures { Reads (option_map placed_row) result (tokens_ahead reader.new) (layout_turn (rows_of self.now.rows) (tokens_ahead reader.old)) }
    {
        row_star(reader)?;
        let w = next_word(reader)?;
        let head = head_of(w).ok_or(RowFault::Form(w.at))?;
        self.layout_row(reader, w.at, head)
    }

    // A row of the data, or nothing at the end of the text.
    fn data_turn(&self, reader: &mut Reader<'a>) -> Result<Option<Row<'a>>, ReadingFault>
        ensures { Reads (option_map placed_row) result (tokens_ahead reader.new) (data_turn (rows_of self.now.rows) (tokens_ahead reader.old)) }
    {
        let Some(_) = star_or_end(reader)? else {
            return Ok(None);
        };
        let word = next_word(reader)?;
        let head = head_of(word).ok_or(RowFault::Form(word.at))?;
        let row = self.data_row(reader, word.at, head)?;
        Ok(Some(row))
    }
}

// All the rows of a text.
pub fn sheet<'a>(text: &'a [u8], heap: Global) -> Result<Vec<Row<'a>>, ReadingFault>
    ensures { Answers rows_of result (sheet text.now) }
{
    if text.len() > LONGEST {
        return Err(ReadingFault::Size);
    }
    let mut reader = Reader::new(text);
    let mut sofar = Sofar {
        rows: Vec::new(heap),
        heap,
    };
    while let Some(row) = sofar.layout_turn(&mut reader)? {
        sofar.rows.push(row)?;
    }
    while let Some(row) = sofar.data_turn(&mut reader)? {
        sofar.rows.push(row)?;
    }
    Ok(sofar.rows)
}
