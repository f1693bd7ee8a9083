// Words of a form.
ghost use Rattle.std.specs.Prelude.{◌≡◌};
ghost use Rattle.text.specs.Ahead.{tokens_ahead};
ghost use Rattle.forms.specs.Things.{spelled, spot};
ghost use Rattle.rows.specs.Faults.{row_out};
ghost use Rattle.rows.specs.Rows.{placed_far};
ghost use Rattle.steps.specs.Words.{a_word, a_keyword, a_segment, a_joint, a_point, a_far, a_star, a_star_or_end};

use forms::{Name, joint_of, point_of, segment_of};
use rows::{Far, RowFault};
use text::{Reader, Token, Word};

// A word.
pub fn next_word<'a>(reader: &mut Reader<'a>) -> Result<Word<'a>, RowFault>
    ensures { row_out spelled result (tokens_ahead reader.new) ≡ a_word (tokens_ahead reader.old) }
{
    match reader.next()? {
        Some(Token::Word(w)) => Ok(w),
        Some(Token::Star(at) | Token::Comma(at)) => Err(RowFault::Form(at)),
        None => Err(RowFault::Form(reader.end())),
    }
}

// Just this word.
pub fn keyword<'a>(reader: &mut Reader<'a>, text: &[u8]) -> Result<Word<'a>, RowFault>
    ensures { row_out spelled result (tokens_ahead reader.new) ≡ a_keyword text.now (tokens_ahead reader.old) }
{
    let w = next_word(reader)?;
    if w.octets == text {
        Ok(w)
    } else {
        Err(RowFault::Form(w.at))
    }
}

// `T_x`. This and the next two are two lines each: one function over their form would need a longer contract.
pub fn segment<'a>(reader: &mut Reader<'a>) -> Result<Name<'a>, RowFault>
    ensures { row_out spot result (tokens_ahead reader.new) ≡ a_segment (tokens_ahead reader.old) }
{
    let w = next_word(reader)?;
    segment_of(w).ok_or(RowFault::Form(w.at))
}

// A joint's name.
pub fn joint<'a>(reader: &mut Reader<'a>) -> Result<Name<'a>, RowFault>
    ensures { row_out spot result (tokens_ahead reader.new) ≡ a_joint (tokens_ahead reader.old) }
{
    let w = next_word(reader)?;
    joint_of(w).ok_or(RowFault::Form(w.at))
}

// `P_x`
pub fn point<'a>(reader: &mut Reader<'a>) -> Result<Name<'a>, RowFault>
    ensures { row_out spot result (tokens_ahead reader.new) ≡ a_point (tokens_ahead reader.old) }
{
    let w = next_word(reader)?;
    point_of(w).ok_or(RowFault::Form(w.at))
}

// A segment, `OUT` or `END`.
pub fn far<'a>(reader: &mut Reader<'a>) -> Result<Far<'a>, RowFault>
    ensures { row_out placed_far result (tokens_ahead reader.new) ≡ a_far (tokens_ahead reader.old) }
{
    let w = next_word(reader)?;
    match w.octets {
        b"OUT" => Ok(Far::Outside),
        b"END" => Ok(Far::BufferStop),
        _ => segment_of(w).map(Far::Segment).ok_or(RowFault::Form(w.at)),
    }
}

// The star of a row.
pub fn row_star<'a>(reader: &mut Reader<'a>) -> Result<usize, RowFault>
    ensures { row_out (λ i. i) result (tokens_ahead reader.new) ≡ a_star (tokens_ahead reader.old) }
{
    match reader.next()? {
        Some(Token::Star(at)) => Ok(at),
        Some(Token::Comma(at) | Token::Word(Word { at, .. })) => Err(RowFault::Form(at)),
        None => Err(RowFault::Form(reader.end())),
    }
}

// The star of a row, or nothing at the end of the text. By a match, since one arm reads on and may refuse.
pub fn star_or_end<'a>(reader: &mut Reader<'a>) -> Result<Option<usize>, RowFault>
    ensures { row_out (λ o. o) result (tokens_ahead reader.new) ≡ a_star_or_end (tokens_ahead reader.old) }
{
    match reader.peek()? {
        Some(_) => Ok(Some(row_star(reader)?)),
        None => Ok(None),
    }
}
