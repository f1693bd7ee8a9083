// Lists of pairs, parted by commas.
ghost use Rattle.std.specs.Prelude.{◌≡◌, ◌<◌, map, length, OnOk};
ghost use Rattle.text.specs.Ahead.{tokens_ahead};
ghost use Rattle.text.specs.Out.{a_comma};
ghost use Rattle.forms.specs.Lists.{most};
ghost use Rattle.forms.specs.Things.{placed};
ghost use Rattle.rows.specs.Faults.{row_out, Reads};
ghost use Rattle.rows.specs.Rows.{placed_pair};
ghost use Rattle.steps.specs.Pairs.{runs, in_path, subroutes, path_full, too_many, a_list_begins, a_pair, a_list, pairs_of};

use crate::words::next_word;
use forms::{Listing, State, Thing, thing_of};
use rows::{Pair, ReadingFault, RowFault};
use std::alloc::Global;
use text::{Reader, Token};

// The most subroutes that a path may have.
const LONGEST_PATH: usize = 12;

fn is_subroute<'a>(thing: Thing<'a>) -> bool
    ensures { result ≡ runs (placed thing.entry) }
{
    matches!(thing, Thing::Subroute(_, _))
}

// Whether the list is the one whose subroutes are a path.
fn has_path(list: Listing) -> bool
    ensures { result ≡ in_path list }
{
    matches!(list, Listing::Actions)
}

// How many pairs are about subroutes.
#[tactic(auto, unfolding(crate::specs::Pairs::subroutes))]
fn subroutes<'a>(taken: &[Pair<'a>]) -> usize
    ensures { result ≡ subroutes (map placed_pair taken.now) }
{
    taken.iter().filter(|p| is_subroute(p.thing)).count()
}

// Whether one subroute more makes the path too long.
fn path_full<'a>(list: Listing, taken: &[Pair<'a>], thing: Thing<'a>) -> bool
    ensures { result ≡ path_full list (map placed_pair taken.now) (placed thing.entry) }
{
    has_path(list) && is_subroute(thing) && subroutes(taken) >= LONGEST_PATH
}

// Whether one pair more, about this thing, is too many. A struct of list and pairs would be made at its one call alone.
fn too_many<'a>(list: Listing, taken: &[Pair<'a>], thing: Thing<'a>) -> bool
    ensures { result ≡ too_many list (map placed_pair taken.now) (placed thing.entry) }
{
    taken.len() >= list.most() || path_full(list, taken, thing)
}

// A thing that may stand in the list, and a state that it takes there.
fn next_pair<'a>(
    reader: &mut Reader<'a>,
    list: Listing,
    taken: &[Pair<'a>],
) -> Result<Pair<'a>, RowFault>
    ensures value { row_out placed_pair result (tokens_ahead reader.new) ≡ a_pair list (map placed_pair taken.now) (tokens_ahead reader.old) }
    ensures few { OnOk result (length taken.now < most list) }
{
    let w = next_word(reader)?;
    let thing = thing_of(w).ok_or(RowFault::Form(w.at))?;
    let states = list.choice(thing);
    if states.is_empty() {
        return Err(RowFault::Form(w.at));
    }
    if too_many(list, taken, thing) {
        return Err(RowFault::Limit(w.at));
    }
    let s = next_word(reader)?;
    let state = State::among(states, s.octets).ok_or(RowFault::Form(s.at))?;
    Ok(Pair { thing, state })
}

// Whether a pair comes next: a word other than `then`.
fn list_begins<'a>(reader: &Reader<'a>) -> Result<bool, RowFault>
    ensures { row_out (λ b. b) result (tokens_ahead reader.now) ≡ a_list_begins (tokens_ahead reader.now) }
{
    Ok(matches!(reader.peek()?, Some(Token::Word(w)) if w.octets != b"then".as_slice()))
}

fn comma<'a>(reader: &mut Reader<'a>) -> Result<bool, RowFault>
    ensures { row_out (λ b. b) result (tokens_ahead reader.new) ≡ a_comma (tokens_ahead reader.old) }
{
    Ok(reader.comma()?)
}

// A list of pairs, which may be empty.
pub fn pairs<'a>(
    reader: &mut Reader<'a>,
    heap: Global,
    list: Listing,
) -> Result<Vec<Pair<'a>>, ReadingFault>
    ensures { Reads pairs_of result (tokens_ahead reader.new) (a_list list (tokens_ahead reader.old)) }
{
    let mut taken = Vec::new(heap);
    // A flag is plainest here: a first pair is due by another test than those behind commas.
    let mut more = list_begins(reader)?;
    while more {
        let pair = next_pair(reader, list, taken.as_slice())?;
        taken.push(pair)?;
        more = comma(reader)?;
    }
    Ok(taken)
}
