// Reading and check as one answer.
ghost use Rattle.std.specs.Prelude.{◌≡◌, length, MatchResult};
ghost use Rattle.station.specs.Station.{station};
ghost use Rattle.reading.specs.Reading.{reading};
ghost use Rattle.verdicts.specs.Verdicts.{accepted, broken, checked, verdict, Judges, Holds, WhenRead};
ghost use Rattle.verdicts.specs.declared.verdict.Rejection.TheVariants.{Unread, Broken};
ghost use Rattle.writing.specs.Written.{Written};

use acceptance::{Breach, Draft};
use rows::ReadingFault;
use station::Tables;
use std::alloc::Global;
use writing::read;

// What an accepted station has.
#[derive(Clone, Copy, PartialEq)]
pub struct Counts {
    pub segments: usize,
    pub routes: usize,
}

// Why a text is not accepted.
#[derive(Clone, Copy)]
pub enum Rejection {
    // it is no station text, or there was no memory for its tables
    Unread(ReadingFault),
    // the first rule that is broken, and by what
    Broken(Breach),
}

impl From<ReadingFault> for Rejection {
    ghost from_gives = { λ e r. r ≡ Unread e };

    fn from(e: ReadingFault) -> Rejection {
        Rejection::Unread(e)
    }
}

impl From<Breach> for Rejection {
    ghost from_gives = { λ b r. r ≡ Broken b };

    fn from(b: Breach) -> Rejection {
        Rejection::Broken(b)
    }
}

pub type Verdict = Result<Counts, Rejection>;

fn counted(tables: &Tables) -> Counts
    ensures segments { result.segments ≡ length (station tables.now).segments }
    ensures routes { result.routes ≡ length (station tables.now).routes }
{
    Counts {
        segments: tables.segments.len(),
        routes: tables.routes.len(),
    }
}

fn check(tables: &Tables, board: &mut [u8; 64]) -> Result<Counts, Breach>
    ensures value { MatchResult result (λ n. accepted n.segments n.routes ≡ checked (station tables.now)) (λ b. broken b ≡ checked (station tables.now)) }
    ensures same { board.new ≡ board.old }
{
    Draft::new(tables)
        .check(board)
        .map(|_| counted(tables))
        .map_err(|(_, breach)| breach)
}

// What the text comes to; the tables then hold what was read, and the board what it held before.
pub fn judge(text: &[u8], heap: Global, tables: &mut Tables, board: &mut [u8; 64]) -> Verdict
    ensures value { Judges result (verdict text.now) }
    ensures tables { Holds result (station tables.new) (reading text.now) }
    ensures written { WhenRead result (Written text.now (station tables.new)) }
    ensures same { board.new ≡ board.old }
{
    read(text, heap, tables)?;
    Ok(check(tables, board)?)
}
