// Reads a station text from standard input, checks it, and says in one line what comes of it. Only an
// accepted station ends the program with status 0; for a person, the reason goes to standard error.
#![tactic(auto)]

use station::Tables;
use std::io::Read;
use std::process::ExitCode;
use verdicts::{Explained, Line, judge};

// One octet more than the longest text, so that a longer one is told.
const MOST: u64 = 32_769;

fn main(rt: HostRuntime) -> anyhow::Result<ExitCode> {
    let heap = rt.alloc();
    let mut text = Vec::new(heap);
    let mut input = rt.stdin().take(MOST);
    input.read_to_end(&mut text)?;
    let mut tables = Tables::new(heap);
    let mut board = [0u8; 64];
    let verdict = judge(text.as_slice(), heap, &mut tables, &mut board);
    let line = Line {
        tables: &tables,
        verdict,
    };
    println!(rt; "{line}")?;
    if verdict.is_ok() {
        return Ok(ExitCode::SUCCESS);
    }
    let explained = Explained {
        tables: &tables,
        verdict,
        text: text.as_slice(),
    };
    eprintln!(rt; "{explained}")?;
    Ok(ExitCode::FAILURE)
}
