// Runs a table of texts, given on standard input, through the library and prints what comes of each.
// A line `== LABEL` begins a case; the lines up to the next are its text. In it `\hh` is the octet with
// that hexadecimal number, and `\(N)` is N spaces.
#![tactic(auto)]

mod escapes;

use crate::escapes::Unescaper;
use station::Tables;
use std::alloc::Global;
use std::io::{BufRead, BufReader};
use verdicts::{Line, judge};

#[derive(Drop)]
struct Case {
    label: String,
    // none until a line of it has been seen
    text: Option<Vec<u8>>,
}

impl Case {
    fn new(heap: Global, label: &str) -> anyhow::Result<Case> {
        let label = String::from_str(heap, label)?;
        Ok(Case { label, text: None })
    }

    fn add_line(&mut self, heap: Global, line: &[u8]) -> anyhow::Result<()> {
        let mut text = match self.text.take() {
            Some(mut text) => {
                text.push(b'\n')?;
                text
            }
            None => Vec::new(heap),
        };
        Unescaper::new().add_all(line, &mut text)?;
        self.text = Some(text);
        Ok(())
    }

    // Reads the text and prints one line.
    fn run(&self, rt: &HostRuntime) -> anyhow::Result<()> {
        let heap = rt.alloc();
        let label = self.label.as_str();
        let mut tables = Tables::new(heap);
        let mut board = [7u8; 64];
        let text: &[u8] = self.text.as_ref().map_or(&[], |t| t.as_slice());
        let verdict = judge(text, heap, &mut tables, &mut board);
        let line = Line {
            tables: &tables,
            verdict,
        };
        println!(rt; "{label}: {line}")?;
        Ok(())
    }
}

fn main(rt: HostRuntime) -> anyhow::Result<()> {
    let heap = rt.alloc();
    let mut case = Case::new(heap, "")?;
    for line in BufReader::new(heap, rt.stdin())?.lines(heap) {
        let line = line?;
        if let Some(label) = line.as_str().strip_prefix("== ") {
            if case.text.is_some() {
                case.run(&rt)?;
            }
            case = Case::new(heap, label)?;
        } else {
            case.add_line(heap, line.as_bytes())?;
        }
    }
    case.run(&rt)
}
