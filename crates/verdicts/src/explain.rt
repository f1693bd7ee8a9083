// Explanations for a person.
use crate::names::Line;
use crate::places::place_of;
use crate::verdict::{Rejection, Verdict};
use acceptance::Breach;
use rows::{ReadingFault, RowFault};
use station::Tables;
use std::fmt;
use text::WordFault;

// What the rule that a breach is of wants.
fn rule_text(breach: Breach) -> &'static str {
    match breach {
        Breach::Joint(_) => "a joint has not the same segment on both sides",
        Breach::Way(_) => {
            "a way joins two different joints of its segment and sets each of the segment's points once, and no other"
        }
        Breach::Ways(_, _) => {
            "no two ways have the same two joints, and ways of one segment that share a joint set some point differently"
        }
        Breach::Signal(_) => {
            "a signal stands at a joint of its segment with no buffer stop beyond"
        }
        Breach::Path(_) => {
            "a route's path has a subroute, runs from each end to the next start, and comes into no segment twice"
        }
        Breach::Signals(_) => {
            "a route begins at a signal, has none in its direction at an inner joint, and ends at a signal onward, outside or at a buffer stop"
        }
        Breach::Request(_) => {
            "a request tests its own route's xs, sets its own route only, drives each point once at most and under the cf test of that side, and drives the points of its path as its ways lie"
        }
        Breach::Activation(_) => {
            "an activation tests each point of the path as its way lies, and each segment of the path clear"
        }
        Breach::Release(_) => {
            "a used subroute's release tests its segment clear, the xs of each route that it begins, and each subroute just before it on a path free"
        }
        Breach::Row(_, _) => {
            "both rows of a point test each used subroute of its home segment free, or a zone that covers it"
        }
        Breach::Conflict(_, _, _) => {
            "a request tests each subroute of any route in a segment of its own path free, or a zone that covers it"
        }
    }
}

// What a fault of reading is.
fn fault_text(fault: ReadingFault) -> &'static str {
    match fault {
        ReadingFault::Size => "the text has more than 32768 octets",
        ReadingFault::Row(RowFault::Word(WordFault::Octet(_))) => {
            "this word has an octet that is no letter, digit, `_`, `(` or `)`"
        }
        ReadingFault::Row(RowFault::Word(WordFault::Long(_)) | RowFault::Form(_)) => {
            "this has no form that may stand here, or the text ends too early"
        }
        ReadingFault::Row(RowFault::Limit(_)) => "this is one more than the limit allows",
        ReadingFault::Row(RowFault::Twice(_)) => "this thing or row is there already",
        ReadingFault::Undeclared(_) => "nothing declares this name",
        ReadingFault::Incomplete(_) => {
            "a row is missing: a segment, a route, a route's activation row, a point's N or R row, or the release row of a used subroute"
        }
        // not asked for: it has no place in the text
        ReadingFault::Memory => "no memory for the tables",
    }
}

// An answer that is no acceptance, with the reason in words.
#[derive(Clone, Copy)]
pub struct Explained<'a> {
    pub tables: &'a Tables,
    pub verdict: Verdict,
    pub text: &'a [u8],
}

impl fmt::Display for Explained<'_> {
    fn fmt<W: fmt::Write>(&self, f: &mut fmt::Formatter<W>) -> fmt::Result {
        let line = Line {
            tables: self.tables,
            verdict: self.verdict,
        };
        match self.verdict {
            Ok(_) => write!(f, "{line}"),
            Err(Rejection::Broken(breach)) => {
                let wanted = rule_text(breach);
                write!(f, "{line}: {wanted}")
            }
            Err(Rejection::Unread(fault)) => match fault.code() {
                Some((_, at)) => {
                    let reason = fault_text(fault);
                    let place = place_of(self.text, at);
                    let row = place.lines.saturating_add(1);
                    let column = place.octets.saturating_add(1);
                    write!(f, "line {row}, column {column}: {reason}")
                }
                None => write!(f, "{line}"),
            },
        }
    }
}
