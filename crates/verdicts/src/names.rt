// The line that the checker prints.
use crate::verdict::{Counts, Rejection, Verdict};
use acceptance::Breach;
use station::{Name, Tables};
use std::fmt;

// A thing of the tables, by its number.
#[derive(Clone, Copy)]
enum Thing {
    Joint(usize),
    Signal(usize),
    Route(usize),
    Subroute(usize),
    Point(usize),
    Segment(usize),
}

#[derive(Clone, Copy)]
struct Shown<'a> {
    tables: &'a Tables,
    thing: Thing,
}

impl fmt::Display for Shown<'_> {
    fn fmt<W: fmt::Write>(&self, f: &mut fmt::Formatter<W>) -> fmt::Result {
        let tables = self.tables;
        match self.thing {
            Thing::Joint(j) => joint(tables, j, f),
            Thing::Signal(x) => signal(tables, x, f),
            Thing::Route(r) => named("R", tables.routes.get(r).map(|x| &x.name), r, f),
            Thing::Subroute(u) => subroute(tables, u, f),
            Thing::Point(p) => named("P", tables.points.get(p).map(|x| &x.name), p, f),
            Thing::Segment(t) => segment(tables, t, f),
        }
    }
}

// A name after the letter of its kind, or the number where there is none.
fn named<W: fmt::Write>(
    letter: &str,
    name: Option<&Name>,
    n: usize,
    f: &mut fmt::Formatter<W>,
) -> fmt::Result {
    match name {
        Some(name) => write!(f, "{letter}_{name}"),
        None => write!(f, "{letter}#{n}"),
    }
}

fn segment<W: fmt::Write>(tables: &Tables, t: usize, f: &mut fmt::Formatter<W>) -> fmt::Result {
    named("T", tables.segments.get(t).map(|x| &x.name), t, f)
}

// A joint's name stands without a letter.
fn joint<W: fmt::Write>(tables: &Tables, j: usize, f: &mut fmt::Formatter<W>) -> fmt::Result {
    match tables.joints.get(j) {
        Some(joint) => {
            let name = &joint.name;
            write!(f, "{name}")
        }
        None => write!(f, "#{j}"),
    }
}

// A signal as its joint and its segment.
fn signal<W: fmt::Write>(tables: &Tables, x: usize, f: &mut fmt::Formatter<W>) -> fmt::Result {
    match tables.signals.get(x) {
        Some(signal) => {
            joint(tables, signal.joint, f)?;
            write!(f, " ")?;
            segment(tables, signal.segment, f)
        }
        None => write!(f, "#{x}"),
    }
}

// A subroute as its joints in the direction in which it runs.
fn subroute<W: fmt::Write>(tables: &Tables, u: usize, f: &mut fmt::Formatter<W>) -> fmt::Result {
    let Some(way) = tables.ways.get(u / 2) else {
        return write!(f, "U#{u}");
    };
    let (start, end) = if u % 2 == 0 {
        (way.from, way.to)
    } else {
        (way.to, way.from)
    };
    write!(f, "U_")?;
    joint(tables, start, f)?;
    write!(f, "_")?;
    joint(tables, end, f)
}

// A way, shown as its subroute in written order.
fn along(w: usize) -> Thing {
    Thing::Subroute(w.saturating_mul(2))
}

// A breach's things, each with a space before it.
fn things<W: fmt::Write>(
    tables: &Tables,
    breach: Breach,
    f: &mut fmt::Formatter<W>,
) -> fmt::Result {
    let named = match breach {
        Breach::Joint(j) => [Some(Thing::Joint(j)), None, None],
        Breach::Way(w) => [Some(along(w)), None, None],
        Breach::Ways(v, w) => [Some(along(v)), Some(along(w)), None],
        Breach::Signal(x) => [Some(Thing::Signal(x)), None, None],
        Breach::Path(r) | Breach::Signals(r) | Breach::Request(r) | Breach::Activation(r) => {
            [Some(Thing::Route(r)), None, None]
        }
        Breach::Release(u) => [Some(Thing::Subroute(u)), None, None],
        Breach::Row(p, u) => [Some(Thing::Point(p)), Some(Thing::Subroute(u)), None],
        Breach::Conflict(r, o, t) => [
            Some(Thing::Route(r)),
            Some(Thing::Route(o)),
            Some(Thing::Segment(t)),
        ],
    };
    for thing in named.into_iter().flatten() {
        let shown = Shown { tables, thing };
        write!(f, " {shown}")?;
    }
    Ok(())
}

// The answer in one line; the tables are those that were read.
#[derive(Clone, Copy)]
pub struct Line<'a> {
    pub tables: &'a Tables,
    pub verdict: Verdict,
}

impl fmt::Display for Line<'_> {
    fn fmt<W: fmt::Write>(&self, f: &mut fmt::Formatter<W>) -> fmt::Result {
        match self.verdict {
            Ok(Counts { segments, routes }) => {
                write!(f, "ACCEPTED segments {segments} routes {routes}")
            }
            Err(Rejection::Broken(breach)) => {
                let number = breach.number();
                write!(f, "REFUSED {number}")?;
                things(self.tables, breach, f)
            }
            Err(Rejection::Unread(fault)) => match fault.code() {
                Some((number, at)) => write!(f, "UNREAD {number} {at}"),
                None => write!(f, "no memory for the tables"),
            },
        }
    }
}
