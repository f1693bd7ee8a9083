// Rows that a station must have.
ghost use Rattle.std.specs.Prelude.{◌≡◌, map};
ghost use Rattle.forms.specs.Things.{placed};
ghost use Rattle.rows.specs.Rows.{placed_row};
ghost use Rattle.naming.specs.Missing.{unreleased, lacking, incomplete};

use forms::Thing;
use rows::{Key, Kind, Row, full, known};

// Whether the thing is a subroute without a release row.
fn unreleased<'a>(rows: &[Row<'a>], thing: Thing<'a>) -> bool
    ensures { result ≡ unreleased (map placed_row rows.now) (placed thing.entry) }
{
    match thing {
        Thing::Subroute(from, to) => !known(rows, Kind::Release, Key::from((from, to))),
        _ => false,
    }
}

// Whether the row wants another that is not there.
fn lacking<'a>(rows: &[Row<'a>], row: &Row<'a>) -> bool
    ensures { result ≡ lacking (map placed_row rows.now) (placed_row row.now) }
{
    match row {
        Row::Point(p) => {
            !known(rows, Kind::NormalMove, Key::from(p.name))
                || !known(rows, Kind::ReverseMove, Key::from(p.name))
        }
        Row::Request(q) => {
            !known(rows, Kind::Activation, Key::from(q.route))
                || q.actions.iter().any(|p| unreleased(rows, p.thing))
        }
        _ => false,
    }
}

// Whether there is no segment, no route, or a row lacks another.
pub fn incomplete<'a>(rows: &[Row<'a>]) -> bool
    ensures { result ≡ incomplete (map placed_row rows.now) }
{
    !full(rows, Kind::Segment, 1)
        || !full(rows, Kind::Request, 1)
        || rows.iter().any(|r| lacking(rows, r))
}
