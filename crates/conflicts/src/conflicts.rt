// Rule 27: of every two routes, the request of the one keeps free the subroutes of the other in common segments.
ghost use Rattle.std.specs.Prelude.{◌≡◌};
ghost use Rattle.station.specs.Station.{station};
ghost use Rattle.conflicts.specs.Conflicts.{breach_27, Breach27};

use crate::marks::Marks;
use crate::pairs::Marked;
use lookups::route_count;
use station::Tables;

// The first route whose request leaves a subroute of another open, that other, and the lowest segment in which it does. The board is as it was, on every way out.
pub fn rule_27(tables: &Tables, board: &mut [u8; 64]) -> Option<(usize, usize, usize)>
    ensures value { result ≡ breach_27 (station tables.now) }
    ensures first { Breach27 (station tables.now) result }
    ensures same { board.new ≡ board.old }
{
    let mut marks = Marks::new(board);
    // A loop, since a closure that changes the board says nothing of what it leaves there.
    for route in 0..route_count(tables) {
        marks.show(tables, route);
        let marked = Marked {
            board: marks.board(),
            tables,
            route,
        };
        if let Some((other, segment)) = marked.first_conflict() {
            return Some((route, other, segment));
        }
    }
    None
}
