// Subroutes by number. One that runs no way of the tables starts, ends and lies at 0.
ghost use Rattle.std.specs.Prelude.{◌≡◌};
ghost use Rattle.station.specs.Station.{station};
ghost use Rattle.station.specs.Numbers.{way_at};
ghost use Rattle.station.specs.Subroutes.{segment_of, settings_of, start, end};
ghost use Rattle.lookups.specs.Shapes.{shape_entry};

use crate::numbers::way;
use crate::shapes::Shape;
use station::{Setting, Tables};

pub fn segment_of(tables: &Tables, u: usize) -> usize
    ensures { result ≡ segment_of (station tables.now) u }
{
    way(tables, u / 2).map_or(0, |w| w.segment)
}

// The joints of a subroute, the one at which it starts first.
fn ends(tables: &Tables, u: usize) -> (usize, usize)
    ensures start { result.0 ≡ start (station tables.now) u }
    ensures end { result.1 ≡ end (station tables.now) u }
{
    way(tables, u / 2).map_or(
        (0, 0),
        |w| if u % 2 == 1 {
            (w.to, w.from)
        } else {
            (w.from, w.to)
        },
    )
}

// The joint at which a subroute starts; this and the next each take one of the ends.
pub fn start(tables: &Tables, u: usize) -> usize
    ensures { result ≡ start (station tables.now) u }
{
    ends(tables, u).0
}

// The joint at which a subroute ends.
pub fn end(tables: &Tables, u: usize) -> usize
    ensures { result ≡ end (station tables.now) u }
{
    ends(tables, u).1
}

// The points of a subroute's way, as it wants them.
pub fn settings_of(tables: &Tables, u: usize) -> &[Setting]
    ensures { result.now ≡ settings_of (station tables.now) u }
{
    way(tables, u / 2).map_or(&[], |w| w.settings.as_slice())
}

// The shape of a way; one that is lacking lies at 0.
pub fn shape(tables: &Tables, w: usize) -> Shape<'_>
    ensures { shape_entry result ≡ way_at (station tables.now) w }
{
    let nowhere = Shape {
        segment: 0,
        from: 0,
        to: 0,
        settings: &[],
    };
    way(tables, w).map_or(
        nowhere,
        |x| Shape {
            segment: x.segment,
            from: x.from,
            to: x.to,
            settings: x.settings.as_slice(),
        },
    )
}
