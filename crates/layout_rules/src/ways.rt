// Rule 12: a way runs between two joints of its segment, and says of each home point once how it lies, and of no other.
ghost use Rattle.std.specs.Prelude.{◌≡◌};
ghost use Rattle.firsts.specs.Lists.{all};
ghost use Rattle.lookups.specs.Shapes.{shape_entry};
ghost use Rattle.station.specs.Station.{station};
ghost use Rattle.layout_rules.specs.Ways.{at_home, joints_fit, all_named, points_fit, sound_way, breach_12, Breach12};

use crate::settings::{names, once_each};
use firsts::{Claim, first_breach};
use lookups::{Shape, home, point_count, shape, touches, way_count};
use station::Tables;

// Whether the way's ends are two different joints of its segment.
fn joints_fit(tables: &Tables, way: Shape<'_>) -> bool
    ensures { result ≡ joints_fit (station tables.now) (shape_entry way.entry).segment (shape_entry way.entry).from (shape_entry way.entry).to }
{
    way.from != way.to
        && touches(tables, way.from, way.segment)
        && touches(tables, way.to, way.segment)
}

// Whether the point is declared, with the segment as its home.
fn at_home(tables: &Tables, segment: usize, p: usize) -> bool
    ensures { result ≡ at_home (station tables.now) segment p }
{
    p < point_count(tables) && home(tables, p) == segment
}

// Whether every setting is of a home point of the segment.
fn all_home(tables: &Tables, way: Shape<'_>) -> bool
    ensures { result ≡ all (λ x. at_home (station tables.now) (shape_entry way.entry).segment x.point) (shape_entry way.entry).settings }
{
    way.settings
        .iter()
        .all(|x| at_home(tables, way.segment, x.point))
}

// Whether every home point of the segment is named.
fn all_named(tables: &Tables, way: Shape<'_>) -> bool
    ensures { result ≡ all_named (station tables.now) (shape_entry way.entry).segment (shape_entry way.entry).settings }
{
    (0..point_count(tables)).all(|p| home(tables, p) != way.segment || names(way.settings, p))
}

// Whether the settings name just the home points of the segment, each once.
fn points_fit(tables: &Tables, way: Shape<'_>) -> bool
    ensures { result ≡ points_fit (station tables.now) (shape_entry way.entry).segment (shape_entry way.entry).settings }
{
    all_home(tables, way) && all_named(tables, way) && once_each(way.settings)
}

// Whether the way fits its segment.
fn is_sound(tables: &Tables, w: usize) -> bool
    ensures { result ≡ sound_way (station tables.now) w }
{
    let way = shape(tables, w);
    joints_fit(tables, way) && points_fit(tables, way)
}

// That a way fits its segment.
#[derive(Clone, Copy)]
struct Ways<'a> {
    tables: &'a Tables,
}

impl<'a> Claim<usize> for Ways<'a> {
    ghost holds = { λ s w. sound_way (station s.tables.now) w };

    fn holds(&self, w: usize) -> bool {
        is_sound(self.tables, w)
    }
}

// The first way that does not fit its segment.
#[tactic(auto, using(crate::proofs::Told::first_12))]
pub fn rule_12(tables: &Tables) -> Option<usize>
    ensures value { result ≡ breach_12 (station tables.now) }
    ensures first { Breach12 (station tables.now) result }
{
    first_breach(&Ways { tables }, way_count(tables))
}
