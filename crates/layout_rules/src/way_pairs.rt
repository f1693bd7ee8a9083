// Rule 13: two ways have not the same two joints, and two ways of one segment that share a joint have not all points alike.
ghost use Rattle.std.specs.Prelude.{◌≡◌, length};
ghost use Rattle.firsts.specs.Claims.{first_failing};
ghost use Rattle.station.specs.Station.{station};
ghost use Rattle.lookups.specs.Shapes.{shape_entry};
ghost use Rattle.layout_rules.specs.WayPairs.{same_joints, share_joint, points_alike, ways_apart, pair_apart, pair_of, breach_13, Breach13};

use crate::settings::within;
use firsts::{Claim, first_breach};
use lookups::{Shape, shape, way_count};
use station::Tables;

// Whether the ways have the same two joints, in either order.
fn same_joints(v: Shape<'_>, w: Shape<'_>) -> bool
    ensures { result ≡ same_joints (shape_entry v.entry) (shape_entry w.entry) }
{
    (v.from == w.from && v.to == w.to) || (v.from == w.to && v.to == w.from)
}

// Whether a joint of one way is a joint of the other.
fn share_joint(v: Shape<'_>, w: Shape<'_>) -> bool
    ensures { result ≡ share_joint (shape_entry v.entry) (shape_entry w.entry) }
{
    (v.from == w.from || v.from == w.to) || (v.to == w.from || v.to == w.to)
}

// Whether the points lie alike in both ways.
fn points_alike(v: Shape<'_>, w: Shape<'_>) -> bool
    ensures { result ≡ points_alike (shape_entry v.entry) (shape_entry w.entry) }
{
    within(v.settings, w.settings) && within(w.settings, v.settings)
}

fn ways_apart(v: Shape<'_>, w: Shape<'_>) -> bool
    ensures { result ≡ ways_apart (shape_entry v.entry) (shape_entry w.entry) }
{
    if same_joints(v, w) {
        return false;
    }
    if v.segment == w.segment && share_joint(v, w) {
        return !points_alike(v, w);
    }
    true
}

// Whether two ways, the first named first, can be told apart.
fn pair_apart(tables: &Tables, i: usize, j: usize) -> bool
    ensures { result ≡ pair_apart (station tables.now) (i, j) }
{
    i >= j || ways_apart(shape(tables, i), shape(tables, j))
}

// That a way can be told apart from the one named first.
#[derive(Clone, Copy)]
struct Partners<'a> {
    tables: &'a Tables,
    first: usize,
}

impl<'a> Claim<usize> for Partners<'a> {
    ghost holds = { λ s j. pair_apart (station s.tables.now) (s.first, j) };

    fn holds(&self, j: usize) -> bool {
        pair_apart(self.tables, self.first, j)
    }
}

// The first way that cannot be told apart from the one named first.
fn partner(tables: &Tables, i: usize) -> Option<usize>
    ensures { result ≡ first_failing (λ j. pair_apart (station tables.now) (i, j)) (length (station tables.now).ways) }
{
    first_breach(&Partners { tables, first: i }, way_count(tables))
}

// A way, and the first one that cannot be told apart from it.
fn pair_of(tables: &Tables, i: usize) -> Option<(usize, usize)>
    ensures { result ≡ pair_of (station tables.now) i }
{
    partner(tables, i).map(|j| (i, j))
}

// Not one search with rule 26's over pairs: it was tried, and what its inner closure ensures is not found.
fn first_pair(tables: &Tables) -> Option<(usize, usize)>
    ensures { result ≡ breach_13 (station tables.now) }
{
    (0..way_count(tables)).find_map(|i| pair_of(tables, i))
}

// The first two ways that cannot be told apart.
#[tactic(auto, using(crate::proofs::Told::first_13))]
pub fn rule_13(tables: &Tables) -> Option<(usize, usize)>
    ensures value { result ≡ breach_13 (station tables.now) }
    ensures first { Breach13 (station tables.now) result }
{
    first_pair(tables)
}
