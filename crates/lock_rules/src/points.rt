// Rule 26: each row of a point tests free every used subroute of its home segment, or a zone that covers it.
ghost use Rattle.std.specs.Prelude.{◌≡◌};
ghost use Rattle.firsts.specs.Claims.{first_failing};
ghost use Rattle.station.specs.Station.{station};
ghost use Rattle.station.specs.Subroutes.{subroutes};
ghost use Rattle.lock_rules.specs.Points.{rows_guard, kept_26, breach_of, breach_26, Breach26};

use firsts::{Claim, first_breach};
use lookups::{home, normal_tests, point_count, reverse_tests, segment_of, subroute_count};
use paths::{point_guards, used};
use station::Tables;

// Whether both rows of the point keep the subroute free.
fn rows_guard(tables: &Tables, p: usize, u: usize) -> bool
    ensures { result ≡ rows_guard (station tables.now) p u }
{
    point_guards(tables, normal_tests(tables, p), u)
        && point_guards(tables, reverse_tests(tables, p), u)
}

// Whether the subroute lies elsewhere, is used by no route, or is kept free by both rows of the point.
fn kept(tables: &Tables, p: usize, u: usize) -> bool
    ensures { result ≡ kept_26 (station tables.now) (p, u) }
{
    segment_of(tables, u) != home(tables, p) || !used(tables, u) || rows_guard(tables, p, u)
}

// That no row of the point leaves a subroute open.
#[derive(Clone, Copy)]
struct Rows<'a> {
    tables: &'a Tables,
    point: usize,
}

impl<'a> Claim<usize> for Rows<'a> {
    ghost holds = { λ s u. kept_26 (station s.tables.now) (s.point, u) };

    fn holds(&self, u: usize) -> bool {
        kept(self.tables, self.point, u)
    }
}

// The first subroute that a row of the point leaves open.
fn first_open(tables: &Tables, p: usize) -> Option<usize>
    ensures { result ≡ first_failing (λ u. kept_26 (station tables.now) (p, u)) (subroutes (station tables.now)) }
{
    first_breach(&Rows { tables, point: p }, subroute_count(tables))
}

// A point, and the first subroute that a row of it leaves open.
fn breach_of(tables: &Tables, p: usize) -> Option<(usize, usize)>
    ensures { result ≡ breach_of (station tables.now) p }
{
    first_open(tables, p).map(|u| (p, u))
}

// Not one search with rule 13's over pairs: it was tried, and what its inner closure ensures is not found.
fn first_open_row(tables: &Tables) -> Option<(usize, usize)>
    ensures { result ≡ breach_26 (station tables.now) }
{
    (0..point_count(tables)).find_map(|p| breach_of(tables, p))
}

// The first point, and used subroute of its home segment, that a row of the point leaves open.
#[tactic(auto, using(crate::proofs::Told::first_26))]
pub fn rule_26(tables: &Tables) -> Option<(usize, usize)>
    ensures value { result ≡ breach_26 (station tables.now) }
    ensures first { Breach26 (station tables.now) result }
{
    first_open_row(tables)
}
