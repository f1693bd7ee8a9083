// Rule 11: a joint has not the same segment on both sides.
ghost use Rattle.std.specs.Prelude.{◌≡◌};
ghost use Rattle.station.specs.Station.{station};
ghost use Rattle.layout_rules.specs.Sides.{parts, breach_11, Breach11};

use firsts::{Claim, first_breach};
use lookups::{is_segment, joint, joint_count};
use station::Tables;

// Whether the joint has not the same segment on both sides.
fn parts(tables: &Tables, j: usize) -> bool
    ensures { result ≡ parts (station tables.now) j }
{
    joint(tables, j).is_some_and(|x| !is_segment(x.beyond, x.segment))
}

// That a joint has not the same segment on both sides.
#[derive(Clone, Copy)]
struct Sides<'a> {
    tables: &'a Tables,
}

impl<'a> Claim<usize> for Sides<'a> {
    ghost holds = { λ s j. parts (station s.tables.now) j };

    fn holds(&self, j: usize) -> bool {
        parts(self.tables, j)
    }
}

// The first joint that has the same segment on both sides.
#[tactic(auto, using(crate::proofs::Told::first_11))]
pub fn rule_11(tables: &Tables) -> Option<usize>
    ensures value { result ≡ breach_11 (station tables.now) }
    ensures first { Breach11 (station tables.now) result }
{
    first_breach(&Sides { tables }, joint_count(tables))
}
