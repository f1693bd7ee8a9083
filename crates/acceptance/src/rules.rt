// The rules in their order.
ghost use Rattle.std.specs.Prelude.{◌≡◌};
ghost use Rattle.station.specs.Station.{station};
ghost use Rattle.acceptance.specs.Breaches.{layout_breach, route_breach, lock_breach, conflict_breach, first_broken};

use crate::breaches::Breach;
use conflicts::rule_27;
use layout_rules::{rule_11, rule_12, rule_13, rule_14};
use lock_rules::{rule_25, rule_26};
use route_rules::{rule_21, rule_22, rule_23, rule_24};
use station::Tables;

// Rules 11 to 14.
fn layout(tables: &Tables) -> Option<Breach>
    ensures { result ≡ layout_breach (station tables.now) }
{
    rule_11(tables)
        .map(Breach::Joint)
        .or_else(|| rule_12(tables).map(Breach::Way))
        .or_else(|| rule_13(tables).map(|(v, w)| Breach::Ways(v, w)))
        .or_else(|| rule_14(tables).map(Breach::Signal))
}

// Rules 21 to 24.
fn routes(tables: &Tables) -> Option<Breach>
    ensures { result ≡ route_breach (station tables.now) }
{
    rule_21(tables)
        .map(Breach::Path)
        .or_else(|| rule_22(tables).map(Breach::Signals))
        .or_else(|| rule_23(tables).map(Breach::Request))
        .or_else(|| rule_24(tables).map(Breach::Activation))
}

// Rules 25 and 26.
fn locks(tables: &Tables) -> Option<Breach>
    ensures { result ≡ lock_breach (station tables.now) }
{
    rule_25(tables)
        .map(Breach::Release)
        .or_else(|| rule_26(tables).map(|(p, u)| Breach::Row(p, u)))
}

// Rule 27.
fn conflicts(tables: &Tables, board: &mut [u8; 64]) -> Option<Breach>
    ensures value { result ≡ conflict_breach (station tables.now) }
    ensures same { board.new ≡ board.old }
{
    rule_27(tables, board).map(|(r, o, t)| Breach::Conflict(r, o, t))
}

// The first rule that is broken, with its things. The board is as it was, on every way out.
pub(crate) fn first_broken(tables: &Tables, board: &mut [u8; 64]) -> Option<Breach>
    ensures value { result ≡ first_broken (station tables.now) }
    ensures same { board.new ≡ board.old }
{
    let broken = layout(tables)
        .or_else(|| routes(tables))
        .or_else(|| locks(tables));
    // Not by `or_else`: of a board that its closure changes nothing is promised.
    if broken.is_some() {
        return broken;
    }
    conflicts(tables, board)
}
