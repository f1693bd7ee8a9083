// Rule 14: a signal stands at a joint of its segment, and no buffer stop lies across that joint.
ghost use Rattle.std.specs.Prelude.{◌≡◌};
ghost use Rattle.station.specs.Numbers.{signal_at};
ghost use Rattle.station.specs.Station.{station};
ghost use Rattle.layout_rules.specs.Signals.{sound_signal, breach_14, Breach14};

use firsts::{Claim, first_breach};
use lookups::{across, is_stop, signal, signal_count, touches};
use station::{Signal, Tables};

// Whether the signal stands at a joint of its segment, with no buffer stop across.
fn is_sound(tables: &Tables, x: Signal) -> bool
    ensures { result ≡ sound_signal (station tables.now) x }
{
    touches(tables, x.joint, x.segment) && !is_stop(across(tables, x.joint, x.segment))
}

// That a signal is sound.
#[derive(Clone, Copy)]
struct Signals<'a> {
    tables: &'a Tables,
}

impl<'a> Claim<usize> for Signals<'a> {
    ghost holds = { λ s n. sound_signal (station s.tables.now) (signal_at (station s.tables.now) n) };

    fn holds(&self, n: usize) -> bool {
        is_sound(self.tables, signal(self.tables, n))
    }
}

// The first signal that no train can pass into its segment.
#[tactic(auto, using(crate::proofs::Told::first_14))]
pub fn rule_14(tables: &Tables) -> Option<usize>
    ensures value { result ≡ breach_14 (station tables.now) }
    ensures first { Breach14 (station tables.now) result }
{
    first_breach(&Signals { tables }, signal_count(tables))
}
