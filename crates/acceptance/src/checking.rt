// The check.
ghost use Rattle.std.specs.Prelude.{◌≡◌, Some, None, MatchResult};
ghost use Rattle.station.specs.Station.{station};
ghost use Rattle.acceptance.specs.Breaches.{first_broken};
ghost use Rattle.acceptance.specs.Soundness.{Sound, FirstBroken};

use crate::accepted::Accepted;
use crate::breaches::Breach;
use crate::rules::first_broken;
use station::Tables;

// Tables as they were read.
#[derive(Drop)]
pub struct Draft<'a> {
    tables: &'a Tables,
}

impl<'a> Draft<'a> {
    pub fn new(tables: &'a Tables) -> Draft<'a>
        ensures { result.tables.now ≡ tables.now }
    {
        Draft { tables }
    }

    pub fn tables(&self) -> &'a Tables
        ensures { result.now ≡ self.now.tables.now }
    {
        self.tables
    }

    // An accepted station where no rule is broken, else the draft with the first breach. The board is as it was.
    #[tactic(auto, using(crate::proofs::Verdicts::broken_some))]
    pub fn check(self, board: &mut [u8; 64]) -> Result<Accepted<'a>, (Draft<'a>, Breach)>
        ensures tables { MatchResult result (λ a. a.tables.now ≡ self.entry.tables.now) (λ p. p.0.tables.now ≡ self.entry.tables.now) }
        ensures value { MatchResult result (λ _. first_broken (station self.entry.tables.now) ≡ None) (λ p. first_broken (station self.entry.tables.now) ≡ Some p.1) }
        ensures rules { MatchResult result (λ _. Sound (station self.entry.tables.now)) (λ p. FirstBroken (station self.entry.tables.now) p.1) }
        ensures same { board.new ≡ board.old }
    {
        let Draft { tables } = self;
        // By a match, since the tables go on in either case.
        match first_broken(tables, board) {
            None => Ok(Accepted::new(tables)),
            Some(b) => Err((Draft { tables }, b)),
        }
    }
}
