// The numbers of the rules.
ghost use Rattle.std.specs.Prelude.{◌≡◌};
ghost use Rattle.acceptance.specs.Breaches.{number};

use crate::breaches::Breach;

impl Breach {
    // The number of the rule that is broken.
    pub fn number(self) -> u8
        ensures { result ≡ number self }
    {
        match self {
            Breach::Joint(_) => 11,
            Breach::Way(_) => 12,
            Breach::Ways(_, _) => 13,
            Breach::Signal(_) => 14,
            Breach::Path(_) => 21,
            Breach::Signals(_) => 22,
            Breach::Request(_) => 23,
            Breach::Activation(_) => 24,
            Breach::Release(_) => 25,
            Breach::Row(_, _) => 26,
            Breach::Conflict(_, _, _) => 27,
        }
    }
}
