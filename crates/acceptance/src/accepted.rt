// Tables that have passed the check.
ghost use Rattle.std.specs.Prelude.{◌≡◌, true};
ghost use Rattle.station.specs.Station.{station};
ghost use Rattle.acceptance.specs.Soundness.{sound};

use station::Tables;

#[derive(Drop)]
pub struct Accepted<'a> {
    tables: &'a Tables,
    ghost ok: { sound (station tables.now) ≡ true },
}

impl<'a> Accepted<'a> {
    // Only the check calls it.
    pub(crate) fn new(tables: &'a Tables) -> Accepted<'a>
        requires { sound (station tables.now) ≡ true }
        ensures { result.tables.now ≡ tables.now }
    {
        Accepted { tables }
    }

    pub fn tables(&self) -> &'a Tables
        ensures tables { result.now ≡ self.now.tables.now }
        ensures sound { sound (station result.now) ≡ true }
    {
        self.tables
    }
}
