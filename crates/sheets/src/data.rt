// Rows of the data. A row's first word has been read: it names what the row is about.
ghost use Rattle.text.specs.Ahead.{tokens_ahead};
ghost use Rattle.forms.specs.Heads.{headed};
ghost use Rattle.forms.specs.Things.{spot};
ghost use Rattle.rows.specs.Faults.{Reads};
ghost use Rattle.rows.specs.Rows.{placed_row};
ghost use Rattle.sheets.specs.Layout.{rows_of};
ghost use Rattle.sheets.specs.Data.{a_request_row, an_activation_row, a_move_row, a_release_row, a_zone_row, a_data_row};

use crate::sofar::Sofar;
use forms::{Head, Listing, Name};
use rows::{
    ActivationRow, Key, Kind, MoveRow, ReadingFault, ReleaseRow, RequestRow, Row, RowFault, ZoneRow,
};
use station::Position;
use steps::{keyword, pairs};
use text::Reader;

const ROUTES: usize = 48;

const ZONES: usize = 32;

impl<'a> Sofar<'a> {
    fn request_row(&self, reader: &mut Reader<'a>, route: Name<'a>) -> Result<Row<'a>, ReadingFault>
        ensures { Reads placed_row result (tokens_ahead reader.new) (a_request_row (rows_of self.now.rows) (spot route.entry) (tokens_ahead reader.old)) }
    {
        self.room(Kind::Request, ROUTES, route.at)?;
        self.fresh(Kind::Request, Key::from(route), route.at)?;
        keyword(reader, b"if")?;
        let tests = pairs(reader, self.heap, Listing::RequestTests)?;
        keyword(reader, b"then")?;
        let actions = pairs(reader, self.heap, Listing::Actions)?;
        Ok(Row::Request(RequestRow {
            route,
            tests,
            actions,
        }))
    }

    fn activation_row(
        &self,
        reader: &mut Reader<'a>,
        route: Name<'a>,
    ) -> Result<Row<'a>, ReadingFault>
        ensures { Reads placed_row result (tokens_ahead reader.new) (an_activation_row (rows_of self.now.rows) (spot route.entry) (tokens_ahead reader.old)) }
    {
        self.fresh(Kind::Activation, Key::from(route), route.at)?;
        let tests = pairs(reader, self.heap, Listing::ActivationTests)?;
        Ok(Row::Activation(ActivationRow { route, tests }))
    }

    fn move_row(
        &self,
        reader: &mut Reader<'a>,
        point: Name<'a>,
        position: Position,
    ) -> Result<Row<'a>, ReadingFault>
        ensures { Reads placed_row result (tokens_ahead reader.new) (a_move_row (rows_of self.now.rows) (spot point.entry) position (tokens_ahead reader.old)) }
    {
        self.fresh(Kind::from(position), Key::from(point), point.at)?;
        let tests = pairs(reader, self.heap, Listing::PointTests)?;
        Ok(Row::Move(MoveRow {
            point,
            position,
            tests,
        }))
    }

    fn release_row(
        &self,
        reader: &mut Reader<'a>,
        from: Name<'a>,
        to: Name<'a>,
    ) -> Result<Row<'a>, ReadingFault>
        ensures { Reads placed_row result (tokens_ahead reader.new) (a_release_row (rows_of self.now.rows) (spot from.entry) (spot to.entry) (tokens_ahead reader.old)) }
    {
        self.fresh(Kind::Release, Key::from((from, to)), from.at)?;
        let tests = pairs(reader, self.heap, Listing::ReleaseTests)?;
        Ok(Row::Release(ReleaseRow { from, to, tests }))
    }

    fn zone_row(&self, reader: &mut Reader<'a>, zone: Name<'a>) -> Result<Row<'a>, ReadingFault>
        ensures { Reads placed_row result (tokens_ahead reader.new) (a_zone_row (rows_of self.now.rows) (spot zone.entry) (tokens_ahead reader.old)) }
    {
        self.room(Kind::Zone, ZONES, zone.at)?;
        self.fresh(Kind::Zone, Key::from(zone), zone.at)?;
        let tests = pairs(reader, self.heap, Listing::ReleaseTests)?;
        Ok(Row::Zone(ZoneRow { zone, tests }))
    }

    // A row of the data after its head.
    pub fn data_row(
        &self,
        reader: &mut Reader<'a>,
        at: usize,
        head: Head<'a>,
    ) -> Result<Row<'a>, ReadingFault>
        ensures { Reads placed_row result (tokens_ahead reader.new) (a_data_row (rows_of self.now.rows) at (headed head.entry) (tokens_ahead reader.old)) }
    {
        match head {
            Head::Request(route) => self.request_row(reader, route),
            Head::Activation(route) => self.activation_row(reader, route),
            Head::PointRow(point, position) => self.move_row(reader, point, position),
            Head::Release(from, to) => self.release_row(reader, from, to),
            Head::Zone(zone) => self.zone_row(reader, zone),
            _ => Err(RowFault::Form(at).into()),
        }
    }
}
