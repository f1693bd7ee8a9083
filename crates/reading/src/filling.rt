// Rows into tables.
ghost use Rattle.std.specs.Prelude.{◌≡◌, map, OnOk};
ghost use Rattle.forms.specs.Things.{spot};
ghost use Rattle.rows.specs.Rows.{placed_pair, placed_row, way_row};
ghost use Rattle.naming.specs.Index.{indexed};
ghost use Rattle.station.specs.Station.{station};
ghost use Rattle.reading.specs.Tables.{add_row, add_rows};

use crate::entries::Source;
use rows::{Row, WayRow};
use station::{Segment, Tables};
use std::alloc::AllocError;

impl<'r, 'a> Source<'r, 'a> {
    // A way with its two subroutes.
    fn add_way(&self, tables: &mut Tables, row: &WayRow<'a>) -> Result<(), AllocError>
        ensures { OnOk result (station tables.new ≡ add_row (indexed self.now.index.now) (map placed_row self.now.rows.now) (station tables.old) (way_row (spot row.now.segment) (spot row.now.from) (spot row.now.to) (map placed_pair row.now.settings.items))) }
    {
        let along = tables.ways.len() * 2;
        let way = self.way(row)?;
        let there = self.release(along, row.from, row.to)?;
        let back = self.release(along + 1, row.to, row.from)?;
        tables.ways.push(way)?;
        tables.releases.push(there)?;
        tables.releases.push(back)?;
        Ok(())
    }

    // What one row adds.
    fn add_row(&self, tables: &mut Tables, row: &Row<'a>) -> Result<(), AllocError>
        ensures { OnOk result (station tables.new ≡ add_row (indexed self.now.index.now) (map placed_row self.now.rows.now) (station tables.old) (placed_row row.now)) }
    {
        match row {
            Row::Segment(x) => {
                let name = self.owned(*x)?;
                tables.segments.push(Segment { name })?;
            }
            Row::Joint(j) => tables.joints.push(self.joint(*j)?)?,
            Row::Point(p) => tables.points.push(self.point(*p)?)?,
            Row::Way(w) => self.add_way(tables, w)?,
            Row::Signal(s) => tables.signals.push(self.signal(*s))?,
            Row::Request(q) => tables.routes.push(self.route(q)?)?,
            Row::Zone(z) => tables.zones.push(self.zone(z)?)?,
            Row::Activation(_) | Row::Move(_) | Row::Release(_) => {}
        }
        Ok(())
    }

    // All rows, one after another.
    pub fn add_rows(&self, tables: &mut Tables) -> Result<(), AllocError>
        ensures { OnOk result (station tables.new ≡ add_rows (indexed self.now.index.now) (map placed_row self.now.rows.now) (station tables.old) (map placed_row self.now.rows.now)) }
    {
        for row in self.rows {
            self.add_row(tables, row)?;
        }
        Ok(())
    }
}
