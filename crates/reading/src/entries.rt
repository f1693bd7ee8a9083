// Entries of the tables.
ghost use Rattle.std.specs.Prelude.{◌≡◌, map, IfOk};
ghost use Rattle.std.specs.Option.{option_map};
ghost use Rattle.forms.specs.Things.{spot};
ghost use Rattle.rows.specs.Rows.{placed_pair, placed_far, placed_row};
ghost use Rattle.naming.specs.Index.{indexed};
ghost use Rattle.station.specs.Station.{octets, joint_entry, point_entry, way_entry, route_entry, zone_entry};
ghost use Rattle.reading.specs.Entries.{pairs_in, beyond_of, tests_named, joint_for, point_for, way_for, signal_for, route_for, release_for, zone_for};

use forms::Name as Written;
use naming::Index;
use rows::{Far, JointRow, Key, Kind, Pair, PointRow, RequestRow, Row, SignalRow, WayRow, ZoneRow};
use station::{Beyond, Joint, Name, Point, ReleaseTest, Route, Signal, Way, Zone};
use std::alloc::{AllocError, Global};

// What entries are made from: all rows and the numbers of the names in them, and the allocator for what is kept.
#[derive(Clone, Copy)]
pub struct Source<'r, 'a> {
    pub rows: &'r [Row<'a>],
    pub index: &'r Index<'a>,
    pub heap: Global,
}

impl<'r, 'a> Source<'r, 'a> {
    pub fn owned(&self, name: Written<'a>) -> Result<Name, AllocError>
        ensures { IfOk result (λ n. octets n ≡ (spot name.entry).1) }
    {
        let octets = name.octets.to_vec(self.heap)?;
        Ok(Name { octets })
    }

    // The tests of the first row of the kind with this key.
    fn tests_named(&self, kind: Kind, key: Key) -> Option<&'r [Pair<'a>]>
        ensures { option_map pairs_in result ≡ tests_named (map placed_row self.now.rows.now) kind key.entry.first.now key.entry.second.now }
    {
        self.rows
            .iter()
            .find(|r| r.is_named(kind, key))
            .map(|r| r.tests())
    }

    fn beyond(&self, far: Far<'a>) -> Beyond
        ensures { result ≡ beyond_of (indexed self.now.index.now) (placed_far far.entry) }
    {
        match far {
            Far::Segment(x) => Beyond::Segment(self.index.segments.number(x)),
            Far::Outside => Beyond::Outside,
            Far::BufferStop => Beyond::BufferStop,
        }
    }

    pub fn joint(&self, row: JointRow<'a>) -> Result<Joint, AllocError>
        ensures { IfOk result (λ x. joint_entry x ≡ joint_for (indexed self.now.index.now) (spot row.entry.name) (spot row.entry.segment) (placed_far row.entry.far)) }
    {
        let name = self.owned(row.name)?;
        Ok(Joint {
            name,
            segment: self.index.segments.number(row.segment),
            beyond: self.beyond(row.far),
        })
    }

    pub fn point(&self, row: PointRow<'a>) -> Result<Point, AllocError>
        ensures { IfOk result (λ x. point_entry x ≡ point_for (indexed self.now.index.now) (map placed_row self.now.rows.now) (spot row.entry.name) (spot row.entry.home)) }
    {
        let key = Key::from(row.name);
        let name = self.owned(row.name)?;
        let normal = self.tests_named(Kind::NormalMove, key).unwrap_or(&[]);
        let reverse = self.tests_named(Kind::ReverseMove, key).unwrap_or(&[]);
        let normal = self.resolve_all(normal)?;
        let reverse = self.resolve_all(reverse)?;
        Ok(Point {
            name,
            home: self.index.segments.number(row.home),
            normal,
            reverse,
        })
    }

    pub fn way(&self, row: &WayRow<'a>) -> Result<Way, AllocError>
        ensures { IfOk result (λ x. way_entry x ≡ way_for (indexed self.now.index.now) (spot row.now.segment) (spot row.now.from) (spot row.now.to) (map placed_pair row.now.settings.items)) }
    {
        let settings = self.resolve_all(row.settings.as_slice())?;
        Ok(Way {
            segment: self.index.segments.number(row.segment),
            from: self.index.joints.number(row.from),
            to: self.index.joints.number(row.to),
            settings,
        })
    }

    pub fn signal(&self, row: SignalRow<'a>) -> Signal
        ensures { result ≡ signal_for (indexed self.now.index.now) (spot row.entry.joint) (spot row.entry.segment) }
    {
        Signal {
            joint: self.index.joints.number(row.joint),
            segment: self.index.segments.number(row.segment),
        }
    }

    pub fn route(&self, row: &RequestRow<'a>) -> Result<Route, AllocError>
        ensures { IfOk result (λ x. route_entry x ≡ route_for (indexed self.now.index.now) (map placed_row self.now.rows.now) (spot row.now.route) (map placed_pair row.now.tests.items) (map placed_pair row.now.actions.items)) }
    {
        let name = self.owned(row.route)?;
        let tests = self.resolve_all(row.tests.as_slice())?;
        let actions = self.resolve_all(row.actions.as_slice())?;
        let activation = self
            .tests_named(Kind::Activation, Key::from(row.route))
            .unwrap_or(&[]);
        let activation = self.resolve_all(activation)?;
        Ok(Route {
            name,
            tests,
            actions,
            activation,
        })
    }

    // The release row of the subroute with this number, which runs from one joint to another. Two names and no pair, since
    // a way asks it in both orders.
    pub fn release(
        &self,
        number: usize,
        from: Written<'a>,
        to: Written<'a>,
    ) -> Result<Option<Vec<ReleaseTest>>, AllocError>
        ensures { IfOk result (λ x. option_map (λ v. v.items) x ≡ release_for (indexed self.now.index.now) (map placed_row self.now.rows.now) number (spot from.entry) (spot to.entry)) }
    {
        if self.index.subroute(from, to) != number {
            return Ok(None);
        }
        let Some(tests) = self.tests_named(Kind::Release, Key::from((from, to))) else {
            return Ok(None);
        };
        let tests = self.resolve_all(tests)?;
        Ok(Some(tests))
    }

    pub fn zone(&self, row: &ZoneRow<'a>) -> Result<Zone, AllocError>
        ensures { IfOk result (λ x. zone_entry x ≡ zone_for (indexed self.now.index.now) (spot row.now.zone) (map placed_pair row.now.tests.items)) }
    {
        let name = self.owned(row.zone)?;
        let tests = self.resolve_all(row.tests.as_slice())?;
        Ok(Zone { name, tests })
    }
}
