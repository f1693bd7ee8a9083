// The tables. A thing's number is its place in its table.
ghost use Rattle.std.specs.Prelude.{◌≡◌};
ghost use Rattle.station.specs.Station.{station, empty};

use crate::names::Name;
use crate::tests::{Action, ActivationTest, PointTest, Position, ReleaseTest, RequestTest};
use std::alloc::Global;

#[derive(PartialEq, Drop)]
pub struct Segment {
    pub name: Name,
}

// What lies on the far side of a joint.
#[derive(Clone, Copy, PartialEq)]
pub enum Beyond {
    Segment(usize),
    Outside,
    BufferStop,
}

#[derive(PartialEq, Drop)]
pub struct Joint {
    pub name: Name,
    pub segment: usize,
    pub beyond: Beyond,
}

// A point in its home segment, with the tests of its N row and its R row.
#[derive(PartialEq, Drop)]
pub struct Point {
    pub name: Name,
    pub home: usize,
    pub normal: Vec<PointTest>,
    pub reverse: Vec<PointTest>,
}

// A point and the position in which a way wants it.
#[derive(Clone, Copy, PartialEq)]
pub struct Setting {
    pub point: usize,
    pub position: Position,
}

// A way through a segment from one joint to another.
#[derive(PartialEq, Drop)]
pub struct Way {
    pub segment: usize,
    pub from: usize,
    pub to: usize,
    pub settings: Vec<Setting>,
}

// Governs trains that enter the segment over the joint.
#[derive(Clone, Copy, PartialEq)]
pub struct Signal {
    pub joint: usize,
    pub segment: usize,
}

// A route with its request row and its activation row.
#[derive(PartialEq, Drop)]
pub struct Route {
    pub name: Name,
    pub tests: Vec<RequestTest>,
    pub actions: Vec<Action>,
    pub activation: Vec<ActivationTest>,
}

// A zone with its release row.
#[derive(PartialEq, Drop)]
pub struct Zone {
    pub name: Name,
    pub tests: Vec<ReleaseTest>,
}

#[derive(PartialEq, Drop)]
pub struct Tables {
    pub segments: Vec<Segment>,
    pub joints: Vec<Joint>,
    pub points: Vec<Point>,
    pub ways: Vec<Way>,
    pub signals: Vec<Signal>,
    pub routes: Vec<Route>,
    // by subroute number: the release row's tests, where the text has such a row; beside the ways, since a subroute has a number of its own
    pub releases: Vec<Option<Vec<ReleaseTest>>>,
    pub zones: Vec<Zone>,
}

impl Tables {
    // Tables that say nothing.
    pub fn new(heap: Global) -> Tables
        ensures { station result ≡ empty }
    {
        Tables {
            segments: Vec::new(heap),
            joints: Vec::new(heap),
            points: Vec::new(heap),
            ways: Vec::new(heap),
            signals: Vec::new(heap),
            routes: Vec::new(heap),
            releases: Vec::new(heap),
            zones: Vec::new(heap),
        }
    }

    // Empties every table.
    pub fn clear(&mut self)
        ensures { station self.new ≡ empty }
    {
        self.segments.clear();
        self.joints.clear();
        self.points.clear();
        self.ways.clear();
        self.signals.clear();
        self.routes.clear();
        self.releases.clear();
        self.zones.clear();
    }
}
