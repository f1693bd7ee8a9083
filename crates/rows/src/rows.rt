// The rows of a text, with their names as the text has them.
use forms::{Name, State, Thing};
use station::Position;

// A thing and its state.
#[derive(Clone, Copy)]
pub struct Pair<'a> {
    pub thing: Thing<'a>,
    pub state: State,
}

// What a joint has on its far side.
#[derive(Clone, Copy)]
pub enum Far<'a> {
    Segment(Name<'a>),
    Outside,
    BufferStop,
}

#[derive(Clone, Copy)]
pub struct JointRow<'a> {
    pub name: Name<'a>,
    pub segment: Name<'a>,
    pub far: Far<'a>,
}

#[derive(Clone, Copy)]
pub struct PointRow<'a> {
    pub name: Name<'a>,
    pub home: Name<'a>,
}

#[derive(Drop)]
pub struct WayRow<'a> {
    pub segment: Name<'a>,
    pub from: Name<'a>,
    pub to: Name<'a>,
    pub settings: Vec<Pair<'a>>,
}

#[derive(Clone, Copy)]
pub struct SignalRow<'a> {
    pub joint: Name<'a>,
    pub segment: Name<'a>,
}

#[derive(Drop)]
pub struct RequestRow<'a> {
    pub route: Name<'a>,
    pub tests: Vec<Pair<'a>>,
    pub actions: Vec<Pair<'a>>,
}

#[derive(Drop)]
pub struct ActivationRow<'a> {
    pub route: Name<'a>,
    pub tests: Vec<Pair<'a>>,
}

// A point's N row or R row.
#[derive(Drop)]
pub struct MoveRow<'a> {
    pub point: Name<'a>,
    pub position: Position,
    pub tests: Vec<Pair<'a>>,
}

// The release row of a subroute.
#[derive(Drop)]
pub struct ReleaseRow<'a> {
    pub from: Name<'a>,
    pub to: Name<'a>,
    pub tests: Vec<Pair<'a>>,
}

#[derive(Drop)]
pub struct ZoneRow<'a> {
    pub zone: Name<'a>,
    pub tests: Vec<Pair<'a>>,
}

#[derive(Drop)]
pub enum Row<'a> {
    Segment(Name<'a>),
    Joint(JointRow<'a>),
    Point(PointRow<'a>),
    Way(WayRow<'a>),
    Signal(SignalRow<'a>),
    Request(RequestRow<'a>),
    Activation(ActivationRow<'a>),
    Move(MoveRow<'a>),
    Release(ReleaseRow<'a>),
    Zone(ZoneRow<'a>),
}
