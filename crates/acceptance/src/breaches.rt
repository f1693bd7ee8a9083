// What breaks a rule: its things by number, the first-named first.
#[derive(Clone, Copy, Debug, PartialEq)]
pub enum Breach {
    // 11: a joint with the same segment on both sides
    Joint(usize),
    // 12: a way that does not fit its segment
    Way(usize),
    // 13: two ways that cannot be told apart
    Ways(usize, usize),
    // 14: a signal that no train can pass into its segment
    Signal(usize),
    // 21: a route whose path is empty or broken, or comes into a segment twice
    Path(usize),
    // 22: a route that is not signalled as its path runs
    Signals(usize),
    // 23: a route whose request does not keep to itself and its points
    Request(usize),
    // 24: a route whose activation leaves a point or a segment untested
    Activation(usize),
    // 25: a subroute that may be released too early
    Release(usize),
    // 26: a point, and a subroute that one of its rows leaves open
    Row(usize, usize),
    // 27: a route, another, and a segment in which its request leaves the other open
    Conflict(usize, usize, usize),
}
