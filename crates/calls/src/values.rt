// The calls of a machine as values, and their answers.
use states::Denial;
use station::Lock;

#[derive(Clone, Copy, PartialEq)]
pub enum Call {
    // a route
    Request(usize),
    Activate(usize),
    Release(Lock),
    // a point
    Settle(usize),
    // a train, and the signal by which it enters
    Enter(usize, usize),
    Front(usize),
    Rear(usize),
    Turn(usize),
}

#[derive(Clone, Copy, PartialEq)]
pub enum Answer {
    Done,
    // whether the point settled
    Settled(bool),
    // the signal that the front passed
    Passed(Option<usize>),
    Refused(Denial),
}
