// A machine over any trackside.
use states::States;
use track::Trackside;

// It owns the trackside that it was opened on.
#[derive(Drop)]
pub struct Machine<T: Trackside> {
    pub(crate) track: T,
    pub(crate) states: States,
}
