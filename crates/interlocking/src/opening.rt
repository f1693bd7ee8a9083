// Opening a machine on a trackside.
ghost use Rattle.std.specs.Prelude.{◌≡◌, true, Some, None, MatchResult};
ghost use Rattle.calls.specs.Matching.{matched, matches};
ghost use Rattle.interlocking.specs.Machines.{state_of};
ghost use Rattle.calls.specs.Opening.{all_stop, open_denial, opened, some_present, told_present};
ghost use Rattle.track.specs.Calls.{place_answer};
ghost use Rattle.track.specs.Meaning.{fits, laid};
ghost use Rattle.track.specs.Refusals.{answer};

use crate::machine::Machine;
use acceptance::Accepted;
use lookups::signal_count;
use passing::has_slots;
use states::{Denial, States, TRAINS};
use track::{Aspect, Refusal, Trackside};

// Whether the trackside and the slots match the station.
pub(crate) fn matches<T: Trackside>(track: &T, station: &Accepted<'_>) -> bool
    ensures { result ≡ matches (laid station.now) (T.Trackside.meaning track.now) }
{
    track.place(station, 0).is_ok() && has_slots(station.tables())
}

// The refusal that comes before all others.
pub(crate) fn check<T: Trackside>(track: &T, station: &Accepted<'_>) -> Result<(), Denial>
    ensures { result ≡ answer (matched (laid station.now) (T.Trackside.meaning track.now) None) tt }
{
    if matches(track, station) {
        Ok(())
    } else {
        Err(Denial::Track(Refusal::Mismatch))
    }
}

// Whether the trackside answers that the train is present.
fn is_present<T: Trackside>(track: &T, station: &Accepted<'_>, train: usize) -> bool
    ensures { result ≡ told_present (place_answer (laid station.now) (T.Trackside.meaning track.now) train) }
{
    matches!(track.place(station, train), Ok(Some(_)))
}

fn some_present<T: Trackside>(track: &T, station: &Accepted<'_>) -> bool
    ensures { result ≡ some_present (laid station.now) (T.Trackside.meaning track.now) }
{
    (0..TRAINS).any(|i| is_present(track, station, i))
}

// Whether a machine may be opened on the trackside.
fn may_open<T: Trackside>(track: &T, station: &Accepted<'_>) -> Result<(), Denial>
    ensures { MatchResult result (λ _. open_denial (laid station.now) (T.Trackside.meaning track.now) ≡ None) (λ d. open_denial (laid station.now) (T.Trackside.meaning track.now) ≡ Some d) }
{
    check(track, station)?;
    if some_present(track, station) {
        return Err(Denial::Occupied);
    }
    Ok(())
}

// Puts every signal to stop.
fn stop_all<T: Trackside>(track: &mut T, station: &Accepted<'_>)
    ensures { fits (laid station.now) (T.Trackside.meaning track.old) ≡ true → T.Trackside.meaning track.new ≡ all_stop (T.Trackside.meaning track.old) }
{
    // a loop, since of what a closure changes a chain promises nothing
    for i in 0..signal_count(station.tables()) {
        let _ = track.show(station, i, Aspect::Stop);
    }
}

impl<T: Trackside> Machine<T> {
    // Opens a machine on a trackside without trains. Where that is refused, the trackside comes back as it was.
    pub fn open(track: T, station: &Accepted<'_>) -> Result<Machine<T>, (T, Denial)>
        ensures denial { MatchResult result (λ _. open_denial (laid station.now) (T.Trackside.meaning track) ≡ None) (λ p. open_denial (laid station.now) (T.Trackside.meaning track) ≡ Some p.1) }
        ensures state { MatchResult result (λ m. state_of T.Trackside.meaning m ≡ opened (T.Trackside.meaning track)) (λ p. p.0 ≡ track) }
    {
        // By a test, since the closure of `map_err` would take the track.
        if let Err(denial) = may_open(&track, station) {
            return Err((track, denial));
        }
        let mut track = track;
        stop_all(&mut track, station);
        Ok(Machine {
            track,
            states: States::new(),
        })
    }

    // The trackside.
    pub fn track(&self) -> &T
        ensures { result.now ≡ self.now.track }
    {
        &self.track
    }

    // What the machine keeps of its own.
    pub fn states(&self) -> &States
        ensures { result.now ≡ self.now.states }
    {
        &self.states
    }

    // Gives the trackside back.
    pub fn close(self) -> T
        ensures { result ≡ self.track }
    {
        self.track
    }
}
