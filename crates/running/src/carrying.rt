// Opening a machine and carrying out a list of calls.
ghost use Rattle.std.specs.Prelude.{◌≡◌, ◌≤◌, [], length, IfOk, None, vec_capacity, MatchResult};
ghost use Rattle.calls.specs.Opening.{open_denial, opened};
ghost use Rattle.interlocking.specs.Machines.{state_of};
ghost use Rattle.running.specs.Logs.{Log};
ghost use Rattle.running.specs.Unruns.{GivesBack};
ghost use Rattle.safety.specs.Safety.{SafeThrough};
ghost use Rattle.track.specs.Meaning.{laid};

use acceptance::Accepted;
use calls::{Answer, Call};
use interlocking::Machine;
use states::Denial;
use std::alloc::Global;
use track::Trackside;

// What comes of a list of calls: an answer for each, and the machine.
#[derive(Drop)]
pub struct Ran<T: Trackside> {
    pub answers: Vec<Answer>,
    pub machine: Machine<T>,
}

// Why no call was carried out; the trackside comes back as it was.
pub enum Unrun<T> {
    // opening is refused
    Denied(T, Denial),
    // there is no memory for the answers
    Memory(T),
}

// Carries out the calls from the first to the last, refused ones among them. There is room for all answers.
fn carry_out<T: Trackside>(
    machine: &mut Machine<T>,
    station: &Accepted<'_>,
    calls: &[Call],
    answers: &mut Vec<Answer>,
)
    requires empty { answers.old.items ≡ [] }
    requires room { length calls.now ≤ vec_capacity answers.old }
    ensures { Log (laid station.now) (state_of T.Trackside.meaning machine.old) calls.now answers.new.items (state_of T.Trackside.meaning machine.new) }
{
    // a loop, since of what a closure changes a chain promises nothing
    for call in calls {
        let answer = machine.call(station, *call);
        let _ = answers.push(answer);
    }
}

// Opens a machine on the track and carries out the calls. Where no machine is opened, or there is no memory for the answers, the track comes back as it was.
pub fn run<T: Trackside>(
    heap: Global,
    track: T,
    station: &Accepted<'_>,
    calls: &[Call],
) -> Result<Ran<T>, Unrun<T>>
    ensures opens { MatchResult result (λ _. open_denial (laid station.now) (T.Trackside.meaning track) ≡ None) (GivesBack track (open_denial (laid station.now) (T.Trackside.meaning track)) (length calls.now)) }
    ensures carried { IfOk result (λ x. (log : Log (laid station.now) (opened (T.Trackside.meaning track)) calls.now x.answers.items (state_of T.Trackside.meaning x.machine)) × SafeThrough (laid station.now) (opened (T.Trackside.meaning track)) [] log.entries) }
{
    // no `map_err`: its closure would take the track
    let Ok(mut answers) = Vec::with_capacity(heap, calls.len()) else {
        return Err(Unrun::Memory(track));
    };
    let opened = Machine::open(track, station);
    let mut machine = opened.map_err(|(track, denial)| Unrun::Denied(track, denial))?;
    carry_out(&mut machine, station, calls, &mut answers);
    Ok(Ran { answers, machine })
}
