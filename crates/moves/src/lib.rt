// What the calls on one train come to: enter, front, rear and turn.
#![tactic(auto)]

ghost use Rattle.std.specs.Prelude.{◌≡◌};
ghost use Rattle.moves.specs.Stepped.{in_one, movable, stepped};
ghost use Rattle.station.specs.Joints.{across};
ghost use Rattle.station.specs.Station.{station};
ghost use Rattle.track.specs.Steps.{derailing, done, enter_step, enter_train, front_over, front_step, front_train, onward, rear_step, rear_train, refused, turn_step, turn_train};
ghost use Rattle.track.specs.Trains.{come_in, gone_on};

use lookups::{across, signal, signalled};
use standing::{Standing, governor, halts, is_stop, train_refusal, way_out};
use station::{Beyond, Tables};
use track::{Place, Refusal, Step, Train};

// A step that changes nothing.
fn refused(refusal: Refusal) -> Step
    ensures { result ≡ refused refusal }
{
    Step {
        answer: Err(refusal),
        train: None,
    }
}

// The step of a train that derails where it stands, since no way fits.
fn derailing(p: Place) -> Step
    ensures { result ≡ derailing p }
{
    let stuck = Place {
        derailed: true,
        ..p
    };
    Step {
        answer: Err(Refusal::OffTrack),
        train: Some(Some(stuck)),
    }
}

fn done(passed: Option<usize>, train: Train) -> Step
    ensures { result ≡ done passed train }
{
    Step {
        answer: Ok(passed),
        train: Some(train),
    }
}

// A train all in one segment.
fn come_in(segment: usize, joint: usize) -> Train
    ensures { result ≡ come_in segment joint }
{
    Some(Place {
        front: Some(segment),
        joint,
        rear: None,
        derailed: false,
    })
}

// A train whose front has gone on over the joint, out of the segment.
fn gone_on(front: Option<usize>, joint: usize, segment: usize) -> Train
    ensures { result ≡ gone_on front joint segment }
{
    Some(Place {
        front,
        joint,
        rear: Some(segment),
        derailed: false,
    })
}

fn enter_train<S: Standing>(
    tables: &Tables,
    track: &S,
    n: usize,
    train: Train,
) -> Result<Step, Refusal>
    ensures { stepped result ≡ enter_train (station tables.now) (S.Standing.told track.now) n train }
{
    if train.is_some() {
        return Err(Refusal::Presence);
    }
    let s = signal(tables, n);
    if across(tables, s.joint, s.segment) != Beyond::Outside {
        return Err(Refusal::StopAhead);
    }
    if is_stop(track.aspect_at(n)) {
        return Err(Refusal::StopAhead);
    }
    Ok(done(Some(n), come_in(s.segment, s.joint)))
}

fn enter<S: Standing>(tables: &Tables, track: &S, train: usize, n: usize) -> Result<Step, Refusal>
    ensures { stepped result ≡ enter_step (station tables.now) (S.Standing.told track.now) train n }
{
    train_refusal(tables, track, train)?;
    if n >= track.signals() {
        return Err(Refusal::Unknown);
    }
    enter_train(tables, track, n, track.train_at(train))
}

// Entry from outside, past a signal that shows proceed.
pub fn enter_step<S: Standing>(tables: &Tables, track: &S, train: usize, n: usize) -> Step
    ensures { result ≡ enter_step (station tables.now) (S.Standing.told track.now) train n }
{
    enter(tables, track, train, n).unwrap_or_else(refused)
}

// The place of a train that is present and not derailed.
fn movable(train: Train) -> Result<Place, Refusal>
    ensures { result ≡ movable train }
{
    let p = train.ok_or(Refusal::Presence)?;
    if p.derailed {
        return Err(Refusal::OffTrack);
    }
    Ok(p)
}

// The segment of a train that is wholly in one.
fn in_one(p: Place) -> Result<usize, Refusal>
    ensures { result ≡ in_one p.front p.rear }
{
    match (p.front, p.rear) {
        (Some(t), None) => Ok(t),
        _ => Err(Refusal::Extent),
    }
}

// The front goes on over the joint, out of the segment.
fn front_over<S: Standing>(
    tables: &Tables,
    track: &S,
    segment: usize,
    joint: usize,
) -> Result<Step, Refusal>
    ensures { stepped result ≡ front_over (station tables.now) (S.Standing.told track.now) segment joint (across (station tables.now) joint segment) }
{
    match across(tables, joint, segment) {
        Beyond::Segment(next) => {
            let passed = governor(tables, joint, next);
            if halts(track, passed) {
                return Err(Refusal::StopAhead);
            }
            Ok(done(passed, gone_on(Some(next), joint, segment)))
        }
        Beyond::Outside => Ok(done(None, gone_on(None, joint, segment))),
        Beyond::BufferStop => Err(Refusal::Extent),
    }
}

// A refusal that changes nothing is the outer error, so that `?` serves; a derailing is a step, whose answer refuses too.
fn front_train<S: Standing>(tables: &Tables, track: &S, train: Train) -> Result<Step, Refusal>
    ensures { stepped result ≡ front_train (station tables.now) (S.Standing.told track.now) train }
{
    let p = movable(train)?;
    let t = in_one(p)?;
    match way_out(tables, track, t, p.joint) {
        Some(j) => front_over(tables, track, t, j),
        None => Ok(derailing(p)),
    }
}

fn front<S: Standing>(tables: &Tables, track: &S, train: usize) -> Result<Step, Refusal>
    ensures { stepped result ≡ front_step (station tables.now) (S.Standing.told track.now) train }
{
    train_refusal(tables, track, train)?;
    front_train(tables, track, track.train_at(train))
}

// A train's front goes on by the way that fits.
pub fn front_step<S: Standing>(tables: &Tables, track: &S, train: usize) -> Step
    ensures { result ≡ front_step (station tables.now) (S.Standing.told track.now) train }
{
    front(tables, track, train).unwrap_or_else(refused)
}

fn rear_train(train: Train) -> Result<Step, Refusal>
    ensures { stepped result ≡ rear_train train }
{
    let p = movable(train)?;
    match (p.rear, p.front) {
        (None, _) => Err(Refusal::Extent),
        (Some(_), Some(t)) => Ok(done(None, come_in(t, p.joint))),
        (Some(_), None) => Ok(done(None, None)),
    }
}

fn rear<S: Standing>(tables: &Tables, track: &S, train: usize) -> Result<Step, Refusal>
    ensures { stepped result ≡ rear_step (station tables.now) (S.Standing.told track.now) train }
{
    train_refusal(tables, track, train)?;
    rear_train(track.train_at(train))
}

// A train gives up the segment behind its front.
pub fn rear_step<S: Standing>(tables: &Tables, track: &S, train: usize) -> Step
    ensures { result ≡ rear_step (station tables.now) (S.Standing.told track.now) train }
{
    rear(tables, track, train).unwrap_or_else(refused)
}

// Whether a signal stands onward, into what lies on this side of the joint.
fn onward(tables: &Tables, joint: usize, side: Beyond) -> bool
    ensures { result ≡ onward (station tables.now) joint side }
{
    matches!(side, Beyond::Segment(t) if signalled(tables, joint, t))
}

fn turn_train<S: Standing>(tables: &Tables, track: &S, train: Train) -> Result<Step, Refusal>
    ensures { stepped result ≡ turn_train (station tables.now) (S.Standing.told track.now) train }
{
    let p = movable(train)?;
    let t = in_one(p)?;
    let Some(j) = way_out(tables, track, t, p.joint) else {
        return Ok(derailing(p));
    };
    if !onward(tables, p.joint, across(tables, p.joint, t)) {
        return Err(Refusal::Unsignalled);
    }
    Ok(done(None, come_in(t, j)))
}

fn turn<S: Standing>(tables: &Tables, track: &S, train: usize) -> Result<Step, Refusal>
    ensures { stepped result ≡ turn_step (station tables.now) (S.Standing.told track.now) train }
{
    train_refusal(tables, track, train)?;
    turn_train(tables, track, track.train_at(train))
}

// A train turns, as if it had come in by the other joint of the way that fits.
pub fn turn_step<S: Standing>(tables: &Tables, track: &S, train: usize) -> Step
    ensures { result ≡ turn_step (station tables.now) (S.Standing.told track.now) train }
{
    turn(tables, track, train).unwrap_or_else(refused)
}
