// What every trackside does, by its meaning.
ghost use Rattle.std.specs.Prelude.{◌≡◌, ◌≤◌, length};
ghost use Rattle.track.specs.Calls.{Drives, Settles, Shows, Enters, Fronts, Rears, Turns, point_answer, signal_answer, clear_answer, place_answer};
ghost use Rattle.track.specs.Meaning.{Meaning, laid};

use crate::refusals::Refusal;
use crate::states::{Aspect, PointState, Train};
use acceptance::Accepted;
use station::Position;

pub trait Trackside {
    // What the track means: its points, its signals and its trains.
    ghost meaning: { Self → Meaning };

    // Drives a point. To the other position it changes the target, and the track chooses whether the point is settled at once; else nothing changes.
    fn drive(&mut self, station: &Accepted<'_>, point: usize, to: Position) -> Result<(), Refusal>
        ensures { Drives (laid station.now) (meaning self.old) point to result (meaning self.new) };

    // Lets a point in motion settle, or not: the track chooses, and answers which.
    fn settle(&mut self, station: &Accepted<'_>, point: usize) -> Result<bool, Refusal>
        ensures { Settles (laid station.now) (meaning self.old) point result (meaning self.new) };

    // Shows an aspect at one signal.
    fn show(&mut self, station: &Accepted<'_>, signal: usize, aspect: Aspect) -> Result<(), Refusal>
        ensures { Shows (laid station.now) (meaning self.old) signal aspect result (meaning self.new) };

    // Puts a train into the signal's segment, come in by the signal's joint.
    fn enter(&mut self, station: &Accepted<'_>, train: usize, signal: usize) -> Result<(), Refusal>
        ensures { Enters (laid station.now) (meaning self.old) train signal result (meaning self.new) };

    // Takes a train's front on by the way that fits, and answers the signal passed, if any.
    fn front(&mut self, station: &Accepted<'_>, train: usize) -> Result<Option<usize>, Refusal>
        ensures { Fronts (laid station.now) (meaning self.old) train result (meaning self.new) };

    // Gives up the segment behind a train's front. A train whose front is outside is then absent.
    fn rear(&mut self, station: &Accepted<'_>, train: usize) -> Result<(), Refusal>
        ensures { Rears (laid station.now) (meaning self.old) train result (meaning self.new) };

    // Turns a train, as if it had come in by the other joint of the way that fits.
    fn turn(&mut self, station: &Accepted<'_>, train: usize) -> Result<(), Refusal>
        ensures { Turns (laid station.now) (meaning self.old) train result (meaning self.new) };

    // A point's target, and whether it is settled.
    fn point(&self, station: &Accepted<'_>, point: usize) -> Result<PointState, Refusal>
        ensures { result ≡ point_answer (laid station.now) (meaning self.now) point };

    // What a signal shows.
    fn signal(&self, station: &Accepted<'_>, signal: usize) -> Result<Aspect, Refusal>
        ensures { result ≡ signal_answer (laid station.now) (meaning self.now) signal };

    // Whether no train holds the segment.
    fn clear(&self, station: &Accepted<'_>, segment: usize) -> Result<bool, Refusal>
        ensures { result ≡ clear_answer (laid station.now) (meaning self.now) segment };

    // A train's place.
    fn place(&self, station: &Accepted<'_>, train: usize) -> Result<Train, Refusal>
        ensures { result ≡ place_answer (laid station.now) (meaning self.now) train };

    // A station has at most 32 points, and so has a track.
    ghost few: { (x : Self) → length (meaning x).points ≤ 32 };

    // Trains are numbered 0 to 15.
    ghost sixteen: { (x : Self) → length (meaning x).trains ≡ 16 };
}
