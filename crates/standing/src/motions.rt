// The refusals of the calls on points and signals and of the questions, in their order; and whether a segment is clear.
ghost use Rattle.std.specs.Prelude.{◌≡◌, None, length};
ghost use Rattle.station.specs.Station.{station};
ghost use Rattle.track.specs.Calls.{numbered, point_refusal, segment_refusal, settle_refusal, signal_refusal, train_refusal};
ghost use Rattle.track.specs.Meaning.{clear, fits, train_at};
ghost use Rattle.track.specs.Refusals.{answer};
ghost use Rattle.track.specs.Trains.{holds};

use crate::standing::Standing;
use lookups::{point_count, signal_count};
use station::Tables;
use track::{Refusal, holds};

// Trains are numbered 0 to 15.
pub const TRAINS: usize = 16;

// Whether the track has as many points and signals as the tables.
pub fn fits<S: Standing>(tables: &Tables, track: &S) -> bool
    ensures { result ≡ fits (station tables.now) (S.Standing.told track.now) }
{
    point_count(tables) == track.points() && signal_count(tables) == track.signals()
}

fn segment_count(tables: &Tables) -> usize
    ensures { result ≡ length (station tables.now).segments }
{
    tables.segments.len()
}

// Refuses where the track is another one than the tables', or where n is not one of so many numbers.
fn numbered<S: Standing>(tables: &Tables, track: &S, n: usize, count: usize) -> Result<(), Refusal>
    ensures { result ≡ answer (numbered (station tables.now) (S.Standing.told track.now) n count None) tt }
{
    if !fits(tables, track) {
        return Err(Refusal::Mismatch);
    }
    if n >= count {
        return Err(Refusal::Unknown);
    }
    Ok(())
}

pub fn point_refusal<S: Standing>(tables: &Tables, track: &S, point: usize) -> Result<(), Refusal>
    ensures { result ≡ answer (point_refusal (station tables.now) (S.Standing.told track.now) point) tt }
{
    numbered(tables, track, point, track.points())
}

pub fn settle_refusal<S: Standing>(tables: &Tables, track: &S, point: usize) -> Result<(), Refusal>
    ensures { result ≡ answer (settle_refusal (station tables.now) (S.Standing.told track.now) point) tt }
{
    point_refusal(tables, track, point)?;
    if track.point_at(point).settled {
        return Err(Refusal::AtRest);
    }
    Ok(())
}

pub fn signal_refusal<S: Standing>(tables: &Tables, track: &S, signal: usize) -> Result<(), Refusal>
    ensures { result ≡ answer (signal_refusal (station tables.now) (S.Standing.told track.now) signal) tt }
{
    numbered(tables, track, signal, track.signals())
}

pub fn train_refusal<S: Standing>(tables: &Tables, track: &S, train: usize) -> Result<(), Refusal>
    ensures { result ≡ answer (train_refusal (station tables.now) (S.Standing.told track.now) train) tt }
{
    numbered(tables, track, train, TRAINS)
}

pub fn clear_refusal<S: Standing>(tables: &Tables, track: &S, segment: usize) -> Result<(), Refusal>
    ensures { result ≡ answer (segment_refusal (station tables.now) (S.Standing.told track.now) segment) tt }
{
    numbered(tables, track, segment, segment_count(tables))
}

fn train_holds<S: Standing>(track: &S, train: usize, segment: usize) -> bool
    ensures { result ≡ holds (train_at (S.Standing.told track.now) train) segment }
{
    holds(track.train_at(train), segment)
}

// Whether no train holds the segment.
pub fn is_clear<S: Standing>(track: &S, segment: usize) -> bool
    ensures { result ≡ clear (S.Standing.told track.now) segment }
{
    !(0..TRAINS).any(|i| train_holds(track, i, segment))
}
