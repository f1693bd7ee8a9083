// A motor track made from its image.
ghost use Rattle.std.specs.Prelude.{◌≡◌, length};
ghost use Rattle.image.specs.Laws.{MadeAgain, MadeFrom};
ghost use Rattle.image.specs.Tracks.{Answered, track_of};
ghost use Rattle.motor.specs.Kept.{Kept};
ghost use Rattle.station.specs.Station.{station};
ghost use Rattle.track.specs.Meaning.{laid};

use crate::parts::Parts;
use crate::unmade::Unmade;
use acceptance::Accepted;
use lookups::{joint_count, point_count, signal_count};
use motor::{MOST_POINTS, Motor};
use octets::{Numbers, PointRead, SignalRead, each};
use station::Tables;
use std::alloc::Global;
use track::Refusal;

// Octets that mean no track are refused with 40.
const MALFORMED: Unmade = Unmade::Refused(Refusal::Mismatch);

// The numbers of the station that its trains may have.
fn numbers(tables: &Tables) -> Numbers
    ensures segments { result.segments ≡ length (station tables.now).segments }
    ensures joints { result.joints ≡ length (station tables.now).joints }
{
    Numbers {
        segments: tables.segments.len(),
        joints: joint_count(tables),
    }
}

fn read(heap: Global, tables: &Tables, octets: &[u8]) -> Result<Motor, Unmade>
    ensures { Answered result (track_of (station tables.now) octets.now) }
{
    let points = point_count(tables);
    if points > MOST_POINTS {
        return Err(MALFORMED);
    }
    let parts = Parts::of(octets, points, signal_count(tables)).ok_or(MALFORMED)?;
    let runs = each(heap, &PointRead, parts.points)?.ok_or(MALFORMED)?;
    let aspects = each(heap, &SignalRead, parts.signals)?.ok_or(MALFORMED)?;
    let trains = each(heap, &numbers(tables), parts.trains)?.ok_or(MALFORMED)?;
    Motor::of_parts(runs, aspects, trains).ok_or(MALFORMED)
}

// The track that the octets mean at the station, refused with 40 where they mean none.
pub fn track_of(heap: Global, station: &Accepted<'_>, octets: &[u8]) -> Result<Motor, Unmade>
    ensures reads { Answered result (track_of (laid station.now) octets.now) }
    ensures means { MadeFrom (laid station.now) octets.now result }
    ensures again { (k : Kept) → MadeAgain (laid station.now) octets.now result k }
{
    read(heap, station.tables(), octets)
}
