// The way that fits a train, and the signal over a joint.
ghost use Rattle.std.specs.Prelude.{◌≡◌};
ghost use Rattle.firsts.specs.Lists.{all};
ghost use Rattle.lookups.specs.Shapes.{shape_entry};
ghost use Rattle.station.specs.Station.{station};
ghost use Rattle.track.specs.Ways.{governor, governs, halts, is_stop, lies, out_by, way_fits, way_out};

use crate::standing::Standing;
use lookups::{Shape, shape, signal, signal_count, way_count};
use station::{Setting, Signal, Tables};
use track::Aspect;

// Whether the point is settled as the setting says.
fn lies<S: Standing>(track: &S, x: Setting) -> bool
    ensures { result ≡ lies (S.Standing.told track.now) x }
{
    let p = track.point_at(x.point);
    p.settled && p.target == x.position
}

fn all_lie<S: Standing>(track: &S, settings: &[Setting]) -> bool
    ensures { result ≡ all (lies (S.Standing.told track.now)) settings.now }
{
    settings.iter().all(|x| lies(track, *x))
}

fn way_fits<S: Standing>(track: &S, segment: usize, joint: usize, w: Shape<'_>) -> bool
    ensures { result ≡ way_fits (S.Standing.told track.now) segment joint (shape_entry w.entry) }
{
    w.segment == segment && (w.from == joint || w.to == joint) && all_lie(track, w.settings)
}

// The joint at the other end of a way, where it fits.
fn out_by<S: Standing>(
    tables: &Tables,
    track: &S,
    segment: usize,
    joint: usize,
    n: usize,
) -> Option<usize>
    ensures { result ≡ out_by (station tables.now) (S.Standing.told track.now) segment joint n }
{
    let w = shape(tables, n);
    // The other end is looked for only where the way fits.
    way_fits(track, segment, joint, w).then(|| if w.from == joint { w.to } else { w.from })
}

// The joint over which a train leaves its segment, by the way that fits.
pub fn way_out<S: Standing>(
    tables: &Tables,
    track: &S,
    segment: usize,
    joint: usize,
) -> Option<usize>
    ensures { result ≡ way_out (station tables.now) (S.Standing.told track.now) segment joint }
{
    (0..way_count(tables)).find_map(|i| out_by(tables, track, segment, joint, i))
}

// A signal's number, where the signal governs entering the segment over the joint.
fn governs(tables: &Tables, joint: usize, segment: usize, n: usize) -> Option<usize>
    ensures { result ≡ governs (station tables.now) joint segment n }
{
    (signal(tables, n) == Signal { joint, segment }).then_some(n)
}

// The signal that governs entering the segment over the joint.
pub fn governor(tables: &Tables, joint: usize, segment: usize) -> Option<usize>
    ensures { result ≡ governor (station tables.now) joint segment }
{
    (0..signal_count(tables)).find_map(|i| governs(tables, joint, segment, i))
}

pub fn is_stop(aspect: Aspect) -> bool
    ensures { result ≡ is_stop aspect }
{
    aspect == Aspect::Stop
}

// Whether the signal, if any, shows stop.
pub fn halts<S: Standing>(track: &S, signal: Option<usize>) -> bool
    ensures { result ≡ halts (S.Standing.told track.now) signal }
{
    signal.is_some_and(|n| is_stop(track.aspect_at(n)))
}
