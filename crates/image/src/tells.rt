// The image of a motor track, read back.
ghost use Rattle.std.specs.Prelude.{◌≡◌, IfOk, map};
ghost use Rattle.image.specs.Image.{image, whole};
ghost use Rattle.image.specs.Laws.{AnswersWhere};
ghost use Rattle.motor.specs.Kept.{kept};
ghost use Rattle.octets.specs.Each.{Told};
ghost use Rattle.octets.specs.Writes.{aspect_octet};

use motor::Motor;
use octets::{PointWritten, TrainWritten, aspect_octet, each, head, rest_of};
use std::alloc::{AllocError, Global};
use track::Aspect;

// The parts of an image in their order, after its first three octets.
#[tactic(auto, using(std::proofs::Common::append_assoc))]
fn whole(
    heap: Global,
    points: &[u8],
    signals: &[u8],
    trains: &[[u8; 4]],
) -> Result<Option<Vec<u8>>, AllocError>
    ensures { IfOk result (λ o. Told o (whole points.now signals.now trains.now)) }
{
    let Some(rest) = rest_of(points.len(), signals.len()) else {
        return Ok(None);
    };
    let mut octets = Vec::new(heap);
    // One after another, since `concat` of an array of slices gets no proof.
    octets.extend_from_slice(&head(rest))?;
    octets.extend_from_slice(points)?;
    octets.extend_from_slice(signals)?;
    octets.extend_from_slice(trains.as_flattened())?;
    Ok(Some(octets))
}

fn signal_octets(heap: Global, aspects: &[Aspect]) -> Result<Vec<u8>, AllocError>
    ensures { IfOk result (λ v. v.items ≡ map aspect_octet aspects.now) }
{
    aspects.iter().map(|a| aspect_octet(*a)).collect(heap)
}

fn written(heap: Global, track: &Motor) -> Result<Option<Vec<u8>>, AllocError>
    ensures { IfOk result (λ o. Told o (image (kept track.now))) }
{
    let Some(points) = each(heap, &PointWritten, track.runs())? else {
        return Ok(None);
    };
    let signals = signal_octets(heap, track.aspects())?;
    let Some(trains) = each(heap, &TrainWritten, track.trains())? else {
        return Ok(None);
    };
    whole(
        heap,
        points.as_slice(),
        signals.as_slice(),
        trains.as_slice(),
    )
}

// The image of a track. None where what it keeps has no octets: more than 8 settlings left, a number above 255, a
// train that is present and holds no segment or is derailed and not wholly in one, or more signals than the length can say.
pub fn image_of(heap: Global, track: &Motor) -> Result<Option<Vec<u8>>, AllocError>
    ensures value { IfOk result (λ o. Told o (image (kept track.now))) }
    ensures able { IfOk result (λ o. AnswersWhere o (kept track.now)) }
{
    written(heap, track)
}
