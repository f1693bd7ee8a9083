// The parts of an image that follow its first three octets.
ghost use Rattle.std.specs.Prelude.{◌≡◌, IfSome, is_some};
ghost use Rattle.image.specs.Tracks.{framing, point_part, signal_part, train_part};

use octets::{HEAD, framed, rest_of};

// The octets of the points, the signals and the trains.
#[derive(Clone, Copy)]
pub(crate) struct Parts<'a> {
    pub(crate) points: &'a [u8],
    pub(crate) signals: &'a [u8],
    pub(crate) trains: &'a [[u8; 4]],
}

impl<'a> Parts<'a> {
    // The parts of octets that begin as an image of so many points and signals does, and are as long.
    pub(crate) fn of(octets: &'a [u8], points: usize, signals: usize) -> Option<Parts<'a>>
        ensures framing { is_some result ≡ framing points signals octets.now }
        ensures points { IfSome result (λ p. p.points.now ≡ point_part points octets.now) }
        ensures signals { IfSome result (λ p. p.signals.now ≡ signal_part points signals octets.now) }
        ensures trains { IfSome result (λ p. p.trains.now ≡ train_part points signals octets.now) }
    {
        let rest = rest_of(points, signals)?;
        if !framed(octets, rest) {
            return None;
        }
        let (points, octets) = octets[HEAD..].split_at(points);
        let (signals, octets) = octets.split_at(signals);
        let (trains, _) = octets.as_chunks::<4>();
        Some(Parts {
            points,
            signals,
            trains,
        })
    }
}
