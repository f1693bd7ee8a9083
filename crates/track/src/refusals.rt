// Why a call is refused.
ghost use Rattle.std.specs.Prelude.{◌≡◌};
ghost use Rattle.track.specs.Refusals.{number};

#[derive(Clone, Copy, PartialEq)]
pub enum Refusal {
    // 31: its table has no such number
    Unknown,
    // 34: the point is settled
    AtRest,
    // 35: entry of a train that is present, or a move of one that is absent
    Presence,
    // 36: a signal ahead shows stop, or an entry is not from outside
    StopAhead,
    // 37: the train is not wholly in one segment, meets a buffer stop, or has no rear to give up
    Extent,
    // 38: no signal stands onward at the joint by which a turning train came in
    Unsignalled,
    // 39: no way fits, or the train was derailed before
    OffTrack,
    // 40: the track has another number of points or signals than the station, or its image is malformed
    Mismatch,
}

impl Refusal {
    // The number by which a refusal is known.
    pub fn number(self) -> u8
        ensures { result ≡ number self }
    {
        match self {
            Refusal::Unknown => 31,
            Refusal::AtRest => 34,
            Refusal::Presence => 35,
            Refusal::StopAhead => 36,
            Refusal::Extent => 37,
            Refusal::Unsignalled => 38,
            Refusal::OffTrack => 39,
            Refusal::Mismatch => 40,
        }
    }
}
