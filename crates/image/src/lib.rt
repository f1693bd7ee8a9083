// The image of a motor track in octets: a track made from it, and read back.
#![tactic(auto)]

mod law;
mod makes;
mod parts;
mod tells;
mod unmade;

pub use law::images_and_tracks;
pub use makes::track_of;
pub use tells::image_of;
pub use unmade::Unmade;
