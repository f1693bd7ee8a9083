// That an image and what a motor track keeps mean each other.
ghost use Rattle.image.specs.Laws.{ImageWritten, ImagesLaw};
ghost use Rattle.station.specs.Station.{Station};

// Does nothing: its contract is that octets mean what a track keeps exactly when they are
// its image and it is of the station; and which tracks have an image.
pub fn images_and_tracks()
    ensures means { (s : Station) → ImagesLaw s }
    ensures written { ImageWritten }
{}
