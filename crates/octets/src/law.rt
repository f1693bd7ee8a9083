// That what is written is read again, and what is read was written so.
ghost use Rattle.octets.specs.Laws.{PointsLaw, PointsWritten, SignalsLaw, TrainsLaw, TrainsWritten};

// Does nothing: its contract is that an octet means a point or a signal, and four octets a train, exactly when it is
// written so; and which points and trains can be written. Every signal can.
pub fn written_and_read()
    ensures points { PointsLaw }
    ensures signals { SignalsLaw }
    ensures trains { TrainsLaw }
    ensures points_written { PointsWritten }
    ensures trains_written { TrainsWritten }
{}
