// What becomes of a call that moves a train.
ghost use Rattle.std.specs.Prelude.{◌≡◌};
ghost use Rattle.holding.specs.Courses.{course, rear_course};
ghost use Rattle.holding.specs.Seen.{off_at};
ghost use Rattle.station.specs.Station.{station};

use crate::kept::Holding;
use station::Tables;
use track::Train;

#[derive(Clone, Copy)]
pub enum Course {
    // the call goes down
    Down,
    // the train is kept derailed
    Off,
    // the train derails over a point that is held
    Derails,
}

impl Holding {
    // What becomes of taking the train on, or of turning it.
    pub fn course(&self, tables: &Tables, n: usize, t: Train) -> Course
        ensures { result ≡ course (station tables.now) self.now.counts (off_at self.now.derailed n) t }
    {
        let Some(p) = t else {
            return Course::Down;
        };
        if self.is_off(n) {
            return Course::Off;
        }
        match (p.derailed, p.front, p.rear) {
            (false, Some(segment), None) if self.some_held(tables, segment) => Course::Derails,
            _ => Course::Down,
        }
    }

    // What becomes of giving up the train's rear.
    pub fn rear_course(&self, n: usize, t: Train) -> Course
        ensures { result ≡ rear_course (off_at self.now.derailed n) t }
    {
        match t {
            Some(_) if self.is_off(n) => Course::Off,
            _ => Course::Down,
        }
    }
}
