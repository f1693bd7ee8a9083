// A guard over a board of marks, which holds again what it held when the guard ends.
ghost use Rattle.std.specs.Prelude.{◌≡◌};
ghost use Rattle.station.specs.Station.{station};
ghost use Rattle.conflicts.specs.Marks.{Shows};

use lookups::segment_of;
use paths::{on_path, path_length};
use station::Tables;

// 0 and 1 for a mark, since the caller lends the board as octets.
pub(crate) struct Marks<'b> {
    board: &'b mut [u8; 64],
    saved: [u8; 64],
}

impl<'b> Marks<'b> {
    // Keeps aside what the board holds.
    pub(crate) fn new(board: &'b mut [u8; 64]) -> Marks<'b>
        ensures saved { result.saved ≡ board.old }
        ensures lender { result.board.ghost_name ≡ board.entry.ghost_name }
    {
        let saved = *board;
        Marks { board, saved }
    }

    // Marks the segments of a route's path, and no others.
    pub(crate) fn show(&mut self, tables: &Tables, route: usize)
        ensures shows { Shows self.new.board.now (station tables.now) route }
        ensures saved { self.new.saved ≡ self.old.saved }
        ensures lender { self.new.board.ghost_name ≡ self.old.board.ghost_name }
    {
        *self.board = [0; 64];
        // By index in a loop: of what a closure changes, or a write through `get_mut` of a slice, nothing is promised.
        for k in 0..path_length(tables, route) {
            let t = segment_of(tables, on_path(tables, route, k));
            if t < 64 {
                self.board[t] = 1;
            }
        }
    }

    pub(crate) fn board(&self) -> &[u8; 64]
        ensures { result.now ≡ self.now.board.now }
    {
        self.board
    }
}

impl Drop for Marks<'_> {
    fn drop(self)
        ensures { self.exit.0.now ≡ self.entry.saved }
    {
        let saved = self.saved;
        *self.board = saved;
        let Marks { board: _, saved: _ } = self;
    }
}
