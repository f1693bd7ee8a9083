// A route whose segments are marked on a board, and the routes of which its request leaves a subroute open.
ghost use Rattle.std.specs.Prelude.{◌≡◌, length};
ghost use Rattle.firsts.specs.Claims.{paired};
ghost use Rattle.firsts.specs.Search.{first_below};
ghost use Rattle.station.specs.Station.{station};
ghost use Rattle.conflicts.specs.Conflicts.{meets};
ghost use Rattle.conflicts.specs.Marks.{marked, open_on, lowest_on};

use firsts::{Probe, least};
use lookups::{request_tests, route_count, segment_of};
use paths::{on_path, path_length, request_guards};
use station::Tables;

// Whether the route's path comes into the segment.
fn meets(tables: &Tables, route: usize, segment: usize) -> bool
    ensures { result ≡ meets (station tables.now) route segment }
{
    (0..path_length(tables, route)).any(|k| segment_of(tables, on_path(tables, route, k))
        == segment)
}

// A route, with its segments marked on the board.
#[derive(Clone, Copy)]
pub(crate) struct Marked<'a, 'b> {
    pub(crate) board: &'b [u8; 64],
    pub(crate) tables: &'a Tables,
    pub(crate) route: usize,
}

// The subroutes of another route that the marked route's request leaves open in a marked segment.
#[derive(Clone, Copy)]
struct Open<'a, 'b, 'c> {
    marked: &'c Marked<'a, 'b>,
    other: usize,
}

impl<'a, 'b, 'c> Probe for Open<'a, 'b, 'c> {
    type Found = usize;

    ghost at = { λ s k. open_on s.marked.now.board.now (station s.marked.now.tables.now) s.marked.now.route s.other k };

    fn probe(&self, k: usize) -> Option<usize> {
        self.marked.open_at(self.other, k)
    }
}

impl<'a, 'b> Marked<'a, 'b> {
    // Whether the segment is marked; one past the board is looked for along the path.
    fn has(&self, segment: usize) -> bool
        ensures { result ≡ marked self.now.board.now (station self.now.tables.now) self.now.route segment }
    {
        let board = self.board;
        match board.get(segment) {
            Some(mark) => *mark != 0,
            None => meets(self.tables, self.route, segment),
        }
    }

    // The segment of the k-th subroute of the other route, where the route's request leaves it open in a marked segment.
    fn open_at(&self, other: usize, k: usize) -> Option<usize>
        ensures { result ≡ open_on self.now.board.now (station self.now.tables.now) self.now.route other k }
    {
        let u = on_path(self.tables, other, k);
        let t = segment_of(self.tables, u);
        let tests = request_tests(self.tables, self.route);
        (self.has(t) && !request_guards(self.tables, tests, u)).then_some(t)
    }

    // The lowest segment in which the route's request leaves the other open.
    fn lowest_open(&self, other: usize) -> Option<usize>
        ensures { result ≡ lowest_on self.now.board.now (station self.now.tables.now) self.now.route other }
    {
        let open = Open {
            marked: self,
            other,
        };
        least(&open, path_length(self.tables, other))
    }

    fn conflict(&self, other: usize) -> Option<(usize, usize)>
        ensures { result ≡ paired other (lowest_on self.now.board.now (station self.now.tables.now) self.now.route other) }
    {
        self.lowest_open(other).map(|t| (other, t))
    }

    // The first other route of which the route's request leaves a subroute open, and the lowest segment of one.
    pub(crate) fn first_conflict(&self) -> Option<(usize, usize)>
        ensures { result ≡ first_below (λ o. paired o (lowest_on self.now.board.now (station self.now.tables.now) self.now.route o)) (length (station self.now.tables.now).routes) }
    {
        (0..route_count(self.tables)).find_map(|o| self.conflict(o))
    }
}
