// Rows of the layout. `at` is the offset of the row's first word.
ghost use Rattle.std.specs.Prelude.{◌≡◌};
ghost use Rattle.std.specs.Option.{option_map};
ghost use Rattle.text.specs.Ahead.{tokens_ahead};
ghost use Rattle.forms.specs.Heads.{headed};
ghost use Rattle.rows.specs.Faults.{row_out, Reads};
ghost use Rattle.rows.specs.Rows.{placed_row};
ghost use Rattle.sheets.specs.Layout.{rows_of, a_segment_row, a_joint_row, a_point_row, a_way_row, a_signal_row, a_layout_row};

use crate::sofar::Sofar;
use forms::{Head, Listing};
use rows::{JointRow, Key, Kind, PointRow, ReadingFault, Row, RowFault, SignalRow, WayRow};
use steps::{far, joint, pairs, point, segment};
use text::Reader;

const SEGMENTS: usize = 64;

const JOINTS: usize = 96;

const POINTS: usize = 32;

const WAYS: usize = 96;

const SIGNALS: usize = 48;

impl<'a> Sofar<'a> {
    fn segment_row(&self, reader: &mut Reader<'a>, at: usize) -> Result<Row<'a>, RowFault>
        ensures { row_out placed_row result (tokens_ahead reader.new) ≡ a_segment_row (rows_of self.now.rows) at (tokens_ahead reader.old) }
    {
        self.room(Kind::Segment, SEGMENTS, at)?;
        let name = segment(reader)?;
        self.fresh(Kind::Segment, Key::from(name), name.at)?;
        Ok(Row::Segment(name))
    }

    fn joint_row(&self, reader: &mut Reader<'a>, at: usize) -> Result<Row<'a>, RowFault>
        ensures { row_out placed_row result (tokens_ahead reader.new) ≡ a_joint_row (rows_of self.now.rows) at (tokens_ahead reader.old) }
    {
        self.room(Kind::Joint, JOINTS, at)?;
        let name = joint(reader)?;
        self.fresh(Kind::Joint, Key::from(name), name.at)?;
        let segment = segment(reader)?;
        let far = far(reader)?;
        Ok(Row::Joint(JointRow { name, segment, far }))
    }

    fn point_row(&self, reader: &mut Reader<'a>, at: usize) -> Result<Row<'a>, RowFault>
        ensures { row_out placed_row result (tokens_ahead reader.new) ≡ a_point_row (rows_of self.now.rows) at (tokens_ahead reader.old) }
    {
        self.room(Kind::Point, POINTS, at)?;
        let name = point(reader)?;
        self.fresh(Kind::Point, Key::from(name), name.at)?;
        let home = segment(reader)?;
        self.uncrowded(home)?;
        Ok(Row::Point(PointRow { name, home }))
    }

    fn way_row(&self, reader: &mut Reader<'a>, at: usize) -> Result<Row<'a>, ReadingFault>
        ensures { Reads placed_row result (tokens_ahead reader.new) (a_way_row (rows_of self.now.rows) at (tokens_ahead reader.old)) }
    {
        self.room(Kind::Way, WAYS, at)?;
        let segment = segment(reader)?;
        let from = joint(reader)?;
        let to = joint(reader)?;
        let settings = pairs(reader, self.heap, Listing::Settings)?;
        Ok(Row::Way(WayRow {
            segment,
            from,
            to,
            settings,
        }))
    }

    fn signal_row(&self, reader: &mut Reader<'a>, at: usize) -> Result<Row<'a>, RowFault>
        ensures { row_out placed_row result (tokens_ahead reader.new) ≡ a_signal_row (rows_of self.now.rows) at (tokens_ahead reader.old) }
    {
        self.room(Kind::Signal, SIGNALS, at)?;
        let joint = joint(reader)?;
        let segment = segment(reader)?;
        self.fresh(Kind::Signal, Key::from((joint, segment)), joint.at)?;
        Ok(Row::Signal(SignalRow { joint, segment }))
    }

    // A row of the layout after its head; nothing after `DATA`.
    pub fn layout_row(
        &self,
        reader: &mut Reader<'a>,
        at: usize,
        head: Head<'a>,
    ) -> Result<Option<Row<'a>>, ReadingFault>
        ensures { Reads (option_map placed_row) result (tokens_ahead reader.new) (a_layout_row (rows_of self.now.rows) at (headed head.entry) (tokens_ahead reader.old)) }
    {
        let row = match head {
            Head::Segment => self.segment_row(reader, at)?,
            Head::Joint => self.joint_row(reader, at)?,
            Head::Point => self.point_row(reader, at)?,
            Head::Way => self.way_row(reader, at)?,
            Head::Signal => self.signal_row(reader, at)?,
            Head::Data => return Ok(None),
            _ => return Err(RowFault::Form(at).into()),
        };
        Ok(Some(row))
    }
}
