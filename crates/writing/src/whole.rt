// A whole text into tables, with what that says of the text.
ghost use Rattle.station.specs.Station.{Station, station};
ghost use Rattle.reading.specs.Reading.{reading, Settles};
ghost use Rattle.writing.specs.Written.{Written, WhereRead, ReadsAs};

use rows::ReadingFault;
use station::Tables;
use std::alloc::Global;

// Reads the text into the tables, whatever they held; on any refusal they are left empty. A text that is read is
// a writing of the station that the tables then say, and every writing of a station is read as that station, or
// memory was wanting.
#[tactic(auto, using(crate::proofs::Writings::written, crate::proofs::Writings::whole))]
pub fn read(text: &[u8], heap: Global, tables: &mut Tables) -> Result<(), ReadingFault>
    ensures settles { Settles result (station tables.new) (reading text.now) }
    ensures written { WhereRead result (Written text.now (station tables.new)) }
    ensures whole { (s : Station) → Written text.now s → ReadsAs result (station tables.new) s }
{
    reading::read(text, heap, tables)
}
