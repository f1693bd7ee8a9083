// The faults of a row and of a whole reading.
ghost use Rattle.std.specs.Prelude.{◌≡◌};
ghost use Rattle.rows.specs.Faults.{code};
ghost use Rattle.rows.specs.declared.faults.RowFault.TheVariants.{Word};
ghost use Rattle.rows.specs.declared.faults.ReadingFault.TheVariants.{Row, Memory};

use std::alloc::{AllocError, AllocFailed};
use text::WordFault;

// Each with the offset of the word or mark at fault.
#[derive(Clone, Copy)]
pub enum RowFault {
    Word(WordFault),
    // no such form
    Form(usize),
    // one more than a limit allows
    Limit(usize),
    // a thing or row that there is already
    Twice(usize),
}

#[derive(Clone, Copy)]
pub enum ReadingFault {
    // the text is too long
    Size,
    Row(RowFault),
    // a name that nothing has, with the offset of its word
    Undeclared(usize),
    // a row is missing; with the text's length
    Incomplete(usize),
    // there was no memory for the tables
    Memory,
}

impl From<WordFault> for RowFault {
    ghost from_gives = { λ e r. r ≡ Word e };

    fn from(e: WordFault) -> RowFault {
        RowFault::Word(e)
    }
}

impl From<RowFault> for ReadingFault {
    ghost from_gives = { λ e r. r ≡ Row e };

    fn from(e: RowFault) -> ReadingFault {
        ReadingFault::Row(e)
    }
}

impl From<AllocError> for ReadingFault {
    ghost from_gives = { λ _ r. r ≡ Memory };

    fn from(_e: AllocError) -> ReadingFault {
        ReadingFault::Memory
    }
}

impl<T: Drop> From<AllocFailed<T>> for ReadingFault {
    ghost from_gives = { λ _ r. r ≡ Memory };

    fn from(_e: AllocFailed<T>) -> ReadingFault {
        ReadingFault::Memory
    }
}

impl ReadingFault {
    // The number of the refusal and its offset; want of memory has none.
    pub fn code(self) -> Option<(u8, usize)>
        ensures { result ≡ code self }
    {
        match self {
            ReadingFault::Size => Some((1, 0)),
            ReadingFault::Row(RowFault::Word(WordFault::Octet(at))) => Some((2, at)),
            ReadingFault::Row(RowFault::Word(WordFault::Long(at))) => Some((3, at)),
            ReadingFault::Row(RowFault::Form(at)) => Some((3, at)),
            ReadingFault::Row(RowFault::Limit(at)) => Some((4, at)),
            ReadingFault::Row(RowFault::Twice(at)) => Some((5, at)),
            ReadingFault::Undeclared(at) => Some((6, at)),
            ReadingFault::Incomplete(at) => Some((7, at)),
            ReadingFault::Memory => None,
        }
    }
}
