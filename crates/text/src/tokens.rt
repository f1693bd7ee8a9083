// The tokens of a text.

// A word: its octets in the text, and where they begin.
#[derive(Clone, Copy)]
pub struct Word<'a> {
    pub octets: &'a [u8],
    pub at: usize,
}

// A mark with its offset, or a word.
#[derive(Clone, Copy)]
pub enum Token<'a> {
    Star(usize),
    Comma(usize),
    Word(Word<'a>),
}
