// Names in a text.

// A name's octets, and the offset of the word that has it. The fields of a word, but only of one that has the name's form.
#[derive(Clone, Copy)]
pub struct Name<'a> {
    pub octets: &'a [u8],
    pub at: usize,
}
