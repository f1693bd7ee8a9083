// What can be wrong with a word.

// Each case has the offset of the word.
#[derive(Clone, Copy, PartialEq)]
pub enum WordFault {
    // it has an octet that no word may have
    Octet(usize),
    // it is longer than 16 octets
    Long(usize),
}
