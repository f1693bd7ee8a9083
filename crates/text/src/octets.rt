// Classes of octets, and runs of one class.
ghost use Rattle.std.specs.Prelude.{◌≡◌, ◌≤◌, length};
ghost use Rattle.std.specs.List.{list_all, prefix_len};
ghost use Rattle.text.specs.Octets.{has};

#[derive(Clone, Copy)]
pub enum Class {
    // parts words: LF, CR and space
    Blank,
    // neither a blank nor a mark
    Inner,
    // a letter, a digit, `_`, `(` or `)`
    Allowed,
    // a letter or a digit
    Plain,
    // a letter, a digit or `_`
    Name,
}

impl Class {
    fn has(self, b: u8) -> bool
        ensures { result ≡ has self b }
    {
        match self {
            Class::Blank => matches!(b, b'\n' | b'\r' | b' '),
            Class::Inner => !matches!(b, b'\n' | b'\r' | b' ' | b'*' | b','),
            Class::Allowed =>
                matches!(b, b'a'..=b'z' | b'A'..=b'Z' | b'0'..=b'9' | b'_' | b'(' | b')'),
            Class::Plain => matches!(b, b'a'..=b'z' | b'A'..=b'Z' | b'0'..=b'9'),
            Class::Name => matches!(b, b'a'..=b'z' | b'A'..=b'Z' | b'0'..=b'9' | b'_'),
        }
    }

    // Whether all octets are of the class.
    pub fn all(self, octets: &[u8]) -> bool
        ensures { result ≡ list_all (has self) octets.now }
    {
        octets.iter().all(|b| self.has(*b))
    }

    // How many octets at the front are of the class.
    pub fn run(self, octets: &[u8]) -> usize
        ensures value { result ≡ prefix_len (has self) octets.now }
        ensures bound { result ≤ length octets.now }
    {
        octets.iter().take_while(|b| self.has(**b)).count()
    }
}
