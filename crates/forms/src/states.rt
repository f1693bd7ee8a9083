// The states that pairs give to things.
ghost use Rattle.std.specs.Prelude.{◌≡◌};
ghost use Rattle.forms.specs.States.{state_word};
ghost use Rattle.forms.specs.Lists.{picked};

#[derive(Clone, Copy, PartialEq)]
pub enum State {
    Xs,
    Cfn,
    Cfr,
    S,
    Cn,
    Cr,
    N,
    R,
    F,
    L,
    C,
}

impl State {
    // The one of these states that the word writes.
    pub fn among(states: &[State], w: &[u8]) -> Option<State>
        ensures { result ≡ picked states.now w.now }
    {
        states.iter().copied().find(|s| w == s.text())
    }

    // The word that writes it.
    pub fn text(self) -> &'static [u8]
        ensures { result.now ≡ state_word self }
    {
        match self {
            State::Xs => b"xs",
            State::Cfn => b"cfn",
            State::Cfr => b"cfr",
            State::S => b"s",
            State::Cn => b"cn",
            State::Cr => b"cr",
            State::N => b"n",
            State::R => b"r",
            State::F => b"f",
            State::L => b"l",
            State::C => b"c",
        }
    }
}
