// Escapes in the lines of a case.
use std::alloc::AllocError;

#[derive(Clone, Copy)]
enum State {
    Plain,
    // after a backslash
    Slash,
    // after a backslash and one digit
    Digit(u8),
    // in a count of spaces
    Count(u32),
}

#[derive(Clone, Copy)]
pub struct Unescaper {
    state: State,
}

fn hex(b: u8) -> u8 {
    match b {
        b'0'..=b'9' => b - b'0',
        b'a'..=b'f' => b - b'a' + 10,
        _ => 0,
    }
}

impl Unescaper {
    pub fn new() -> Unescaper {
        Unescaper {
            state: State::Plain,
        }
    }

    fn add(&mut self, b: u8, out: &mut Vec<u8>) -> Result<(), AllocError> {
        match self.state {
            State::Plain => {
                if b == b'\\' {
                    self.state = State::Slash;
                } else {
                    out.push(b)?;
                }
            }
            State::Slash => {
                if b == b'(' {
                    self.state = State::Count(0);
                } else {
                    self.state = State::Digit(hex(b));
                }
            }
            State::Digit(high) => {
                out.push(high.wrapping_mul(16) | hex(b))?;
                self.state = State::Plain;
            }
            State::Count(n) => {
                if b == b')' {
                    for _ in 0..n {
                        out.push(b' ')?;
                    }
                    self.state = State::Plain;
                } else {
                    self.state = State::Count(
                        n.saturating_mul(10).saturating_add(u32::from(hex(b))),
                    );
                }
            }
        }
        Ok(())
    }

    // Adds what a line stands for.
    pub fn add_all(mut self, line: &[u8], out: &mut Vec<u8>) -> Result<(), AllocError> {
        for b in line {
            self.add(*b, out)?;
        }
        Ok(())
    }
}
