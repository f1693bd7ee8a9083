// Names of things, as the text writes them without their prefix.
use std::fmt;

// The x of `T_x`, `P_x`, `R_x` or `U_IR(x)`, or a joint's name.
#[derive(PartialEq, Drop)]
pub struct Name {
    pub octets: Vec<u8>,
}

impl fmt::Display for Name {
    fn fmt<W: fmt::Write>(&self, f: &mut fmt::Formatter<W>) -> fmt::Result {
        for b in self.octets.as_slice() {
            let c = char::from(*b);
            write!(f, "{c}")?;
        }
        Ok(())
    }
}
