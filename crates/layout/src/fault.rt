// Why a sheet is refused, and where.
ghost use Rattle.std.specs.Prelude.{Some};
ghost use Rattle.layout.specs.Texts.{fault_text};

use chip::Refusal;
use std::error::Error;
use std::fmt;

// The cause, and the byte at which the reader stood: the first of the faulty field, or the input's length where
// no field began, or the first byte after the end field.
#[derive(Clone, Copy, PartialEq, Eq, Debug)]
pub struct Fault {
    pub refusal: Refusal,
    pub byte: usize,
}

// As `2 at 31`: the number of the cause, and the byte.
impl fmt::Display for Fault {
    ghost output = { λ fault. Some (fault_text fault) };

    fn fmt<W: fmt::Write>(&self, f: &mut fmt::Formatter<W>) -> fmt::Result {
        let number = self.refusal.number();
        let byte = self.byte;
        write!(f, "{number} at {byte}")
    }
}

impl Error for Fault {}
