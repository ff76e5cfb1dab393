// Where and why a text is refused as a sheet.
ghost use Rattle.std.specs.Prelude.{Some};
ghost use Rattle.reader.specs.FaultText.{fault_text};

use grammar::Refusal;
use std::error::Error;
use std::fmt;

// Lines are counted from 1; line 0 is the text as a whole.
#[derive(Clone, Copy, Debug, PartialEq, Eq)]
pub struct Fault {
    pub refusal: Refusal,
    pub line: u16,
}

impl fmt::Display for Fault {
    ghost output = { λ fault. Some (fault_text fault) };

    fn fmt<W: fmt::Write>(&self, f: &mut fmt::Formatter<W>) -> fmt::Result {
        let line = self.line;
        let layer = self.refusal.layer();
        match self.refusal {
            Refusal::Plan(rule) => write!(f, "line={line} layer={layer} rule={}", u8::from(rule)),
            _ => write!(f, "line={line} layer={layer}"),
        }
    }
}

impl Error for Fault {}
