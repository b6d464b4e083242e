ghost use Rattle.std.specs.Prelude.{Some};
ghost use Rattle.refusals.specs.Refusals.{shown};

use super::refusal::Refusal;
use std::error::Error;
use std::fmt;

// `refused`, the number and the values, as `refused 8 0 12`; want of memory, which has none, as `refused memory`.
impl fmt::Display for Refusal {
    ghost output = { λ r. Some (shown r) };

    fn fmt<W: fmt::Write>(&self, f: &mut fmt::Formatter<W>) -> fmt::Result {
        match self.number() {
            Some(number) => write!(f, "refused {number}")?,
            None => write!(f, "refused memory")?,
        }
        match self.values() {
            (Some(first), Some(second)) => write!(f, " {first} {second}"),
            (Some(value), None) | (None, Some(value)) => write!(f, " {value}"),
            (None, None) => Ok(()),
        }
    }
}

impl Error for Refusal {}
