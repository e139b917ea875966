//! Faults as three numbers, and as errors.
ghost use Rattle.std.specs.Prelude.{◌≡◌, Some};
ghost use Rattle.model.specs.Faults.{numbers_of, fault_text};

use crate::Fault;
use std::error::Error;
use std::fmt;

/// A fault's number, layer and place; 0, 0 and 0 where there is none. A fault's own number is never 0.
pub fn fault_numbers(fault: Option<Fault>) -> (u8, u8, u16)
    ensures { result ≡ numbers_of fault }
{
    fault.map_or((0, 0, 0), |fault| (fault.number, fault.layer, fault.place))
}

// Its number, layer and place: what is wrong in words is for those to say who know the rules.
impl fmt::Display for Fault {
    ghost output = { λ fault. Some (fault_text fault) };

    fn fmt<W: fmt::Write>(&self, f: &mut fmt::Formatter<W>) -> fmt::Result {
        write!(f, "{} {} {}", self.number, self.layer, self.place)
    }
}

impl Error for Fault {}
