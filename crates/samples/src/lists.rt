//! Gate lists.
ghost use Rattle.gates.specs.GateLists.{meaning_of};
ghost use Rattle.gates.specs.Meanings.{gates_meaning};
ghost use Rattle.samples.specs.Bytes.{inverter_record, wrong_second_record};
ghost use Rattle.std.specs.Prelude.{◌≡◌};

use crate::bytes::{FAULTY, inverter};
use gates::GateList;

/// A list of one NOT gate.
pub fn not(a: u8, out: u8) -> GateList
    ensures { meaning_of result ≡ gates_meaning (inverter_record a out) }
{
    GateList::open(&inverter(a, out))
}

/// A list with a fault of its own.
pub fn faulty() -> GateList
    ensures { meaning_of result ≡ gates_meaning wrong_second_record }
{
    GateList::open(&FAULTY)
}
