//! Byte strings as hex digits, two to a byte.
ghost use Rattle.script.specs.Hex.{bytes_in_hex};
ghost use Rattle.script.specs.Reading.{Reads};
ghost use Rattle.std.specs.Prelude.{vec_items};

use crate::mistake::Mistake;
use std::alloc::Global;

/// The bytes that a text of hex digits spells.
pub fn bytes_of_hex(heap: Global, text: &str) -> Result<Vec<u8>, Mistake>
    ensures { Reads vec_items (bytes_in_hex text.now) result }
{
    Ok(hex::decode(heap, text)?)
}
