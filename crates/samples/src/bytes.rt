//! Tables, gate lists and expressions as bytes.
ghost use Rattle.samples.specs.Bytes.{inverter_record, sum_form, toggle_from};
ghost use Rattle.std.specs.Prelude.{◌≡◌, ◌++◌, OnOk};

use std::alloc::AllocError;

/// A table of one variable, the interface bit 0, and one atom that controls and reads it: it starts at 0, and an update takes its
/// old value from this number.
pub fn toggle(from: u8) -> [u8; 32]
    ensures { result ≡ toggle_from from }
{
    let mut bytes = TOGGLE;
    bytes[29] = from;
    bytes
}

/// The toggle: an update takes its old value from 1.
pub const TOGGLE: [u8; 32] = [
    1, 0, 1, 1, 1, 0, 0, 0, 1, 0, 0, 0, 1, 0, 0, 0, 0, 1, 1, 1, 21, 2, 0, 0, 1, 21, 5, 4, 0, 1, 1,
    0,
];

/// The record of a NOT gate, which by itself is a gate list.
pub fn inverter(a: u8, out: u8) -> [u8; 5]
    ensures { result ≡ inverter_record a out }
{
    [0, a, 255, out, 255]
}

/// A gate list whose second record has no kind: fault 18 at byte 5.
pub const FAULTY: [u8; 10] = [0, 0, 255, 1, 255, 7, 0, 255, 2, 255];

/// Adds the bytes of a sum that halves so many times, down to the constant 255: with n halvings 2 ^ n times 255, in 3 · 2 ^ n − 1 bytes.
pub fn push_sum(bytes: &mut Vec<u8>, halvings: u8) -> Result<(), AllocError>
    ensures { OnOk result (bytes.new.items ≡ bytes.old.items ++ sum_form halvings) }
{
    if halvings == 0 {
        return bytes.extend_from_slice(&[0, 255]);
    }
    bytes.push(3)?;
    push_sum(bytes, halvings - 1)?;
    push_sum(bytes, halvings - 1)?;
    Ok(())
}
