//! Long expressions and tables, put together from parts.
use samples::push_sum;
use std::alloc::{AllocError, Global};
use std::iter::repeat_n;
use std::test::Fail;

/// 21 times 255, in 62 bytes.
pub fn push_highest(bytes: &mut Vec<u8>) -> Result<(), AllocError> {
    bytes.push(3)?;
    push_sum(bytes, 4)?;
    bytes.push(3)?;
    push_sum(bytes, 2)?;
    push_sum(bytes, 0)
}

/// 20 times 255 taken from 0, in 62 bytes.
pub fn push_lowest(bytes: &mut Vec<u8>) -> Result<(), AllocError> {
    bytes.extend_from_slice(&[4, 0, 0, 3])?;
    push_sum(bytes, 4)?;
    push_sum(bytes, 2)
}

/// Twice the negation of 5 times 255 being less than 16 times: eight levels and 64 bytes, and it holds.
pub fn push_longest_truth(bytes: &mut Vec<u8>) -> Result<(), AllocError> {
    bytes.extend_from_slice(&[18, 18, 17, 3])?;
    push_sum(bytes, 2)?;
    push_sum(bytes, 0)?;
    push_sum(bytes, 4)
}

/// The last guard of a long table: so many negations of 2 times 255 being less than a sum that halves so many times, in so many bytes.
#[derive(Clone, Copy)]
pub struct LastGuard {
    pub size: u8,
    pub negations: u8,
    pub halvings: u8,
}

fn push_last_guard(bytes: &mut Vec<u8>, last: LastGuard) -> Result<(), AllocError> {
    bytes.push(last.size)?;
    bytes.extend(repeat_n(18, usize::from(last.negations)))?;
    bytes.push(17)?;
    push_sum(bytes, 1)?;
    push_sum(bytes, last.halvings)
}

fn push_guard(bytes: &mut Vec<u8>) -> Result<(), AllocError> {
    bytes.push(64)?;
    push_longest_truth(bytes)
}

/// One variable, and as many atoms as told, of which two are there, with eight choices of each kind; all guards but the last
/// have 64 bytes, and all numbers 62.
pub fn long_table(heap: Global, atoms: u8, last: LastGuard) -> Result<Vec<u8>, Fail> {
    let mut bytes = Vec::new(heap);
    bytes.extend_from_slice(&[1, 0, 1, 255, atoms])?;
    for choice in 0..32u8 {
        if choice % 16 == 0 {
            bytes.extend_from_slice(&[0, 0, 0, 1, 0, 0, 0, 0, 0, 0, 0, 0, 8, 8])?;
        }
        if choice == 31 {
            push_last_guard(&mut bytes, last)?;
        } else {
            push_guard(&mut bytes)?;
        }
        bytes.push(62)?;
        push_highest(&mut bytes)?;
    }
    Ok(bytes)
}
