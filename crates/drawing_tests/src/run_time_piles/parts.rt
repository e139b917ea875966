//! The drawings that the tests pile up.
use any_drawing::AnyDrawing;
use samples::{FAULTY, TOGGLE, inverter};
use std::alloc::{AllocError, Global};

/// A table of one variable, name 0, which starts at 0 and takes its old value from 1 in each later round.
pub fn toggle(heap: Global) -> Result<AnyDrawing, AllocError> {
    AnyDrawing::table(heap, &TOGGLE)
}

/// A list of one NOT gate.
pub fn not(heap: Global, a: u8, out: u8) -> Result<AnyDrawing, AllocError> {
    AnyDrawing::gates(heap, &inverter(a, out))
}

/// A list of one AND gate.
pub fn and(heap: Global, a: u8, b: u8, out: u8) -> Result<AnyDrawing, AllocError> {
    AnyDrawing::gates(heap, &[1, a, b, out, 255])
}

/// A list with a fault of its own.
pub fn faulty(heap: Global) -> Result<AnyDrawing, AllocError> {
    AnyDrawing::gates(heap, &FAULTY)
}

/// A drawing with nothing in it.
pub fn empty(heap: Global) -> Result<AnyDrawing, AllocError> {
    AnyDrawing::gates(heap, &[])
}
