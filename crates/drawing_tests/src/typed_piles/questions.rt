//! The drawings that the tests pile up, and the questions that they ask of a pile.
use gates::GateList;
use model::{Fault, Kind, Outline};
use piles::join_fault;
use samples::inverter;

/// A list of two NOT gates of one input.
pub fn fork(a: u8, first: u8, second: u8) -> GateList {
    GateList::open([inverter(a, first), inverter(a, second)].as_flattened())
}

/// A list of one latch.
pub fn latch(set: u8, reset: u8, out: u8, own: u8) -> GateList {
    GateList::open(&[2, set, reset, out, own])
}

/// A list of NOT gates from name 31 to names 0 up to 14.
pub fn fifteen() -> GateList {
    let mut bytes = [255; 75];
    for (out, record) in (0..15u8).zip(bytes.chunks_exact_mut(5)) {
        record.copy_from_slice(&inverter(31, out));
    }
    GateList::open(&bytes)
}

pub fn has_fault<D: Outline>(drawing: &D, fault: Fault) -> bool {
    drawing.fault() == Some(fault)
}

/// Is this what is wrong with the join of the two?
pub fn join_has_fault<L: Outline, R: Outline>(left: &L, right: &R, fault: Fault) -> bool {
    join_fault(left, right) == Some(fault)
}

/// Is nothing wrong, and is the drawing piled of so many layers with so many atoms?
pub fn is_sound<D: Outline>(drawing: &D, layers: u8, atoms: u8) -> bool {
    drawing.fault().is_none() && drawing.layers() == layers && drawing.atoms() == atoms
}

/// Has the drawing no variables and no atoms?
pub fn is_empty<D: Outline>(drawing: &D) -> bool {
    drawing.atoms() == 0
        && (0..=255u8).all(|name| drawing.kind(name).is_none() && drawing.top(name) == 0)
}

/// Are these the kinds of names 0 to 3?
pub fn has_kinds<D: Outline>(drawing: &D, kinds: [Option<Kind>; 4]) -> bool {
    (0..4u8)
        .zip(kinds)
        .all(|(name, kind)| drawing.kind(name) == kind)
}
