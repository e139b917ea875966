//! Gate lists: a drawing written as records of five bytes, each a gate.
#![tactic(auto)]

mod gate;
mod list;
mod reading;

pub use gate::{Field, Gate, Malformed, Part};
pub use list::GateList;
