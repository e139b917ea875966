//! Drawings, and questions after what a drawing tells, that the tests of several crates share.
#![tactic(auto)]

mod asking;
mod bytes;
mod lists;

pub use asking::{Moment, has_sets, is_just, opens_just};
pub use bytes::{FAULTY, TOGGLE, inverter, push_sum, toggle};
pub use lists::{faulty, not};
