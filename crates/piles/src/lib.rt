//! Piles: drawings made of drawings, by joining two, by renaming a variable or by hiding one. What is wrong with a
//! pile is judged once, when it is made, and kept with it.
#![tactic(auto)]

mod exchange;
mod faults;
mod hide;
mod join;
mod rename;
mod rules;

pub use exchange::Exchange;
pub use faults::{hide_fault, join_fault, rename_fault, up_to_255};
pub use hide::Hide;
pub use join::{Join, joined_kind};
pub use rename::Rename;
