//! Units: a drawing that was sealed, and what is kept beside it from call to call.
#![tactic(auto)]

mod claims;
mod listing;
mod phase;
mod state;
mod unit;

pub use unit::Unit;
