//! Byte tables: a drawing written as bytes, kept as it was brought and asked in place.
#![tactic(auto)]

mod atoms;
mod choices;
mod expressions;
mod items;
mod parts;
mod reader;
mod reading;
mod sets;
mod table;
mod variables;

pub use table::Table;
