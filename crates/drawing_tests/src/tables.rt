//! Byte tables: what opening finds wrong, and what an opened table tells.
mod building;
mod choices;
mod faults;
mod questions;
mod sizes;
