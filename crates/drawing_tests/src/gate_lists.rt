//! Gate lists: what opening finds wrong, and what an opened list tells.
mod meaning;
mod opening;
mod questions;
