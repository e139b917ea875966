//! Piles of gate lists whose shape is in their type.
mod faults;
mod meaning;
mod questions;
mod stub_outline;
