//! One type for every drawing: a leaf, or a pile of such drawings. What is piled is decided while a program runs.
#![tactic(auto)]

mod making;
mod tree;

pub use tree::{AnyDrawing, Node};
