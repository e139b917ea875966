//! Drawings piled while a program runs, kept as what they mean: however deep the pile, a question takes a bounded number of steps.
#![tactic(auto)]

mod assembly;
mod atom;
mod by_number;
mod form;

pub use assembly::Assembly;
pub use atom::FormAtom;
pub use by_number::ByNumber;
pub use form::Form;
