//! Expressions written as bytes: whether they are right, what they are worth, and the exchange of two names in them.
#![tactic(auto)]

mod checking;
mod evaluation;
mod evaluator;
mod operators;
mod renaming;

pub use checking::{Seen, check_number, check_truth};
pub use evaluation::{number_value, truth_value};
pub use operators::{LEVELS, NoOperator, NumberOperator, TruthOperator};
pub use renaming::rename;
