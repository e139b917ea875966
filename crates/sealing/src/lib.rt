//! What sealing judges of a drawing: each check by a function of its own, the verdict in their order; values at which an atom
//! fails; and an order of the atoms in which each comes after those that it awaits.
#![tactic(auto)]

mod atom_in_round;
mod await_table;
mod circles;
mod control;
mod failures;
mod order;
mod products;
mod query;
mod search;
mod seen_values;
mod verdict;
mod width;
mod witness;
mod witnesses;

pub use atom_in_round::first_witness;
pub use await_table::AwaitTable;
pub use order::order_of;
pub use query::Failure;
pub use verdict::judge;
pub use witness::Witness;
pub use witnesses::{outside_at, stuck_at};
