//! What is told of drawings and units, in numbers for programs and in words for people; choices of byte tables in infix notation.
#![tactic(auto)]

mod ask;
mod assignment;
mod choices;
mod drawing;
mod facts;
mod faults;
mod infix;
mod listed;
mod outline;
mod verdict;

pub use ask::ChoiceReport;
pub use assignment::Assignment;
pub use choices::choice_lines;
pub use drawing::DrawingReport;
pub use facts::{Atom, Variable, atoms, variables};
pub use faults::{FaultNumbers, FaultWords};
pub use outline::OutlineReport;
pub use verdict::{Age, Seen, VerdictReport, WitnessReport};
