//! Certificates and runs judged. The outcomes of each round are gone through: external values first, then each atom's open choices, in
//! an order in which each atom comes after those that it awaits.
#![tactic(auto)]

mod certificate;
mod indices;
mod round;
mod run;
mod states;

pub use certificate::judge_certificate;
pub use run::judge_run;
