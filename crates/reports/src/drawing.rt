//! What is told of a drawing that was made.
use crate::faults::{FaultNumbers, FaultWords};
use model::Fault;
use std::fmt;

/// What is told of a drawing that was made: the name that it is bound to, what it is in a word or two, and its fault, if any.
#[derive(Drop)]
pub struct DrawingReport<'a> {
    pub name: String,
    pub what: &'a str,
    pub fault: Option<Fault>,
}

impl fmt::Display for DrawingReport<'_> {
    fn fmt<W: fmt::Write>(&self, f: &mut fmt::Formatter<W>) -> fmt::Result {
        write!(f, "{} -- {} is a ", FaultNumbers(self.fault), self.name)?;
        match self.fault {
            None => write!(f, "{} without fault", self.what),
            Some(fault) => write!(f, "faulty {}: {}", self.what, FaultWords(fault)),
        }
    }
}
