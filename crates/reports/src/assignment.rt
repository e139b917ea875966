//! What a choice gives to a name.
use std::fmt;

/// A name, and what is given to it: a value, or the written number that tells it.
#[derive(Clone, Copy)]
pub struct Assignment<V> {
    pub name: u8,
    pub value: V,
}

// What is given, for people.
impl<V: fmt::Display> fmt::Display for Assignment<V> {
    fn fmt<W: fmt::Write>(&self, f: &mut fmt::Formatter<W>) -> fmt::Result {
        write!(f, "name {} := {}", self.name, self.value)
    }
}
