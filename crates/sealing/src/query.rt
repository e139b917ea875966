//! A query about an atom: which of its failures is looked for, and what has to be known of it.
use model::{Names, State};

/// The failure that is looked for: no choice is open, an open one gives a value out of range, or either. The three are named, no
/// closures: each clause that names a failure would have to say of a closure what it answers, of which drawing, round and atom, at
/// all values.
#[derive(Clone, Copy, PartialEq, Eq, Debug)]
pub enum Failure {
    NothingOpen,
    GivesOutside,
    Either,
}

/// The atom's number, how many choices it has in the round, the names that it controls, the top of each name, and the largest
/// value at each place: those of the 32 old values first, then those of the new ones, 0 for what the atom does not see. They are
/// one array of 64 places, since one walk goes through old and new values alike.
#[derive(Clone, Copy)]
pub struct Query {
    pub failure: Failure,
    pub atom: u8,
    pub choices: u8,
    pub controlled: Names,
    pub tops: State,
    pub ranges: [u8; 64],
}
