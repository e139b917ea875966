//! The types that every drawing and every unit speak of.
#![tactic(auto)]

ghost use Rattle.model.specs.Faults.{own};
ghost use Rattle.model.specs.States.{value};
ghost use Rattle.std.specs.Prelude.{◌≡◌};

mod below;
mod exchange;
mod faults;
mod interface;
mod kinds;
mod names;
mod promises;
mod row;

pub use below::{all_below, any_below, count_below, lowest_below};
pub use exchange::exchanged;
pub use faults::fault_numbers;
pub use interface::{Drawing, Outline};
pub use kinds::{UnknownKind, UnknownRound};
pub use names::{Atoms, Marks, Members, Names};
pub use promises::meanings_are_outlines_and_choices;
pub use row::{Full, Row};

/// How a module's variable is controlled and seen: by the module alone, by the module for all to see,
/// or by its surroundings.
#[derive(Clone, Copy, PartialEq, Eq, Debug)]
pub enum Kind {
    /// Controlled by the module, and seen by it alone.
    Private = 0,
    /// Controlled by the module, and seen by its surroundings.
    Interface = 1,
    /// Controlled by the surroundings.
    External = 2,
}

/// The round that gives a module its first state, or one that takes it from a state to the next.
#[derive(Clone, Copy, PartialEq, Eq, Debug)]
pub enum Round {
    /// Gives a first state.
    Initial,
    /// Leads from a state to the next.
    Update,
}

/// What is wrong with a drawing: which rule, in which layer of a pile, and at which byte, name or atom. The rule is a number: an
/// enum of all rules would name, in this lowest crate, those of every kind of drawing above it. Each kind has its own.
#[derive(Clone, Copy, PartialEq, Eq, Debug)]
pub struct Fault {
    /// The rule that is broken, from 1.
    pub number: u8,
    /// The layer of a pile, the top one being 0; past 255 all are told as 255.
    pub layer: u8,
    /// The byte, name or atom, by the rule.
    pub place: u16,
}

impl Fault {
    /// What is wrong with the top layer itself, or with a drawing that has but one.
    pub fn own(number: u8, place: u16) -> Fault
        ensures { result ≡ own number place }
    {
        Fault {
            number,
            layer: 0,
            place,
        }
    }
}

/// A value for each of the 32 names, name 0 first.
pub type State = [u8; 32];

/// A question after one choice of an atom at old and new values, which a script may still have to load.
#[derive(Clone, Copy, Drop)]
pub struct Question<V> {
    pub round: Round,
    pub atom: u8,
    pub choice: u8,
    pub old: V,
    pub new: V,
}

/// The value that a state gives to a name, 0 to a number above 31.
pub fn value_of(state: State, name: u8) -> u8
    ensures { result ≡ value state name }
{
    if name < 32 { state[name as usize] } else { 0 }
}
