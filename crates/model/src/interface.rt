//! The interface of drawings. Every question has an answer, for all arguments: what is not there is answered
//! absent, 0, empty or closed.
ghost use Rattle.std.specs.Prelude.{ℕ, ◌≡◌};
ghost use Rattle.model.specs.Meanings.{OutlineFacts, Meaning};
ghost use Rattle.model.specs.Sets.{has};
ghost use Rattle.model.specs.States.{value};

use crate::{Fault, Kind, Names, Round, State};

/// What a drawing tells before its choices are looked at. Whether two drawings join is judged from this alone.
pub trait Outline {
    ghost outline: { Self → OutlineFacts };

    /// What is wrong with the drawing, if anything. A faulty drawing has no variables and no atoms.
    fn fault(&self) -> Option<Fault>
        ensures { result ≡ (outline self.now).fault };

    /// The number of layers that the drawing is piled of, 1 to 255; more are told as 255.
    fn layers(&self) -> u8
        ensures { result ≡ (outline self.now).layers };

    /// How the variable of this name is controlled, None where there is none. Names are 0 to 31.
    fn kind(&self, name: u8) -> Option<Kind>
        ensures { result ≡ (outline self.now).kind name };

    /// The variable's largest value, 1 to 255; 0 where there is none of this name. Its smallest is 0.
    fn top(&self, name: u8) -> u8
        ensures { result ≡ (outline self.now).top name };

    /// How many atoms there are, 0 to 16. They are numbered from 0.
    fn atoms(&self) -> u8
        ensures { result ≡ (outline self.now).atoms };

    /// The names whose values the atom gives: private and interface ones, at least one. Empty where there is no such atom.
    fn controls(&self, atom: u8) -> Names
        ensures { (n : ℕ) → has result n ≡ (outline self.now).controls atom n };

    /// The names whose old values the atom sees in an update round.
    fn reads(&self, atom: u8) -> Names
        ensures { (n : ℕ) → has result n ≡ (outline self.now).reads atom n };

    /// The names whose new values the atom sees.
    fn awaits(&self, atom: u8) -> Names
        ensures { (n : ℕ) → has result n ≡ (outline self.now).awaits atom n };
}

/// The full drawing: what each atom may do in a round. Its meaning holds the outline's facts, and each answer promises that the two
/// agree. A question takes the round, the atom, the choice and the values one by one: each asks for some of these alone, and each layer of
/// a pile asks below at another atom, name or values, so that a struct of them would be made anew there.
pub trait Drawing: Outline {
    ghost meaning: { Self → Meaning };

    /// How many choices the atom has in such a round, 1 to 8; 0 where there is no such atom.
    fn choices(&self, round: Round, atom: u8) -> u8
        ensures answer { result ≡ (meaning self.now).acts.choices round atom }
        ensures agrees { (meaning self.now).outline ≡ Self.Outline.outline self.now };

    /// Is the choice open at these old and new values? One that is not there is closed. In an initial round old values do not count.
    fn is_open(&self, round: Round, atom: u8, choice: u8, old: State, new: State) -> bool
        ensures answer { result ≡ (meaning self.now).acts.opens round atom choice (value old) (value new) }
        ensures agrees { (meaning self.now).outline ≡ Self.Outline.outline self.now };

    /// What the choice gives to a name that its atom controls, open or closed; 0 where there is no such choice, or the atom does not
    /// control the name.
    fn gives(&self, round: Round, atom: u8, choice: u8, name: u8, old: State, new: State) -> i16
        ensures answer { result ≡ (meaning self.now).acts.gives round atom choice name (value old) (value new) }
        ensures agrees { (meaning self.now).outline ≡ Self.Outline.outline self.now };

    ghost agree: { (d : Self) → (meaning d).outline ≡ Self.Outline.outline d };
}
