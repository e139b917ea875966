//! An atom of a form: its sets under the whole's names, and where it comes from.
ghost use Rattle.assembly.specs.Facts.{AtomFacts, name_in};
ghost use Rattle.model.specs.Sets.{has};
ghost use Rattle.std.specs.Prelude.{◌≡◌};

use crate::by_number::ByNumber;
use model::{Names, State, value_of};
use piles::Exchange;

/// An atom as the whole knows it. What it may do is asked of the leaf that it comes from, by its number there, with names and states
/// put into the leaf's terms.
#[derive(Clone, Copy)]
pub struct FormAtom {
    controls: Names,
    reads: Names,
    awaits: Names,
    leaf: usize,
    number: u8,
    in_whole: ByNumber<u8, 32>,
    in_leaf: ByNumber<u8, 32>,
}

impl FormAtom {
    ghost use Rattle.assembly.specs.Atoms.{atom_facts};
    ghost use Rattle.assembly.specs.Forms.{renamed_atom, moved_atom, own_atom};
    ghost use Rattle.assembly.specs.Facts.{seen_by};
    ghost use Rattle.model.specs.States.{value};
    ghost use Rattle.std.specs.Prelude.{ℕ};

    /// An atom of the first leaf, which has these sets and this number there.
    pub fn own(number: u8, controls: Names, reads: Names, awaits: Names) -> FormAtom
        ensures { atom_facts result ≡ own_atom number (has controls) (has reads) (has awaits) }
    {
        FormAtom {
            controls,
            reads,
            awaits,
            leaf: 0,
            number,
            in_whole: ByNumber::gather(|name| name),
            in_leaf: ByNumber::gather(|name| name),
        }
    }

    /// The names that the atom controls.
    pub fn controls(&self) -> Names
        ensures { (n : ℕ) → has result n ≡ (atom_facts self.now).controls n }
    {
        self.controls
    }

    /// The names whose old values the atom sees.
    pub fn reads(&self) -> Names
        ensures { (n : ℕ) → has result n ≡ (atom_facts self.now).reads n }
    {
        self.reads
    }

    /// The names whose new values the atom sees.
    pub fn awaits(&self) -> Names
        ensures { (n : ℕ) → has result n ≡ (atom_facts self.now).awaits n }
    {
        self.awaits
    }

    /// The leaf that the atom comes from, by its number among the leaves.
    pub fn leaf(&self) -> usize
        ensures { result ≡ (atom_facts self.now).leaf }
    {
        self.leaf
    }

    /// The atom's number in its leaf.
    pub fn number(&self) -> u8
        ensures { result ≡ (atom_facts self.now).number }
    {
        self.number
    }

    /// What the whole calls a name of the leaf.
    pub fn in_whole(&self, name: u8) -> u8
        ensures { result ≡ (atom_facts self.now).in_whole name }
    {
        self.in_whole.get_or(name, name)
    }

    /// What the leaf calls a name of the whole.
    pub fn in_leaf(&self, name: u8) -> u8
        ensures { result ≡ (atom_facts self.now).in_leaf name }
    {
        self.in_leaf.get_or(name, name)
    }

    // The value that a state of the whole gives to a name of the leaf.
    fn value_in_leaf(&self, state: State, name: u8) -> u8
        ensures { result ≡ value state (name_in self.now.in_whole name) }
    {
        value_of(state, self.in_whole.get_or(name, name))
    }

    /// A state of the whole as the leaf sees it.
    pub fn state_in_leaf(&self, state: State) -> State
        ensures { value result ≡ seen_by (atom_facts self.now) (value state) }
    {
        ByNumber::<u8, 32>::gather(|name| self.value_in_leaf(state, name)).items()
    }

    /// The atom where two names of the whole change places.
    pub fn renamed(&self, exchange: Exchange) -> FormAtom
        ensures { atom_facts result ≡ renamed_atom exchange.one exchange.other (atom_facts self.now) }
    {
        FormAtom {
            controls: exchange.names(self.controls),
            reads: exchange.names(self.reads),
            awaits: exchange.names(self.awaits),
            in_whole: ByNumber::gather(|name| exchange.name(self.in_whole(name))),
            in_leaf: ByNumber::gather(|name| self.in_leaf(exchange.name(name))),
            ..*self
        }
    }

    /// The atom where so many leaves come before its own.
    pub fn moved(&self, leaves: usize) -> FormAtom
        ensures { atom_facts result ≡ moved_atom leaves (atom_facts self.now) }
    {
        FormAtom {
            leaf: self.leaf.saturating_add(leaves),
            ..*self
        }
    }
}
