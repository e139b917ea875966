//! The rules of piles, by the numbers under which a fault tells them.
ghost use Rattle.model.specs.Faults.{own};
ghost use Rattle.piles.specs.Rules.{rule_number};
ghost use Rattle.std.specs.Prelude.{◌≡◌};

use model::Fault;

/// A rule of renames, hides or joins.
#[derive(Clone, Copy, PartialEq, Eq, Debug)]
pub enum Rule {
    /// The old name of a rename is there, and the new one is a name that is not.
    NewNameIsFree = 7,
    /// The hidden name is interface.
    HiddenIsInterface = 8,
    /// No private name of one part is a name of the other, and no name is interface in both.
    KindsAgree = 9,
    /// A name of both parts has one top.
    TopsAgree = 10,
    /// The parts have 16 atoms in all, or fewer.
    FewAtoms = 11,
}

impl Rule {
    /// The fault of a pile that breaks the rule itself, at this name, or at 0 where no name is meant.
    pub fn broken(self, name: u8) -> Fault
        ensures { result ≡ own (rule_number self) name }
    {
        Fault::own(self as u8, u16::from(name))
    }
}
