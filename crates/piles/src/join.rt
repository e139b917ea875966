//! Two drawings side by side, which share the names that both have. Atoms of the left part come first.
ghost use Rattle.composition.specs.Faults.{fault_of_joined};
ghost use Rattle.composition.specs.Meanings.{joined};
ghost use Rattle.composition.specs.Outlines.{joined_kind, joined_outline};
ghost use Rattle.std.specs.Prelude.{◌≡◌, None, IfNone, IfSome, IsSome};
ghost use Rattle.std.proofs.Common.{rules};

use crate::faults::{join_fault, up_to_255};
use model::{Drawing, Fault, Kind, Names, Outline, Round, State};

/// Two drawings side by side. The fault, and how many atoms the left part has, are found once, when the join is made.
#[derive(Drop)]
pub struct Join<L: Outline, R: Outline> {
    left: L,
    right: R,
    fault: Option<Fault>,
    left_atoms: u8,
    ghost judged: { fault ≡ fault_of_joined (L.Outline.outline left) (R.Outline.outline right) },
    ghost counted: { left_atoms ≡ (L.Outline.outline left).atoms },
}

impl<L: Outline, R: Outline> Join<L, R> {
    /// Joins the two. Where one has a fault, or a name that is private in one is there in the other or interface in both, or a
    /// shared name has two tops, or there are more than 16 atoms, the join has a fault: it tells it, and has no variables and no atoms.
    pub fn new(left: L, right: R) -> Join<L, R>
        ensures left { result.left ≡ left }
        ensures right { result.right ≡ right }
    {
        let fault = join_fault(&left, &right);
        let left_atoms = left.atoms();
        Join {
            left,
            right,
            fault,
            left_atoms,
        }
    }

    // The two parts, where there is no fault.
    fn sound(&self) -> Option<(&L, &R)>
        ensures fault { IfNone result (IsSome self.now.fault) }
        ensures parts { IfSome result (λ p. (self.now.fault ≡ None) × (p.0.now ≡ self.now.left) × (p.1.now ≡ self.now.right)) }
    {
        self.fault.is_none().then_some((&self.left, &self.right))
    }
}

/// The kind of a name of the whole by its kinds in the parts: external only if it is so wherever it is there.
pub fn joined_kind(left: Option<Kind>, right: Option<Kind>) -> Option<Kind>
    ensures { result ≡ joined_kind left right }
{
    match (left, right) {
        (None, kind) | (Some(Kind::External), kind @ Some(_)) => kind,
        (Some(_), _) => left,
    }
}

impl<L: Outline, R: Outline> Outline for Join<L, R> {
    ghost outline = { λ j. joined_outline (L.Outline.outline j.left) (R.Outline.outline j.right) };

    fn fault(&self) -> Option<Fault> {
        self.fault
    }

    fn layers(&self) -> u8 {
        up_to_255(1 + u16::from(self.left.layers()) + u16::from(self.right.layers()))
    }

    fn kind(&self, name: u8) -> Option<Kind> {
        let (left, right) = self.sound()?;
        joined_kind(left.kind(name), right.kind(name))
    }

    fn top(&self, name: u8) -> u8 {
        self.sound().map_or(0, |(left, right)| {
            if left.kind(name).is_some() {
                left.top(name)
            } else {
                right.top(name)
            }
        })
    }

    fn atoms(&self) -> u8 {
        self.sound()
            .map_or(0, |(_, right)| self.left_atoms + right.atoms())
    }

    fn controls(&self, atom: u8) -> Names {
        self.sound().map_or(Names::none(), |(left, right)| {
            if atom < self.left_atoms {
                left.controls(atom)
            } else {
                right.controls(atom - self.left_atoms)
            }
        })
    }

    fn reads(&self, atom: u8) -> Names {
        self.sound().map_or(Names::none(), |(left, right)| {
            if atom < self.left_atoms {
                left.reads(atom)
            } else {
                right.reads(atom - self.left_atoms)
            }
        })
    }

    fn awaits(&self, atom: u8) -> Names {
        self.sound().map_or(Names::none(), |(left, right)| {
            if atom < self.left_atoms {
                left.awaits(atom)
            } else {
                right.awaits(atom - self.left_atoms)
            }
        })
    }
}

impl<L: Drawing, R: Drawing> Drawing for Join<L, R> {
    ghost meaning = { λ j. joined (L.Drawing.meaning j.left) (R.Drawing.meaning j.right) };

    ghost agree = { Prim.search rules };

    fn choices(&self, round: Round, atom: u8) -> u8 {
        self.sound().map_or(0, |(left, right)| {
            if atom < self.left_atoms {
                left.choices(round, atom)
            } else {
                right.choices(round, atom - self.left_atoms)
            }
        })
    }

    fn is_open(&self, round: Round, atom: u8, choice: u8, old: State, new: State) -> bool {
        self.sound().is_some_and(|(left, right)| {
            if atom < self.left_atoms {
                left.is_open(round, atom, choice, old, new)
            } else {
                right.is_open(round, atom - self.left_atoms, choice, old, new)
            }
        })
    }

    fn gives(&self, round: Round, atom: u8, choice: u8, name: u8, old: State, new: State) -> i16 {
        self.sound().map_or(0, |(left, right)| {
            if atom < self.left_atoms {
                left.gives(round, atom, choice, name, old, new)
            } else {
                right.gives(round, atom - self.left_atoms, choice, name, old, new)
            }
        })
    }
}
