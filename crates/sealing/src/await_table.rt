//! Which atom awaits which directly.
ghost use Rattle.std.specs.Prelude.{◌≡◌, ℕ, ◌<◌, ◌≤◌, length, min};
ghost use Rattle.sealing.specs.AwaitSets.{IsAwaitSet};
ghost use Rattle.units.specs.Sealing.{awaits_atom};

use model::{Atoms, Outline, any_below};
use std::array::from_fn;

/// How many atoms there are, 16 at most, and for each of the first 16 the set of those that it awaits. All sixteen are there, so that
/// what is answered holds of any two numbers below 16.
#[derive(Clone, Copy)]
pub struct AwaitTable {
    atoms: u8,
    awaited: [Atoms; 16],
    ghost few: { atoms ≤ 16 },
}

// Does the atom await a name that the other controls?
fn awaits_atom<D: Outline>(drawing: &D, atom: u8, other: u8) -> bool
    ensures { result ≡ awaits_atom (D.Outline.outline drawing.now) atom other }
{
    let awaited = drawing.awaits(atom);
    let controlled = drawing.controls(other);
    any_below(32, |name| awaited.has(name) && controlled.has(name))
}

// The atoms that the atom awaits.
fn await_set<D: Outline>(drawing: &D, atom: u8) -> Atoms
    ensures { IsAwaitSet (D.Outline.outline drawing.now) atom result }
{
    Atoms::gather(|other| awaits_atom(drawing, atom, other))
}

impl AwaitTable {
    ghost use Rattle.sealing.specs.Awaits.{direct};

    /// What the first 16 atoms of a drawing await. No drawing has more.
    pub fn of<D: Outline>(drawing: &D) -> AwaitTable
        ensures counted { result.atoms ≡ min (D.Outline.outline drawing.now).atoms 16 }
        ensures right { (a b : ℕ) → a < 16 → b < 16 →
            direct result a b ≡ awaits_atom (D.Outline.outline drawing.now) a b }
    {
        AwaitTable {
            atoms: drawing.atoms().min(16),
            awaited: from_fn(
                |atom: usize| -> Atoms
                    requires { atom < 16 }
                    ensures { IsAwaitSet (D.Outline.outline drawing.entry.now) atom result }
                { await_set(drawing, atom as u8) },
            ),
        }
    }

    pub fn atoms(&self) -> u8
        ensures { result ≡ self.now.atoms }
    {
        self.atoms
    }

    /// Does the atom await the other one? Not where there is no such atom.
    pub fn awaits(&self, atom: u8, other: u8) -> bool
        ensures { result ≡ direct self.now atom other }
    {
        atom < 16 && other < 16 && self.awaited[atom as usize].has(other)
    }
}
