//! What is gathered from a drawing's answers.
ghost use Rattle.reports.specs.Told.{below, variable_at, DescribesAtom, DescribesAtoms};
ghost use Rattle.std.specs.Prelude.{◌≡◌, IfOk};

use model::{Drawing, Kind, Names, Outline, Round};
use std::alloc::{AllocError, Global};

/// A variable of a drawing: its name, 0 to 31, its kind, and its largest value, 1 to 255.
#[derive(Clone, Copy)]
pub struct Variable {
    pub name: u8,
    pub kind: Kind,
    pub top: u8,
}

/// An atom's sets, and how many choices it has in each kind of round.
#[derive(Clone, Copy)]
pub struct Atom {
    pub controls: Names,
    pub reads: Names,
    pub awaits: Names,
    pub initial: u8,
    pub update: u8,
}

/// The drawing's variables, names rising.
pub fn variables<D: Outline>(heap: Global, drawing: &D) -> Result<Vec<Variable>, AllocError>
    ensures { IfOk result (λ v. v.items ≡ below (variable_at (D.Outline.outline drawing.now)) 32) }
{
    (0..32u8)
        .filter_map(|name| drawing.kind(name).map(|kind| Variable {
            name,
            kind,
            top: drawing.top(name),
        }))
        .collect(heap)
}

// The atom at this place in the drawing.
fn atom_at<D: Drawing>(drawing: &D, atom: u8) -> Atom
    ensures { DescribesAtom (D.Outline.outline drawing.now) (D.Drawing.meaning drawing.now).acts atom result }
{
    Atom {
        controls: drawing.controls(atom),
        reads: drawing.reads(atom),
        awaits: drawing.awaits(atom),
        initial: drawing.choices(Round::Initial, atom),
        update: drawing.choices(Round::Update, atom),
    }
}

/// The drawing's atoms, in their order.
pub fn atoms<D: Drawing>(heap: Global, drawing: &D) -> Result<Vec<Atom>, AllocError>
    ensures { IfOk result (DescribesAtoms (D.Outline.outline drawing.now) (D.Drawing.meaning drawing.now).acts) }
{
    (0..drawing.atoms())
        .map(|atom| atom_at(drawing, atom))
        .collect(heap)
}
