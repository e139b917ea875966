//! What is told of a drawing's outline.
ghost use Rattle.model.specs.Sets.{has};
ghost use Rattle.reports.specs.Told.{mask_below};
ghost use Rattle.std.specs.Prelude.{◌≡◌};

use crate::choices::choice_lines;
use crate::facts::{Atom, Variable, atoms, variables};
use crate::faults::FaultWords;
use crate::listed::Listed;
use any_drawing::AnyDrawing;
use model::{Drawing, Fault, Names, Outline};
use std::alloc::{AllocError, Global};
use std::fmt;

// The set as a number, bit n for name n.
fn mask(names: &Names) -> u32
    ensures { result ≡ mask_below (has names.now) 32 }
{
    names.iter().map(|name| 1u32 << name).sum()
}

// The names of a set, rising, for people.
#[derive(Clone, Copy)]
struct NameList<'a>(&'a Names);

impl fmt::Display for NameList<'_> {
    fn fmt<W: fmt::Write>(&self, f: &mut fmt::Formatter<W>) -> fmt::Result {
        let mut names = self.0.iter();
        let Some(first) = names.next() else {
            return f.write_str("nothing");
        };
        write!(f, "{first}")?;
        for name in names {
            write!(f, ", {name}")?;
        }
        Ok(())
    }
}

// The variable as `N:K:T`, for programs.
impl fmt::Display for Variable {
    fn fmt<W: fmt::Write>(&self, f: &mut fmt::Formatter<W>) -> fmt::Result {
        write!(f, "{}:{}:{}", self.name, u8::from(self.kind), self.top)
    }
}

// The atom as `C/R/A/I/U`, for programs.
impl fmt::Display for Atom {
    fn fmt<W: fmt::Write>(&self, f: &mut fmt::Formatter<W>) -> fmt::Result {
        let controls = mask(&self.controls);
        let reads = mask(&self.reads);
        let awaits = mask(&self.awaits);
        write!(
            f,
            "{controls:08x}/{reads:08x}/{awaits:08x}/{}/{}",
            self.initial, self.update
        )
    }
}

/// What is told of a drawing: how many layers it is piled of, its fault, its variables, names rising, its atoms in their order, and for
/// people under each atom the lines for its choices, if there are any.
#[derive(Drop)]
pub struct OutlineReport {
    pub layers: u8,
    pub fault: Option<Fault>,
    pub variables: Vec<Variable>,
    pub atoms: Vec<Atom>,
    pub choices: Vec<String>,
}

// The lines for the choices of each atom.
fn lines_of_atoms(heap: Global, drawing: &AnyDrawing) -> Result<Vec<String>, AllocError> {
    let mut lines = Vec::new(heap);
    for atom in 0..drawing.atoms() {
        lines.push(choice_lines(heap, drawing, atom)?)?;
    }
    Ok(lines)
}

impl OutlineReport {
    ghost use Rattle.any_drawing.specs.Meaning.{any_meaning};
    ghost use Rattle.reports.specs.Told.{TellsOutline};
    ghost use Rattle.std.specs.Prelude.{IfOk};

    /// What is told of a drawing of any kind: nothing of what its choices do.
    pub fn of<D: Drawing>(heap: Global, drawing: &D) -> Result<OutlineReport, AllocError>
        ensures { IfOk result (TellsOutline (D.Outline.outline drawing.now) (D.Drawing.meaning drawing.now).acts) }
    {
        Ok(OutlineReport {
            layers: drawing.layers(),
            fault: drawing.fault(),
            variables: variables(heap, drawing)?,
            atoms: atoms(heap, drawing)?,
            choices: Vec::new(heap),
        })
    }

    /// The same, with a line for each choice that a table writes out.
    pub fn with_choices(heap: Global, drawing: &AnyDrawing) -> Result<OutlineReport, AllocError>
        ensures { IfOk result (TellsOutline (any_meaning drawing.now).outline (any_meaning drawing.now).acts) }
    {
        let mut report = OutlineReport::of(heap, drawing)?;
        report.choices = lines_of_atoms(heap, drawing)?;
        Ok(report)
    }

    // A line for each variable.
    fn fmt_variables<W: fmt::Write>(&self, f: &mut fmt::Formatter<W>) -> fmt::Result {
        for v in &self.variables {
            write!(f, "\n  name {}: {}, 0 to {}", v.name, v.kind, v.top)?;
        }
        Ok(())
    }

    // A line for each atom, and below it those for its choices.
    fn fmt_atoms<W: fmt::Write>(&self, f: &mut fmt::Formatter<W>) -> fmt::Result {
        for (number, atom) in (0..16usize).zip(self.atoms.iter()) {
            write!(
                f,
                "\n  atom {number}: controls {}; reads {}; awaits {}; {} initial and {} update choices",
                NameList(&atom.controls),
                NameList(&atom.reads),
                NameList(&atom.awaits),
                atom.initial,
                atom.update
            )?;
            if let Some(lines) = self.choices.get(number) {
                f.write_str(lines.as_str())?;
            }
        }
        Ok(())
    }
}

// The facts in one line for programs, then lines for people.
impl fmt::Display for OutlineReport {
    fn fmt<W: fmt::Write>(&self, f: &mut fmt::Formatter<W>) -> fmt::Result {
        write!(
            f,
            "layers={} vars={} atoms={} -- names: {}; atoms: {}",
            self.layers,
            Listed::for_programs(self.variables.as_slice()),
            Listed::for_programs(self.atoms.as_slice()),
            self.variables.len(),
            self.atoms.len()
        )?;
        if let Some(fault) = self.fault {
            write!(f, "\n  faulty: {}", FaultWords(fault))?;
        }
        self.fmt_variables(f)?;
        self.fmt_atoms(f)
    }
}
