//! What is told of a verdict on a unit.
ghost use Rattle.model.specs.Sets.{has};
ghost use Rattle.reports.specs.Told.{seen_values};
ghost use Rattle.std.specs.Prelude.{◌≡◌, IfOk};

use crate::faults::{FaultNumbers, FaultWords};
use crate::listed::Listed;
use model::{Drawing, Fault, Names, Outline, Round, value_of};
use sealing::{Witness, outside_at, stuck_at};
use std::alloc::{AllocError, Global};
use std::fmt;
use units::Refusal;

/// Whether a value is of the state before the round or of the round under way.
#[derive(Clone, Copy)]
pub enum Age {
    Old,
    New,
}

/// The value of a name that an atom sees.
#[derive(Clone, Copy)]
pub struct Seen {
    pub age: Age,
    pub name: u8,
    pub value: u8,
}

// The value as `old 3 = 1`.
impl fmt::Display for Seen {
    fn fmt<W: fmt::Write>(&self, f: &mut fmt::Formatter<W>) -> fmt::Result {
        let word = match self.age {
            Age::Old => "old",
            Age::New => "new",
        };
        write!(f, "{word} {} = {}", self.name, self.value)
    }
}

// The old value of each name that is read, then the new one of each that is awaited, names rising.
fn seen_values(
    heap: Global,
    reads: &Names,
    awaits: &Names,
    witness: &Witness,
) -> Result<Vec<Seen>, AllocError>
    ensures { IfOk result (λ v. v.items ≡ seen_values (has reads.now) (has awaits.now) witness.now) }
{
    let old = reads.iter().map(|name| Seen {
        age: Age::Old,
        name,
        value: value_of(witness.old, name),
    });
    let new = awaits.iter().map(|name| Seen {
        age: Age::New,
        name,
        value: value_of(witness.new, name),
    });
    old.chain(new).collect(heap)
}

/// In which round and at which values an atom fails, of those that it sees.
#[derive(Drop)]
pub struct WitnessReport {
    pub round: Round,
    pub seen: Vec<Seen>,
}

impl WitnessReport {
    // What the atom sees of the witness. In an initialization it sees no old values.
    fn new<D: Outline>(
        heap: Global,
        drawing: &D,
        atom: u8,
        witness: &Witness,
    ) -> Result<WitnessReport, AllocError> {
        let reads = match witness.round {
            Round::Initial => Names::none(),
            Round::Update => drawing.reads(atom),
        };
        Ok(WitnessReport {
            round: witness.round,
            seen: seen_values(heap, &reads, &drawing.awaits(atom), witness)?,
        })
    }
}

impl fmt::Display for WitnessReport {
    fn fmt<W: fmt::Write>(&self, f: &mut fmt::Formatter<W>) -> fmt::Result {
        let round = match self.round {
            Round::Initial => "initialization",
            Round::Update => "update",
        };
        let values = Listed {
            items: self.seen.as_slice(),
            mark: ", ",
            none: "whatever values",
        };
        write!(f, "in an {round} round at {values}")
    }
}

// The first values at which the atom fails, where that is what is wrong.
fn witness_report<D: Drawing>(
    heap: Global,
    drawing: &D,
    refusal: Refusal,
) -> Result<Option<WitnessReport>, AllocError> {
    let (atom, found) = match refusal {
        Refusal::GetsStuck { atom } => (atom, stuck_at(drawing, atom)),
        Refusal::LeavesRange { atom } => (atom, outside_at(drawing, atom)),
        _ => return Ok(None),
    };
    match found {
        Some(witness) => Ok(Some(WitnessReport::new(heap, drawing, atom, &witness)?)),
        None => Ok(None),
    }
}

/// What is told of a verdict: the name that the unit is bound to, what is wrong with the unit, if anything, and where an atom gets stuck or
/// leaves its range, the first values at which it does.
#[derive(Drop)]
pub struct VerdictReport {
    pub name: String,
    pub verdict: Option<Refusal>,
    pub witness: Option<WitnessReport>,
}

impl VerdictReport {
    /// The report on this verdict on a unit with this drawing.
    pub fn new<D: Drawing>(
        heap: Global,
        name: String,
        drawing: &D,
        verdict: Option<Refusal>,
    ) -> Result<VerdictReport, AllocError>
        ensures name { IfOk result (λ r. r.name ≡ name) }
        ensures verdict { IfOk result (λ r. r.verdict ≡ verdict) }
    {
        let witness = match verdict {
            Some(refusal) => witness_report(heap, drawing, refusal)?,
            None => None,
        };
        Ok(VerdictReport {
            name,
            verdict,
            witness,
        })
    }
}

// Why a unit is not fit, for people.
#[derive(Clone, Copy)]
struct RefusalWords(Refusal);

impl fmt::Display for RefusalWords {
    fn fmt<W: fmt::Write>(&self, f: &mut fmt::Formatter<W>) -> fmt::Result {
        match self.0 {
            Refusal::FaultyDrawing(fault) => write!(f, "{}", FaultWords(fault)),
            refusal => write!(f, "{refusal}"),
        }
    }
}

impl fmt::Display for VerdictReport {
    fn fmt<W: fmt::Write>(&self, f: &mut fmt::Formatter<W>) -> fmt::Result {
        let numbers = FaultNumbers(self.verdict.map(Fault::from));
        write!(f, "{numbers} -- unit {} is ", self.name)?;
        match self.verdict {
            None => f.write_str("fit")?,
            Some(refusal) => write!(f, "not fit: {}", RefusalWords(refusal))?,
        }
        match &self.witness {
            Some(witness) => write!(f, " {witness}"),
            None => Ok(()),
        }
    }
}
