//! The atoms of a table.
ghost use Rattle.expression.specs.Checking.{seen_of};
ghost use Rattle.language.specs.Tables.{TableVariable, many, read_atom, seen_in};
ghost use Rattle.table.specs.Layouts.{IsAtomAt, AreAtomsAt};
ghost use Rattle.table.specs.Reads.{Reads};
ghost use Rattle.table.specs.Sets.{NamesOf};
ghost use Rattle.table.specs.Variables.{AreVariables};
ghost use Rattle.model.specs.Rows.{row_items};
ghost use Rattle.std.specs.Prelude.{◌≡◌, ℕ, ◌≤◌, List, []};

use crate::parts::AtomLayout;
use crate::reader::Reader;
use crate::sets::{are_known, are_own, count};
use crate::variables::Variables;
use expression::Seen;
use model::{Fault, Names, Round, Row};

// What the choices of an atom see: new values of awaited names and, in an update, old values of read names.
fn seen_in(round: Round, reads: Names, awaits: Names) -> Seen
    ensures { (v w : ℕ) → NamesOf v reads → NamesOf w awaits → seen_of result ≡ seen_in round v w }
{
    let old = match round {
        Round::Initial => Names::none(),
        Round::Update => reads,
    };
    Seen { old, new: awaits }
}

// An atom without names and choices, which fills the places that no atom takes.
fn no_atom() -> AtomLayout
    ensures initial { row_items result.initial ≡ [] }
    ensures update { row_items result.update ≡ [] }
{
    AtomLayout {
        controls: Names::none(),
        reads: Names::none(),
        awaits: Names::none(),
        initial: Row::empty(0),
        update: Row::empty(0),
    }
}

impl Reader<'_> {
    fn atom(&mut self, variables: &Variables) -> Result<AtomLayout, Fault>
        ensures { (vs : List TableVariable) → AreVariables vs variables.now →
            Reads (IsAtomAt self.old.bytes.now self.old.place) (read_atom vs) self.old self.new result }
    {
        let controls = self.set(|names| are_own(variables, names))?;
        let reads = self.set(|names| are_known(variables, names))?;
        let awaits = self.set(|names| are_known(variables, names))?;
        let initials = self.choice_count(Round::Initial)?;
        let updates = self.choice_count(Round::Update)?;
        let size = count(&controls);
        let first = seen_in(Round::Initial, reads, awaits);
        let initial = self.choices(&first, size, initials)?;
        let later = seen_in(Round::Update, reads, awaits);
        let update = self.choices(&later, size, updates)?;
        Ok(AtomLayout {
            controls,
            reads,
            awaits,
            initial,
            update,
        })
    }

    /// So many atoms.
    pub fn atoms(&mut self, variables: &Variables, count: u8) -> Result<Row<AtomLayout, 16>, Fault>
        requires { count ≤ 16 }
        ensures { let laid = AreAtomsAt self.old.bytes.now self.old.place in
            (vs : List TableVariable) → AreVariables vs variables.now →
            Reads laid (many (read_atom vs) count) self.old self.new result }
    {
        let mut atoms = Row::empty(no_atom());
        for _ in 0..count {
            let atom = self.atom(variables)?;
            atoms.push(atom).unwrap();
        }
        Ok(atoms)
    }
}
