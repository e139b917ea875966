//! An opened table.
ghost use Rattle.std.specs.Prelude.{◌<◌, ◌≡◌};
ghost use Rattle.std.specs.Result.{ForErr};
ghost use Rattle.table.specs.Asked.{places_in};
ghost use Rattle.table.specs.Contents.{IsCopy, contents_of};
ghost use Rattle.table.specs.Answers.{IsAnswer};

use crate::items::Item;
use crate::parts::{AtomLayout, Layout, Places};
use crate::reading::read;
use crate::variables::Variable;
use model::{Fault, Outline, Round, Row, count_below};

mod drawing;

/// A copy of the bytes, or how many they were where there is no room for them; and where their parts lie, or their fault.
#[derive(Clone, Copy)]
pub struct Table {
    bytes: Result<Row<u8, 4096>, usize>,
    found: Result<Layout, Fault>,
    ghost many: { ForErr bytes (λ size. 4096 < size) },
    ghost read: { ∥ IsAnswer (contents_of bytes) found ∥₁ },
}

impl Table {
    ghost use Rattle.language.specs.Meanings.{table_meaning};
    ghost use Rattle.language.specs.Tables.{opening_of, table_of};
    ghost use Rattle.std.specs.Prelude.{◌≤◌, length};
    ghost use Rattle.std.specs.Option.{option_copied};
    ghost use Rattle.std.specs.Result.{result_ok};
    ghost use Rattle.table.specs.Asked.{IsAtomOf, IsChoiceOf, controlled};
    ghost use Rattle.table.specs.Places.{atom_start, choice_place};
    ghost use Rattle.table.specs.Promises.{OpensAsWritten};
    ghost use Rattle.table.specs.Table.{contents, meaning_of, variable_of, atom_of, choice_of, guard_bytes, number_bytes_of};

    /// Opens any bytes. A fault still makes a table, which tells it and has no variables and no atoms. Of more than 4,096 bytes
    /// only the number is kept.
    pub fn open(bytes: &[u8]) -> Table
        ensures means { meaning_of result ≡ table_meaning bytes.now }
        ensures opening { opening_of (contents result) ≡ opening_of bytes.now }
        ensures bytes { length bytes.now ≤ 4096 → contents result ≡ bytes.now }
        ensures promised { OpensAsWritten bytes.now result }
    {
        Table {
            bytes: copy_of(bytes),
            found: read(bytes),
        }
    }

    fn layout(&self) -> Option<&Layout>
        ensures { option_copied result ≡ result_ok self.now.found }
    {
        self.found.as_ref().ok()
    }

    fn variable(&self, name: u8) -> Option<Variable>
        ensures { result ≡ variable_of self.now name }
    {
        self.layout()?.variables.at(name)
    }

    fn atom(&self, atom: u8) -> Option<&AtomLayout>
        ensures { let bytes = contents self.now in
            let start = atom_start (table_of bytes) atom in
            ∥ IsAtomOf bytes start (atom_of self.now atom) (option_copied result) ∥₁ }
    {
        self.layout()?.atoms.as_slice().get(atom as usize)
    }

    // The place of the choice among the bytes.
    fn place(&self, round: Round, atom: u8, choice: u8) -> Option<u16>
        ensures begins { result ≡ choice_place (table_of (contents self.now)) round atom choice }
        ensures stands { let count = controlled (atom_of self.now atom) in
            ∥ IsChoiceOf (contents self.now) count (choice_of self.now round atom choice) result ∥₁ }
    {
        let places = in_round(self.atom(atom)?, round);
        places.as_slice().get(choice as usize).copied()
    }

    // The bytes, none where they were too many.
    fn contents(&self) -> &[u8]
        ensures { length (contents self.now) ≤ 4096 → result.now ≡ contents self.now }
    {
        self.bytes.as_ref().map_or(&[], |bytes| bytes.as_slice())
    }

    /// The written form of the choice's guard, empty if there is no such choice.
    pub fn guard(&self, round: Round, atom: u8, choice: u8) -> &[u8]
        ensures { result.now ≡ guard_bytes (choice_of self.now round atom choice) }
    {
        self.place(round, atom, choice)
            .map(|place| Item::at(self.contents(), usize::from(place)).form())
            .unwrap_or_default()
    }

    /// The written form of what the choice gives to a name that its atom controls, empty if it gives it nothing.
    pub fn number(&self, round: Round, atom: u8, choice: u8, name: u8) -> &[u8]
        ensures { result.now ≡ number_bytes_of self.now round atom choice name }
    {
        let controls = self.controls(atom);
        if !controls.has(name) {
            return &[];
        }
        // behind the guard, and behind the number for each lower name that is controlled
        let before = count_below(name, |lower| controls.has(lower)) + 1;
        self.place(round, atom, choice).map_or(&[], |place| {
            let guard = Item::at(self.contents(), usize::from(place));
            guard.later(before).form()
        })
    }
}

// A copy of the bytes, or how many they are where there is no room for them.
fn copy_of(bytes: &[u8]) -> Result<Row<u8, 4096>, usize>
    ensures { IsCopy bytes.now result }
{
    Row::from_slice(bytes, 0).map_err(|_| bytes.len())
}

// The places of the atom's choices in a round of this kind.
fn in_round(atom: &AtomLayout, round: Round) -> &Places
    ensures { result.now ≡ places_in round atom.now }
{
    match round {
        Round::Initial => &atom.initial,
        Round::Update => &atom.update,
    }
}
