//! A byte table is read once, from the front: the first fault, or where everything lies.
ghost use Rattle.language.specs.Tables.{read_table};
ghost use Rattle.table.specs.Layouts.{IsLayout};
ghost use Rattle.table.specs.Answers.{IsAnswer};
ghost use Rattle.table.specs.Reads.{Reads};

use crate::parts::Layout;
use crate::reader::Reader;
use language::Rule;
use model::Fault;

impl Reader<'_> {
    #[tactic(auto, unfolding(language::specs::Tables::read_table))]
    fn table(&mut self) -> Result<Layout, Fault>
        ensures { Reads (IsLayout self.old.bytes.now self.old.place) read_table self.old self.new result }
    {
        let width = self.byte_between(Rule::WrongVariable, 0, 32)?;
        let variables = self.variables(width)?;
        let count = self.byte_between(Rule::WrongAtom, 0, 16)?;
        let atoms = self.atoms(&variables, count)?;
        Ok(Layout { variables, atoms })
    }
}

/// The layout of the table that the bytes are, or their first fault.
pub fn read(bytes: &[u8]) -> Result<Layout, Fault>
    ensures { IsAnswer bytes.now result }
{
    let mut reader = Reader::new(bytes)?;
    let layout = reader.table()?;
    reader.end()?;
    Ok(layout)
}
