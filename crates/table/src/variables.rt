//! The variables of a table.
ghost use Rattle.std.specs.Prelude.{◌≡◌, length};

use crate::reader::Reader;
use language::Rule;
use model::{Fault, Kind};

#[derive(Clone, Copy)]
pub struct Variable {
    pub kind: Kind,
    pub top: u8,
}

/// The variable that each name stands for, if any: an array by name, since it takes no heap and is asked for a name without a search.
#[derive(Clone, Copy)]
pub struct Variables {
    rows: [Option<Variable>; 32],
    ghost full: { length rows ≡ 32 },
}

impl Variables {
    ghost use Rattle.table.specs.Variables.{at};

    /// The variable of this name. A number above 31 is no name.
    pub fn at(&self, name: u8) -> Option<Variable>
        ensures { result ≡ at self.now name }
    {
        self.rows.get(name as usize).copied().flatten()
    }
}

impl Reader<'_> {
    ghost use Rattle.language.specs.Tables.{read_variable, read_variables};
    ghost use Rattle.table.specs.Reads.{Reads};
    ghost use Rattle.table.specs.Variables.{IsVariable, AreVariables};

    // A name that is not below the lowest, and the variable that it stands for.
    #[tactic(auto, unfolding(language::specs::Tables::read_variable))]
    fn variable(&mut self, lowest: u8) -> Result<(u8, Variable), Fault>
        ensures { Reads IsVariable (read_variable lowest) self.old self.new result }
    {
        let name = self.byte_between(Rule::WrongVariable, lowest, 31)?;
        let kind = self.kind()?;
        let top = self.byte_between(Rule::WrongVariable, 1, 255)?;
        Ok((name, Variable { kind, top }))
    }

    /// So many variables.
    pub fn variables(&mut self, count: u8) -> Result<Variables, Fault>
        ensures { Reads AreVariables (read_variables 0 count) self.old self.new result }
    {
        let mut rows = [None; 32];
        let mut lowest = 0;
        for _ in 0..count {
            let (name, variable) = self.variable(lowest)?;
            rows[name as usize] = Some(variable);
            lowest = name + 1;
        }
        Ok(Variables { rows })
    }
}
