//! Expressions behind their length bytes.
ghost use Rattle.expression.specs.Checking.{seen_of};
ghost use Rattle.language.specs.Expressions.{whole_number, whole_truth};
ghost use Rattle.language.specs.Tables.{expression_item, many};
ghost use Rattle.table.specs.Expressions.{Checks, FaultsInside, judged_item};
ghost use Rattle.table.specs.Reads.{Passes};
ghost use Rattle.std.specs.Fn.{FnReturnsAt};
ghost use Rattle.std.specs.Prelude.{◌≡◌, ℕ, List, Option};

use crate::reader::Reader;
use expression::{Seen, check_number, check_truth};
use language::Rule;
use model::Fault;

impl Reader<'_> {
    // An expression behind its length byte. The check tells the place of its first fault.
    fn expression<F: Fn(&[u8]) -> Result<(), usize>>(&mut self, check: F) -> Result<(), Fault>
        requires can { F.IsAlwaysCallable check }
        requires inside { FaultsInside (FnReturnsAt F.Fn check) }
        ensures { (fault : List ℕ → Option ℕ) → Checks (FnReturnsAt F.Fn check) fault →
            Passes (judged_item fault) self.old self.new result }
    {
        let size = self.byte_between(Rule::WrongExpression, 1, 64)?;
        let start = usize::from(self.place());
        let part = self.part(size)?;
        check(part).map_err(|fault| Rule::WrongExpression.broken_at(start + fault))
    }

    /// A truth behind its length byte.
    pub fn truth(&mut self, seen: &Seen) -> Result<(), Fault>
        ensures { Passes (expression_item (whole_truth 8 (seen_of seen.now))) self.old self.new result }
    {
        self.expression(|part| check_truth(part, seen))
    }

    fn number(&mut self, seen: &Seen) -> Result<(), Fault>
        ensures { Passes (expression_item (whole_number 8 (seen_of seen.now))) self.old self.new result }
    {
        self.expression(|part| check_number(part, seen))
    }

    /// So many numbers.
    pub fn numbers(&mut self, seen: &Seen, count: u8) -> Result<(), Fault>
        ensures { let item = expression_item (whole_number 8 (seen_of seen.now)) in
            Passes (many item count) self.old self.new result }
    {
        for _ in 0..count {
            self.number(seen)?;
        }
        Ok(())
    }
}
