//! Whether bytes are a right expression, and else where the first fault lies.
ghost use Rattle.expression.specs.Checking.{seen_of, read_end, name_end, ended, checked};
ghost use Rattle.expression.specs.Promises.{NumberJudged, TruthJudged};
ghost use Rattle.language.specs.Expressions.{read_byte, as_constant, read_number, read_truth, whole_number, whole_truth, expression_fault};
ghost use Rattle.model.specs.Sets.{has};
ghost use Rattle.std.specs.Prelude.{◌≡◌, length};

use crate::operators::{LEVELS, NumberOperator, TruthOperator, byte_at};
use model::Names;

/// The names whose old values, and those whose new values, an expression may use.
#[derive(Clone, Copy)]
pub struct Seen {
    pub old: Names,
    pub new: Names,
}

// Bytes that are read as an expression, and the names that it may use. Numbers and truths have a function each, since their
// operators differ, and what follows these.
#[derive(Clone, Copy)]
struct Checker<'a> {
    bytes: &'a [u8],
    seen: &'a Seen,
}

impl Checker<'_> {
    // The place after a constant, which is any byte.
    fn constant_end(&self, place: usize) -> Result<usize, usize>
        ensures { result ≡ read_end (read_byte as_constant self.now.bytes.now place) }
    {
        byte_at(self.bytes, place).ok_or(place)?;
        Ok(place + 1)
    }

    // The place after a name, which is in the set.
    fn name_end(&self, names: &Names, place: usize) -> Result<usize, usize>
        ensures { result ≡ name_end (has names.now) self.now.bytes.now place }
    {
        match byte_at(self.bytes, place) {
            Some(name) if names.has(name) => Ok(place + 1),
            _ => Err(place),
        }
    }

    // The place after the number that begins here and nests at most so many levels deep, or that of its first fault.
    fn number_end(&self, levels: u8, place: usize) -> Result<usize, usize>
        ensures { result ≡ read_end (read_number levels (seen_of self.now.seen.now) self.now.bytes.now place) }
    {
        let inner = levels.checked_sub(1).ok_or(place)?;
        let operator = NumberOperator::at(self.bytes, place).ok_or(place)?;
        let first = place + 1;
        match operator {
            NumberOperator::Constant => self.constant_end(first),
            NumberOperator::OldValue => self.name_end(&self.seen.old, first),
            NumberOperator::NewValue => self.name_end(&self.seen.new, first),
            NumberOperator::Sum | NumberOperator::Difference => {
                let second = self.number_end(inner, first)?;
                self.number_end(inner, second)
            }
        }
    }

    // The place after the truth that begins here and nests at most so many levels deep, or that of its first fault.
    fn truth_end(&self, levels: u8, place: usize) -> Result<usize, usize>
        ensures { result ≡ read_end (read_truth levels (seen_of self.now.seen.now) self.now.bytes.now place) }
    {
        let inner = levels.checked_sub(1).ok_or(place)?;
        let operator = TruthOperator::at(self.bytes, place).ok_or(place)?;
        let first = place + 1;
        match operator {
            TruthOperator::Equal | TruthOperator::Less => {
                let second = self.number_end(inner, first)?;
                self.number_end(inner, second)
            }
            TruthOperator::Not => self.truth_end(inner, first),
            TruthOperator::And | TruthOperator::Or => {
                let second = self.truth_end(inner, first)?;
                self.truth_end(inner, second)
            }
            TruthOperator::True => Ok(first),
        }
    }

    // An expression ends where its bytes do: what is left over is a fault, at its first byte.
    fn to_the_end(&self, end: usize) -> Result<(), usize>
        ensures { result ≡ ended (length self.now.bytes.now) end }
    {
        if end == self.bytes.len() {
            Ok(())
        } else {
            Err(end)
        }
    }
}

/// Are the bytes a right number that sees only these names? Else the place of the first fault.
pub fn check_number(bytes: &[u8], seen: &Seen) -> Result<(), usize>
    ensures told { result ≡ checked (expression_fault (whole_number 8 (seen_of seen.now) bytes.now)) }
    ensures judged { NumberJudged (seen_of seen.now) bytes.now result }
{
    let checker = Checker { bytes, seen };
    let end = checker.number_end(LEVELS, 0)?;
    checker.to_the_end(end)
}

/// Are the bytes a right truth that sees only these names? Else the place of the first fault.
pub fn check_truth(bytes: &[u8], seen: &Seen) -> Result<(), usize>
    ensures told { result ≡ checked (expression_fault (whole_truth 8 (seen_of seen.now) bytes.now)) }
    ensures judged { TruthJudged (seen_of seen.now) bytes.now result }
{
    let checker = Checker { bytes, seen };
    let end = checker.truth_end(LEVELS, 0)?;
    checker.to_the_end(end)
}
