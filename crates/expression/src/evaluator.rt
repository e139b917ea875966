//! What stands at a place of bytes is worth.
ghost use Rattle.model.specs.Meanings.{AreBytes};
ghost use Rattle.model.specs.States.{value};
ghost use Rattle.std.specs.Prelude.{◌≤◌};

use crate::operators::{NumberOperator, TruthOperator, byte_at};
use model::State;

/// Bytes that are read as an expression, the old and new values that it sees, and how many levels deep it may nest.
#[derive(Clone, Copy)]
pub struct Evaluator<'a> {
    pub bytes: &'a [u8],
    pub old: &'a State,
    pub new: &'a State,
    pub levels: u8,
    ghost old_bytes: { AreBytes (value old.now) },
    ghost new_bytes: { AreBytes (value new.now) },
    ghost few: { levels ≤ 8 },
}

impl Evaluator<'_> {
    ghost use Rattle.expression.specs.Evaluation.{Inner, number_here, numbers_here, truth_here, truths_here};
    ghost use Rattle.expression.specs.Evaluation.{byte_worth, name_worth, ended, all_number, all_truth};
    ghost use Rattle.std.specs.Prelude.{◌≡◌, length, MatchOption};

    // The same one level further in; none where no level is left.
    fn inner(mut self) -> Option<Self>
        ensures { MatchOption result (self.entry.levels ≡ 0) (Inner self.entry) }
    {
        self.levels = self.levels.checked_sub(1)?;
        Some(self)
    }

    // A constant, and the place after it.
    fn constant(&self, place: usize) -> Option<(i16, usize)>
        ensures { result ≡ byte_worth self.now.bytes.now place }
    {
        let constant = byte_at(self.bytes, place)?;
        Some((i16::from(constant), place + 1))
    }

    // The value of a name, and the place after it. The state is read in place: 32 bytes would be copied for each name otherwise.
    fn value(&self, state: &State, place: usize) -> Option<(i16, usize)>
        ensures { result ≡ name_worth state.now self.now.bytes.now place }
    {
        let name = byte_at(self.bytes, place)?;
        let value = state.get(usize::from(name)).copied().unwrap_or(0);
        Some((i16::from(value), place + 1))
    }

    // What the number is worth that begins here and nests no deeper than there are levels left, and the place after it.
    #[cycle(number)]
    fn number(&self, place: usize) -> Option<(i16, usize)>
        ensures { result ≡ number_here self.now place }
    {
        let inner = self.inner()?;
        let operator = NumberOperator::at(self.bytes, place)?;
        let first = place + 1;
        match operator {
            NumberOperator::Constant => self.constant(first),
            NumberOperator::OldValue => self.value(self.old, first),
            NumberOperator::NewValue => self.value(self.new, first),
            NumberOperator::Sum => {
                let ((a, b), end) = inner.numbers(first)?;
                Some((a + b, end))
            }
            NumberOperator::Difference => {
                let ((a, b), end) = inner.numbers(first)?;
                Some((a - b, end))
            }
        }
    }

    // Two numbers, one after the other, and the place after both.
    #[cycle(number)]
    fn numbers(&self, place: usize) -> Option<((i16, i16), usize)>
        ensures { result ≡ numbers_here self.now place }
    {
        let (a, second) = self.number(place)?;
        let (b, end) = self.number(second)?;
        Some(((a, b), end))
    }

    // Whether the truth holds that begins here and nests no deeper than there are levels left, and the place after it.
    #[cycle(truth)]
    fn truth(&self, place: usize) -> Option<(bool, usize)>
        ensures { result ≡ truth_here self.now place }
    {
        let inner = self.inner()?;
        let operator = TruthOperator::at(self.bytes, place)?;
        let first = place + 1;
        match operator {
            TruthOperator::Equal => {
                let ((a, b), end) = inner.numbers(first)?;
                Some((a == b, end))
            }
            TruthOperator::Less => {
                let ((a, b), end) = inner.numbers(first)?;
                Some((a < b, end))
            }
            TruthOperator::Not => {
                let (p, end) = inner.truth(first)?;
                Some((!p, end))
            }
            TruthOperator::And => {
                let ((p, q), end) = inner.truths(first)?;
                Some((p & q, end))
            }
            TruthOperator::Or => {
                let ((p, q), end) = inner.truths(first)?;
                Some((p | q, end))
            }
            TruthOperator::True => Some((true, first)),
        }
    }

    // Two truths, one after the other, and the place after both.
    #[cycle(truth)]
    fn truths(&self, place: usize) -> Option<((bool, bool), usize)>
        ensures { result ≡ truths_here self.now place }
    {
        let (p, second) = self.truth(place)?;
        let (q, end) = self.truth(second)?;
        Some(((p, q), end))
    }

    // What was read, if it ends where the bytes do.
    fn to_the_end<T: Copy>(&self, read: Option<(T, usize)>) -> Option<T>
        ensures { result ≡ ended (length self.now.bytes.now) read }
    {
        let (worth, end) = read?;
        (end == self.bytes.len()).then_some(worth)
    }

    /// What the bytes are worth as a number, or 0.
    pub fn whole_number(&self) -> i16
        ensures { result ≡ all_number self.now }
    {
        self.to_the_end(self.number(0)).unwrap_or(0)
    }

    /// Whether the bytes hold as a truth, or false.
    pub fn whole_truth(&self) -> bool
        ensures { result ≡ all_truth self.now }
    {
        self.to_the_end(self.truth(0)).unwrap_or(false)
    }
}
