//! Written expressions in infix notation. Only right expressions are shown; of any other what can be read is told.
use expression::{LEVELS, NumberOperator, TruthOperator};
use model::{State, value_of};
use std::fmt;

/// What is left to read of a written expression, and what each name is called. How many levels are left goes as a parameter, since one
/// reader is read on at all levels. Numbers and truths are told by functions of their own, as an evaluator has them (`expression`).
#[derive(Clone, Copy)]
pub struct Written<'a> {
    pub bytes: &'a [u8],
    pub naming: State,
}

impl Written<'_> {
    // Passes over the next byte. It is told as 0 where there is none, which is so only where the expression is not right.
    fn next(&mut self) -> u8 {
        let Some((byte, rest)) = self.bytes.split_first() else {
            return 0;
        };
        self.bytes = rest;
        *byte
    }

    // What the name that comes next is called.
    fn next_name(&mut self) -> u8 {
        let name = self.next();
        value_of(self.naming, name)
    }

    // Is the number that comes next made of two?
    fn is_compound(&self) -> bool {
        matches!(
            NumberOperator::at(self.bytes, 0),
            Some(NumberOperator::Sum | NumberOperator::Difference)
        )
    }

    // A sum or difference: the right operand stands in parentheses where it is one itself.
    #[cycle(numbers)]
    fn fmt_two<W: fmt::Write>(
        &mut self,
        f: &mut fmt::Formatter<W>,
        sign: &str,
        levels: u8,
    ) -> fmt::Result {
        self.fmt_number(f, levels)?;
        f.write_str(sign)?;
        if !self.is_compound() {
            return self.fmt_number(f, levels);
        }
        f.write_str("(")?;
        self.fmt_number(f, levels)?;
        f.write_str(")")
    }

    // Tells the number that comes next.
    #[cycle(numbers)]
    fn fmt_number<W: fmt::Write>(&mut self, f: &mut fmt::Formatter<W>, levels: u8) -> fmt::Result {
        let Some(inner) = levels.checked_sub(1) else {
            return Ok(());
        };
        let Some(operator) = NumberOperator::at(self.bytes, 0) else {
            return Ok(());
        };
        self.next();
        match operator {
            NumberOperator::Constant => write!(f, "{}", self.next()),
            NumberOperator::OldValue => write!(f, "old {}", self.next_name()),
            NumberOperator::NewValue => write!(f, "new {}", self.next_name()),
            NumberOperator::Sum => self.fmt_two(f, " + ", inner),
            NumberOperator::Difference => self.fmt_two(f, " - ", inner),
        }
    }

    // Two numbers and what stands between them.
    fn fmt_comparison<W: fmt::Write>(
        &mut self,
        f: &mut fmt::Formatter<W>,
        sign: &str,
        levels: u8,
    ) -> fmt::Result {
        self.fmt_number(f, levels)?;
        f.write_str(sign)?;
        self.fmt_number(f, levels)
    }

    // Does the truth that comes next want parentheses as an operand of this one?
    fn wants_parentheses(&self, outer: TruthOperator) -> bool {
        matches!(
            (outer, TruthOperator::at(self.bytes, 0)),
            (TruthOperator::And, Some(TruthOperator::Or))
                | (TruthOperator::Or, Some(TruthOperator::And))
                | (
                    TruthOperator::Not,
                    Some(
                        TruthOperator::Equal
                            | TruthOperator::Less
                            | TruthOperator::And
                            | TruthOperator::Or,
                    ),
                )
        )
    }

    #[cycle(truths)]
    fn fmt_operand<W: fmt::Write>(
        &mut self,
        f: &mut fmt::Formatter<W>,
        outer: TruthOperator,
        levels: u8,
    ) -> fmt::Result {
        if !self.wants_parentheses(outer) {
            return self.fmt_truth(f, levels);
        }
        f.write_str("(")?;
        self.fmt_truth(f, levels)?;
        f.write_str(")")
    }

    // Two truths and the word between them, which is that of the operator.
    #[cycle(truths)]
    fn fmt_both<W: fmt::Write>(
        &mut self,
        f: &mut fmt::Formatter<W>,
        operator: TruthOperator,
        word: &str,
        levels: u8,
    ) -> fmt::Result {
        self.fmt_operand(f, operator, levels)?;
        f.write_str(word)?;
        self.fmt_operand(f, operator, levels)
    }

    // Tells the truth that comes next.
    #[cycle(truths)]
    fn fmt_truth<W: fmt::Write>(&mut self, f: &mut fmt::Formatter<W>, levels: u8) -> fmt::Result {
        let Some(inner) = levels.checked_sub(1) else {
            return Ok(());
        };
        let Some(operator) = TruthOperator::at(self.bytes, 0) else {
            return Ok(());
        };
        self.next();
        match operator {
            TruthOperator::Equal => self.fmt_comparison(f, " = ", inner),
            TruthOperator::Less => self.fmt_comparison(f, " < ", inner),
            TruthOperator::Not => {
                f.write_str("not ")?;
                self.fmt_operand(f, operator, inner)
            }
            TruthOperator::And => self.fmt_both(f, operator, " and ", inner),
            TruthOperator::Or => self.fmt_both(f, operator, " or ", inner),
            TruthOperator::True => f.write_str("true"),
        }
    }
}

/// What is written, read as a number.
#[derive(Clone, Copy)]
pub struct WrittenNumber<'a>(pub Written<'a>);

/// What is written, read as a truth.
#[derive(Clone, Copy)]
pub struct WrittenTruth<'a>(pub Written<'a>);

impl fmt::Display for WrittenNumber<'_> {
    fn fmt<W: fmt::Write>(&self, f: &mut fmt::Formatter<W>) -> fmt::Result {
        let mut written = self.0;
        written.fmt_number(f, LEVELS)
    }
}

impl fmt::Display for WrittenTruth<'_> {
    fn fmt<W: fmt::Write>(&self, f: &mut fmt::Formatter<W>) -> fmt::Result {
        let mut written = self.0;
        written.fmt_truth(f, LEVELS)
    }
}
