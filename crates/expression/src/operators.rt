//! The operators of expressions, each by its byte.
ghost use Rattle.expression.specs.Operators.{number_operator_of, number_meant, truth_operator_of, truth_meant, StandsFor};
ghost use Rattle.language.specs.Expressions.{byte_at, judged, number_operator, truth_operator};
ghost use Rattle.std.specs.Prelude.{◌≡◌, Some, codes};

use std::error::Error;
use std::fmt;

/// The most levels that an expression may nest.
pub const LEVELS: u8 = 8;

/// What a number begins with: a byte that says whether a constant, a name or two numbers follow.
#[derive(Clone, Copy, PartialEq, Eq, Debug)]
pub enum NumberOperator {
    Constant,
    OldValue,
    NewValue,
    Sum,
    Difference,
}

/// What a truth begins with: two numbers follow, one truth, two truths or nothing.
#[derive(Clone, Copy, PartialEq, Eq, Debug)]
pub enum TruthOperator {
    Equal,
    Less,
    Not,
    And,
    Or,
    True,
}

/// The byte is no such operator.
#[derive(Clone, Copy, PartialEq, Eq, Debug)]
pub struct NoOperator;

impl fmt::Display for NoOperator {
    ghost output = { λ _. Some (codes "the byte is no such operator") };

    fn fmt<W: fmt::Write>(&self, f: &mut fmt::Formatter<W>) -> fmt::Result {
        f.write_str("the byte is no such operator")
    }
}

impl Error for NoOperator {}

/// The byte at this place, if there is one.
pub fn byte_at(bytes: &[u8], place: usize) -> Option<u8>
    ensures { result ≡ byte_at bytes.now place }
{
    bytes.get(place).copied()
}

impl TryFrom<u8> for NumberOperator {
    type Error = NoOperator;

    ghost try_from_gives = { StandsFor number_operator_of number_operator };

    fn try_from(byte: u8) -> Result<NumberOperator, NoOperator> {
        match byte {
            0 => Ok(NumberOperator::Constant),
            1 => Ok(NumberOperator::OldValue),
            2 => Ok(NumberOperator::NewValue),
            3 => Ok(NumberOperator::Sum),
            4 => Ok(NumberOperator::Difference),
            _ => Err(NoOperator),
        }
    }
}

impl NumberOperator {
    /// The operator that stands at this place, if one does.
    pub fn at(bytes: &[u8], place: usize) -> Option<NumberOperator>
        ensures { number_meant result ≡ judged number_operator (byte_at bytes.now place) }
    {
        NumberOperator::try_from(byte_at(bytes, place)?).ok()
    }
}

impl TryFrom<u8> for TruthOperator {
    type Error = NoOperator;

    ghost try_from_gives = { StandsFor truth_operator_of truth_operator };

    fn try_from(byte: u8) -> Result<TruthOperator, NoOperator> {
        match byte {
            16 => Ok(TruthOperator::Equal),
            17 => Ok(TruthOperator::Less),
            18 => Ok(TruthOperator::Not),
            19 => Ok(TruthOperator::And),
            20 => Ok(TruthOperator::Or),
            21 => Ok(TruthOperator::True),
            _ => Err(NoOperator),
        }
    }
}

impl TruthOperator {
    /// The operator that stands at this place, if one does.
    pub fn at(bytes: &[u8], place: usize) -> Option<TruthOperator>
        ensures { truth_meant result ≡ judged truth_operator (byte_at bytes.now place) }
    {
        TruthOperator::try_from(byte_at(bytes, place)?).ok()
    }
}
