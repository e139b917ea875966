//! The exchange of two names in a written expression.
ghost use Rattle.expression.specs.Renaming.{next_of, NamesExchanged};
ghost use Rattle.language.specs.Expressions.{operator, following, bytes_renamed};
ghost use Rattle.std.specs.Prelude.{◌≡◌};

use crate::operators::NumberOperator;
use model::exchanged;

// What the next byte of a written expression is.
#[derive(Clone, Copy, PartialEq, Eq, Debug)]
enum Next {
    Operator,
    Constant,
    Name,
}

impl Next {
    fn after_operator(byte: u8) -> Next
        ensures { next_of result ≡ following byte }
    {
        match NumberOperator::try_from(byte) {
            Ok(NumberOperator::Constant) => Next::Constant,
            Ok(NumberOperator::OldValue | NumberOperator::NewValue) => Next::Name,
            _ => Next::Operator,
        }
    }
}

/// Puts b for each name a of a written expression, and a for each b. Constants stay as they are.
pub fn rename(bytes: &mut [u8], a: u8, b: u8)
    ensures renamed { bytes.new ≡ bytes_renamed a b operator bytes.old }
    ensures means { NamesExchanged a b bytes.old bytes.new }
{
    let mut next = Next::Operator;
    for byte in bytes.iter_mut() {
        next = match next {
            Next::Operator => Next::after_operator(*byte),
            Next::Constant => Next::Operator,
            Next::Name => {
                *byte = exchanged(a, b, *byte);
                Next::Operator
            }
        };
    }
}
