//! The rules that a byte table may break.
ghost use Rattle.language.specs.Rules.{all_rules, rule_fault, rule_number, rule_words};
ghost use Rattle.std.specs.Prelude.{◌≡◌, ◌==◌, ◌≤◌, Some, find};

use model::Fault;
use std::error::Error;
use std::fmt;

/// What may be wrong with the bytes of a table; as a number, that of its fault.
#[derive(Clone, Copy, PartialEq, Eq, Debug)]
pub enum Rule {
    /// There are more than 4,096 bytes. The place is 0.
    TooManyBytes = 1,
    /// A byte is missing. The place is where the bytes end.
    BytesMissing = 2,
    /// The count of variables, or a variable's name, kind or top, is wrong, at that byte.
    WrongVariable = 3,
    /// A count of atoms or of choices is wrong, at that byte, or a set is no such set, at its first byte.
    WrongAtom = 4,
    /// A length, an operator, a ninth level or a name of an expression is wrong, at that byte, or the expression ends before
    /// or beyond its length, at the byte after the earlier of the two.
    WrongExpression = 5,
    /// Bytes follow the last atom. The place is that of the first.
    BytesLeftOver = 6,
}

impl From<Rule> for u8 {
    ghost from_gives = { λ rule number. number ≡ rule_number rule };

    fn from(rule: Rule) -> u8 {
        rule as u8
    }
}

impl Rule {
    /// The fault of breaking the rule at this place of a table.
    pub fn broken_at(self, place: usize) -> Fault
        requires { place ≤ 4096 }
        ensures { result ≡ rule_fault self place }
    {
        Fault::own(self.into(), place as u16)
    }

    /// The rule whose faults have this number, if there is one.
    pub fn numbered(number: u8) -> Option<Rule>
        ensures { result ≡ find (λ rule. rule_number rule == number) all_rules }
    {
        let rules = [
            Rule::TooManyBytes,
            Rule::BytesMissing,
            Rule::WrongVariable,
            Rule::WrongAtom,
            Rule::WrongExpression,
            Rule::BytesLeftOver,
        ];
        rules.iter().copied().find(|rule| u8::from(*rule) == number)
    }
}

impl fmt::Display for Rule {
    ghost output = { λ rule. Some (rule_words rule) };

    fn fmt<W: fmt::Write>(&self, f: &mut fmt::Formatter<W>) -> fmt::Result {
        f.write_str(match self {
            Rule::TooManyBytes => "a table has more than 4,096 bytes",
            Rule::BytesMissing => "a byte of a table is missing",
            Rule::WrongVariable => "a count, name, kind or top of variables is wrong",
            Rule::WrongAtom => "a count of atoms or choices, or a set of names, is wrong",
            Rule::WrongExpression => "an expression is wrong",
            Rule::BytesLeftOver => "bytes are left over behind a table",
        })
    }
}

impl Error for Rule {}
