//! What a drawing's fault tells, in numbers and in words.
//! The rules of all kinds of drawing stand here together: a fault tells a number, and words for people are wanted for any number,
//! whichever kind of drawing told it. Why a unit is not fit has words of its own (`units::Refusal`).
ghost use Rattle.reports.specs.Rules.{Numbers};

use model::Fault;
use std::error::Error;
use std::fmt;

/// The rules that a drawing can break: 1 to 6 of tables, 7 to 11 of piles, 18 of gate lists.
#[derive(Clone, Copy, PartialEq, Eq, Debug)]
pub enum Rule {
    TableLength,
    TableEnd,
    Variables,
    Atoms,
    Expressions,
    BytesLeftOver,
    Renaming,
    Hiding,
    NameTaken,
    SameTop,
    AtomsOfTwo,
    GateLists,
}

/// A number that no rule has.
#[derive(Clone, Copy, PartialEq, Eq, Debug)]
pub struct UnknownRule(pub u8);

impl TryFrom<u8> for Rule {
    type Error = UnknownRule;

    ghost try_from_gives = { Numbers };

    fn try_from(number: u8) -> Result<Rule, UnknownRule> {
        match number {
            1 => Ok(Rule::TableLength),
            2 => Ok(Rule::TableEnd),
            3 => Ok(Rule::Variables),
            4 => Ok(Rule::Atoms),
            5 => Ok(Rule::Expressions),
            6 => Ok(Rule::BytesLeftOver),
            7 => Ok(Rule::Renaming),
            8 => Ok(Rule::Hiding),
            9 => Ok(Rule::NameTaken),
            10 => Ok(Rule::SameTop),
            11 => Ok(Rule::AtomsOfTwo),
            18 => Ok(Rule::GateLists),
            _ => Err(UnknownRule(number)),
        }
    }
}

impl fmt::Display for UnknownRule {
    fn fmt<W: fmt::Write>(&self, f: &mut fmt::Formatter<W>) -> fmt::Result {
        write!(f, "no rule has the number {}", self.0)
    }
}

impl Error for UnknownRule {}

// What is wrong with a byte, a name or an atom, at its place.
#[derive(Clone, Copy)]
struct Broken {
    rule: Rule,
    place: u16,
}

impl fmt::Display for Broken {
    fn fmt<W: fmt::Write>(&self, f: &mut fmt::Formatter<W>) -> fmt::Result {
        let at = self.place;
        match self.rule {
            Rule::TableLength => f.write_str("a table has at most 4096 bytes"),
            Rule::TableEnd => write!(f, "a byte is missing at {at}, where the bytes end"),
            Rule::Variables => write!(
                f,
                "the byte at {at} is a wrong count, name, kind or top of variables"
            ),
            Rule::Atoms => write!(
                f,
                "at {at} stands a wrong count of atoms or choices, or a set that breaks a rule"
            ),
            Rule::Expressions => write!(f, "an expression is wrong at {at}"),
            Rule::BytesLeftOver => write!(f, "bytes are left over from {at} on"),
            Rule::Renaming => write!(
                f,
                "name {at} cannot be renamed so: it is absent, or the new name is present or above 31"
            ),
            Rule::Hiding => write!(
                f,
                "name {at} cannot be hidden, since it is no interface name"
            ),
            Rule::NameTaken => write!(
                f,
                "name {at} is private in one part and there in the other, or interface in both"
            ),
            Rule::SameTop => write!(f, "name {at} has two tops"),
            Rule::AtomsOfTwo => f.write_str("the two parts have more than 16 atoms"),
            Rule::GateLists => write!(f, "the bytes from {at} on break a rule of gate lists"),
        }
    }
}

/// The number, layer and place of a fault, or zeros where there is none.
#[derive(Clone, Copy)]
pub struct FaultNumbers(pub Option<Fault>);

impl fmt::Display for FaultNumbers {
    ghost use Rattle.reports.specs.Told.{numbers_or_zeros};
    ghost use Rattle.std.specs.Prelude.{Some};

    ghost output = { λ numbers. Some (numbers_or_zeros numbers.0) };

    fn fmt<W: fmt::Write>(&self, f: &mut fmt::Formatter<W>) -> fmt::Result {
        match self.0 {
            None => f.write_str("0 0 0"),
            Some(fault) => write!(f, "{fault}"),
        }
    }
}

/// What is wrong, for people; in a pile also in which layer.
#[derive(Clone, Copy)]
pub struct FaultWords(pub Fault);

impl fmt::Display for FaultWords {
    fn fmt<W: fmt::Write>(&self, f: &mut fmt::Formatter<W>) -> fmt::Result {
        let Fault {
            number,
            layer,
            place,
        } = self.0;
        if layer > 0 {
            write!(f, "in layer {layer}: ")?;
        }
        match Rule::try_from(number) {
            Ok(rule) => write!(f, "{}", Broken { rule, place }),
            Err(_) => write!(f, "rule {number} is broken at place {place}"),
        }
    }
}
