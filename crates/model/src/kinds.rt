//! Kinds of variables as numbers and as words, and rounds as words and from them.
ghost use Rattle.std.specs.Prelude.{◌≡◌, Some, codes};
ghost use Rattle.std.specs.Result.{result_ok};
ghost use Rattle.model.specs.Kinds.{kind_number, kind_word, unknown_kind_text, Decodes};
ghost use Rattle.model.specs.Rounds.{round_word, round_named};

use crate::{Kind, Round};
use std::error::Error;
use std::fmt;
use std::str::FromStr;

/// A number that stands for no kind.
#[derive(Clone, Copy, PartialEq, Eq, Debug)]
pub struct UnknownKind(pub u8);

/// A word that names no round.
#[derive(Clone, Copy, PartialEq, Eq, Debug)]
pub struct UnknownRound;

impl From<Kind> for u8 {
    ghost from_gives = { λ kind number. number ≡ kind_number kind };

    fn from(kind: Kind) -> u8 {
        kind as u8
    }
}

impl TryFrom<u8> for Kind {
    type Error = UnknownKind;

    ghost try_from_gives = { Decodes };

    fn try_from(number: u8) -> Result<Kind, UnknownKind> {
        match number {
            0 => Ok(Kind::Private),
            1 => Ok(Kind::Interface),
            2 => Ok(Kind::External),
            _ => Err(UnknownKind(number)),
        }
    }
}

impl fmt::Display for Kind {
    ghost output = { λ kind. Some (kind_word kind) };

    fn fmt<W: fmt::Write>(&self, f: &mut fmt::Formatter<W>) -> fmt::Result {
        f.write_str(match self {
            Kind::Private => "private",
            Kind::Interface => "interface",
            Kind::External => "external",
        })
    }
}

impl fmt::Display for UnknownKind {
    ghost output = { λ unknown. Some (unknown_kind_text unknown) };

    fn fmt<W: fmt::Write>(&self, f: &mut fmt::Formatter<W>) -> fmt::Result {
        write!(f, "no kind of variable has the number {}", self.0)
    }
}

impl Error for UnknownKind {}

impl fmt::Display for Round {
    ghost output = { λ round. Some (round_word round) };

    fn fmt<W: fmt::Write>(&self, f: &mut fmt::Formatter<W>) -> fmt::Result {
        f.write_str(match self {
            Round::Initial => "init",
            Round::Update => "update",
        })
    }
}

impl FromStr for Round {
    type Err = UnknownRound;

    ghost from_str_gives = { λ word r. result_ok r ≡ round_named word };

    fn from_str(word: &str) -> Result<Round, UnknownRound> {
        match word {
            "init" => Ok(Round::Initial),
            "update" => Ok(Round::Update),
            _ => Err(UnknownRound),
        }
    }
}

impl fmt::Display for UnknownRound {
    ghost output = { λ _. Some (codes "no round has this name") };

    fn fmt<W: fmt::Write>(&self, f: &mut fmt::Formatter<W>) -> fmt::Result {
        f.write_str("no round has this name")
    }
}

impl Error for UnknownRound {}
