//! What can be wrong with a line.
use hex::FromHexError;
use std::alloc::{AllocError, AllocFailed};
use thiserror::Error;

/// Why a line is refused. Its text is what people are told.
#[derive(Clone, Copy, PartialEq, Eq, Debug, Error)]
pub enum Mistake {
    #[error("the line is not UTF-8 text")]
    NotText,
    #[error("there is no such command")]
    UnknownCommand,
    #[error("a word is missing")]
    MissingWord,
    #[error("there is a word too many")]
    SuperfluousWord,
    #[error("hex digits come in pairs, two to a byte")]
    OddHex,
    #[error("a hex digit is 0 to 9, a to f or A to F")]
    BadHex,
    #[error("a state in words is NAME=VALUE parted by commas, names 0 to 31 and values 0 to 255")]
    BadAssignment,
    #[error("a name has two values in one state")]
    NameTwice,
    #[error("a state has 32 bytes")]
    NotAState,
    #[error("a round is init or update")]
    BadRound,
    #[error("a number here is 0 to 255 in decimal digits")]
    BadNumber,
    #[error("a unit number is 0 to 4294967295 in decimal digits")]
    BadUnitNumber,
    #[error("nothing was made under this name")]
    UnknownName,
    #[error("a drawing is used up by a join, so two are wanted")]
    UsedTwice,
    #[error("this name stands for a unit, and a drawing is wanted")]
    NotADrawing,
    #[error("this name stands for a drawing, and a unit is wanted")]
    NotAUnit,
    #[error("the file cannot be read")]
    Unreadable,
    #[error("there is not enough memory")]
    NoMemory,
}

impl From<AllocError> for Mistake {
    ghost use Rattle.script.specs.declared.mistake.Mistake.TheVariants.{NoMemory};
    ghost use Rattle.std.specs.Prelude.{◌≡◌};

    ghost from_gives = { λ _ r. r ≡ NoMemory };

    fn from(_e: AllocError) -> Mistake {
        Mistake::NoMemory
    }
}

impl<T: Drop> From<AllocFailed<T>> for Mistake {
    ghost use Rattle.script.specs.declared.mistake.Mistake.TheVariants.{NoMemory};
    ghost use Rattle.std.specs.Prelude.{◌≡◌};

    ghost from_gives = { λ _ r. r ≡ NoMemory };

    fn from(_e: AllocFailed<T>) -> Mistake {
        Mistake::NoMemory
    }
}

impl From<FromHexError> for Mistake {
    ghost use Rattle.script.specs.Hex.{hex_mistake};
    ghost use Rattle.std.specs.Prelude.{◌≡◌};

    ghost from_gives = { λ e r. r ≡ hex_mistake e };

    fn from(e: FromHexError) -> Mistake {
        match e {
            FromHexError::OddLength | FromHexError::InvalidStringLength => Mistake::OddHex,
            FromHexError::InvalidHexCharacter { .. } => Mistake::BadHex,
            FromHexError::OutOfMemory => Mistake::NoMemory,
        }
    }
}
