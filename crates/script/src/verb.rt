//! The words that commands begin with.
ghost use Rattle.script.specs.Verbs.{verb_of, words_wanted};
ghost use Rattle.script.specs.declared.mistake.Mistake.TheVariants.{UnknownCommand};
ghost use Rattle.std.specs.Prelude.{◌≡◌, ok_or};

use crate::mistake::Mistake;
use std::str::FromStr;

/// The word that a command begins with.
#[derive(Clone, Copy, PartialEq, Eq, Debug)]
pub enum Verb {
    New,
    Table,
    Gates,
    Join,
    Rename,
    Hide,
    Seal,
    Verdict,
    Outline,
    Ask,
}

impl FromStr for Verb {
    type Err = Mistake;

    ghost from_str_gives = { λ word r. r ≡ ok_or (verb_of word) UnknownCommand };

    fn from_str(word: &str) -> Result<Verb, Mistake> {
        match word {
            "new" => Ok(Verb::New),
            "table" => Ok(Verb::Table),
            "gates" => Ok(Verb::Gates),
            "join" => Ok(Verb::Join),
            "rename" => Ok(Verb::Rename),
            "hide" => Ok(Verb::Hide),
            "seal" => Ok(Verb::Seal),
            "verdict" => Ok(Verb::Verdict),
            "outline" => Ok(Verb::Outline),
            "ask" => Ok(Verb::Ask),
            _ => Err(Mistake::UnknownCommand),
        }
    }
}

impl Verb {
    /// How many words a command wants after its own.
    pub fn words_wanted(self) -> usize
        ensures { result ≡ words_wanted self }
    {
        match self {
            Verb::New => 0,
            Verb::Verdict | Verb::Outline => 1,
            Verb::Table | Verb::Gates => 2,
            Verb::Join | Verb::Hide | Verb::Seal => 3,
            Verb::Rename => 4,
            Verb::Ask => 6,
        }
    }
}
