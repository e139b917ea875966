//! What a line of a script asks for.
ghost use Rattle.std.specs.Prelude.{◌≡◌, ℕ, List, Some, None, IfOk, MatchResult, length};
ghost use Rattle.script.specs.Commands.{round_of, miscounted, ReadsWords, begins_comment, Asks, Unread};
ghost use Rattle.script.specs.Verbs.{verb_of, words_wanted};
ghost use Rattle.script.specs.declared.mistake.Mistake.TheVariants.{UnknownCommand};
ghost use Rattle.script.specs.Words.{Words};
ghost use Rattle.std.specs.Borrow.{Bor};

use crate::mistake::Mistake;
use crate::number::{number_or, unit_number};
use crate::source::ByteSource;
use crate::verb::Verb;
use model::{Question, Round};
use std::alloc::{AllocError, Global};

/// What a line asks for. Names are words of the script; numbers of names, atoms and choices are 0 to 255.
#[derive(Drop)]
pub enum Command {
    New,
    Table {
        name: String,
        bytes: ByteSource,
    },
    Gates {
        name: String,
        bytes: ByteSource,
    },
    Join {
        name: String,
        left: String,
        right: String,
    },
    Rename {
        name: String,
        below: String,
        old: u8,
        new: u8,
    },
    Hide {
        name: String,
        below: String,
        hidden: u8,
    },
    Seal {
        name: String,
        drawing: String,
        number: u32,
    },
    Verdict {
        name: String,
    },
    Outline {
        name: String,
    },
    Ask {
        name: String,
        asked: Question<ByteSource>,
    },
}

fn round(word: &str) -> Result<Round, Mistake>
    ensures { result ≡ round_of word.now }
{
    word.parse::<Round>().map_err(|_| Mistake::BadRound)
}

// Why a command is refused that has so many words after its own, and wants another number.
fn miscount(there: usize, wanted: usize) -> Mistake
    ensures { result ≡ miscounted wanted there }
{
    if there < wanted {
        Mistake::MissingWord
    } else {
        Mistake::SuperfluousWord
    }
}

// The command that these words after its own spell, as many as it wants.
fn command_of(heap: Global, verb: Verb, words: &[&str]) -> Result<Command, Mistake>
    requires { length words.now ≡ words_wanted verb }
    ensures { ReadsWords verb words.now result }
{
    match verb {
        Verb::New => Ok(Command::New),
        Verb::Table => Ok(Command::Table {
            name: String::from_str(heap, words[0])?,
            bytes: ByteSource::read(heap, words[1])?,
        }),
        Verb::Gates => Ok(Command::Gates {
            name: String::from_str(heap, words[0])?,
            bytes: ByteSource::read(heap, words[1])?,
        }),
        Verb::Join => Ok(Command::Join {
            name: String::from_str(heap, words[0])?,
            left: String::from_str(heap, words[1])?,
            right: String::from_str(heap, words[2])?,
        }),
        Verb::Rename => Ok(Command::Rename {
            name: String::from_str(heap, words[0])?,
            below: String::from_str(heap, words[1])?,
            old: number_or(Mistake::BadNumber, words[2])?,
            new: number_or(Mistake::BadNumber, words[3])?,
        }),
        Verb::Hide => Ok(Command::Hide {
            name: String::from_str(heap, words[0])?,
            below: String::from_str(heap, words[1])?,
            hidden: number_or(Mistake::BadNumber, words[2])?,
        }),
        Verb::Seal => Ok(Command::Seal {
            name: String::from_str(heap, words[0])?,
            drawing: String::from_str(heap, words[1])?,
            number: unit_number(words[2])?,
        }),
        Verb::Verdict => Ok(Command::Verdict {
            name: String::from_str(heap, words[0])?,
        }),
        Verb::Outline => Ok(Command::Outline {
            name: String::from_str(heap, words[0])?,
        }),
        Verb::Ask => Ok(Command::Ask {
            name: String::from_str(heap, words[0])?,
            asked: Question {
                round: round(words[1])?,
                atom: number_or(Mistake::BadNumber, words[2])?,
                choice: number_or(Mistake::BadNumber, words[3])?,
                old: ByteSource::read_states(heap, words[4])?,
                new: ByteSource::read_states(heap, words[5])?,
            },
        }),
    }
}

// The same of any number of words.
fn counted_command(heap: Global, verb: Verb, words: &[&str]) -> Result<Command, Mistake>
    ensures { ReadsWords verb words.now result }
{
    if words.len() != verb.words_wanted() {
        return Err(miscount(words.len(), verb.words_wanted()));
    }
    command_of(heap, verb, words)
}

fn words_of<'a>(heap: Global, line: &'a str) -> Result<Vec<&'a str>, AllocError>
    ensures { IfOk result (λ v. Words line.now v.items) }
{
    line.split_whitespace().collect(heap)
}

fn begins_comment(word: &str) -> bool
    ensures { result ≡ begins_comment word.now }
{
    word.starts_with('#')
}

fn verb_of(word: &str) -> Result<Verb, Mistake>
    ensures { MatchResult result (λ v. verb_of word.now ≡ Some v)
        (λ e. (e ≡ UnknownCommand) × (verb_of word.now ≡ None)) }
{
    word.parse::<Verb>()
}

/// What the line asks for; a blank line and a comment ask for nothing.
pub fn parse(heap: Global, line: &str) -> Result<Option<Command>, Mistake>
    ensures { MatchResult result (λ o. (ws : List (Bor (List ℕ))) × Words line.now ws × Asks ws o)
        (λ e. Unread line.now e) }
{
    let words = words_of(heap, line)?;
    let Some((first, rest)) = words.split_first() else {
        return Ok(None);
    };
    if begins_comment(first) {
        return Ok(None);
    }
    let verb = verb_of(first)?;
    Ok(Some(counted_command(heap, verb, rest)?))
}
