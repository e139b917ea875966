//! Byte strings, as a line gives them.
ghost use Rattle.script.specs.Files.{IsReadFile};
ghost use Rattle.script.specs.Sources.{is_in_words};
ghost use Rattle.script.specs.StateBytes.{state_of};
ghost use Rattle.std.specs.Prelude.{◌≡◌};

use crate::hex_digits::bytes_of_hex;
use crate::mistake::Mistake;
use crate::states::states_in_words;
use model::State;
use std::alloc::Global;

/// Where the bytes of files come from.
pub trait FileBytes {
    /// The bytes of the file at this path.
    fn read(&self, path: &str) -> Result<Vec<u8>, Mistake>
        ensures { IsReadFile result };
}

/// A byte string, or the path of the file that holds it.
#[derive(Drop)]
pub enum ByteSource {
    Given(Vec<u8>),
    File(String),
}

// Does the word have an equals sign, and is no path?
fn is_in_words(word: &str) -> bool
    ensures { result ≡ is_in_words word.now }
{
    match word.split_once('=') {
        Some(_) => !word.starts_with('@'),
        None => false,
    }
}

impl ByteSource {
    ghost use Rattle.script.specs.Reading.{Reads};
    ghost use Rattle.script.specs.Sources.{source_in, states_in, source_of, Loads};

    /// A word for bytes: `-` for none, `@PATH` for those of a file, else hex digits.
    pub fn read(heap: Global, word: &str) -> Result<ByteSource, Mistake>
        ensures { Reads source_of (source_in word.now) result }
    {
        if word == "-" {
            return Ok(ByteSource::Given(Vec::new(heap)));
        }
        match word.strip_prefix("@") {
            Some(path) => Ok(ByteSource::File(String::from_str(heap, path)?)),
            None => Ok(ByteSource::Given(bytes_of_hex(heap, word)?)),
        }
    }

    /// A word for states: as one for bytes, or in words, which have an equals sign.
    pub fn read_states(heap: Global, word: &str) -> Result<ByteSource, Mistake>
        ensures { Reads source_of (states_in word.now) result }
    {
        if !is_in_words(word) {
            return ByteSource::read(heap, word);
        }
        Ok(ByteSource::Given(states_in_words(heap, word)?))
    }

    /// The bytes, from the line or from a file.
    pub fn load<F: FileBytes>(self, files: &F) -> Result<Vec<u8>, Mistake>
        ensures { Loads self result }
    {
        match self {
            ByteSource::Given(bytes) => Ok(bytes),
            ByteSource::File(path) => files.read(path.as_str()),
        }
    }
}

/// The bytes as a state.
pub fn state_of(bytes: &[u8]) -> Result<State, Mistake>
    ensures { result ≡ state_of bytes.now }
{
    State::try_from(bytes).map_err(|_| Mistake::NotAState)
}
