//! States in words: `0=1,7=2`, names that are not written being 0; several are parted by semicolons.
ghost use Rattle.script.specs.Reading.{Reads};
ghost use Rattle.script.specs.States.{assign, assign_all, parts, state_in_words, states_in_words};
ghost use Rattle.std.specs.Prelude.{◌≡◌, vec_items};

use crate::mistake::Mistake;
use crate::number::number_or;
use model::State;
use std::alloc::Global;

// The values of the names, as far as they are given.
type Given = [Option<u8>; 32];

// One more value is given, as `7=2`.
fn assign(mut given: Given, text: &str) -> Result<Given, Mistake>
    ensures { result ≡ assign given text.now }
{
    let Some((name, value)) = text.split_once('=') else {
        return Err(Mistake::BadAssignment);
    };
    let name = number_or(Mistake::BadAssignment, name)?;
    let value = number_or(Mistake::BadAssignment, value)?;
    if name >= 32 {
        return Err(Mistake::BadAssignment);
    }
    let place = usize::from(name);
    if given[place].is_some() {
        return Err(Mistake::NameTwice);
    }
    given[place] = Some(value);
    Ok(given)
}

// The values that assignments parted by commas give beside these. It goes no deeper than there are names, since none is given twice.
fn assign_all(given: Given, text: &str) -> Result<Given, Mistake>
    ensures { result ≡ assign_all given (parts 44 text.now) }
{
    match text.split_once(',') {
        None => assign(given, text),
        Some((part, later)) => assign_all(assign(given, part)?, later),
    }
}

fn state_in_words(text: &str) -> Result<State, Mistake>
    ensures { result ≡ state_in_words text.now }
{
    let given = assign_all([None; 32], text)?;
    Ok(given.map(|value| value.unwrap_or(0)))
}

/// The states that the words spell, one after the other.
pub fn states_in_words(heap: Global, text: &str) -> Result<Vec<u8>, Mistake>
    ensures { Reads vec_items (states_in_words text.now) result }
{
    let mut bytes = Vec::new(heap);
    let mut rest = text;
    while let Some((state, later)) = rest.split_once(';') {
        bytes.extend_from_slice(&state_in_words(state)?)?;
        rest = later;
    }
    bytes.extend_from_slice(&state_in_words(rest)?)?;
    Ok(bytes)
}
