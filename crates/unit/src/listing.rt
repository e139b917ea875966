//! States that are listed as bytes.
ghost use Rattle.unit.specs.Listing.{StatesListed};

use model::State;

/// The states that bytes list, 32 bytes each; None where the bytes are no whole states, or none, or more than 2,048.
pub fn states_in(bytes: &[u8]) -> Option<&[State]>
    ensures { StatesListed bytes.now result }
{
    let (states, rest) = bytes.as_chunks::<32>();
    if !rest.is_empty() || states.is_empty() || states.len() > 2048 {
        return None;
    }
    Some(states)
}
