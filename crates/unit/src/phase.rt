//! Where a unit is between calls.
use model::{Atoms, State};

/// Idle, with a state standing, or in the middle of a round: the state that stood before it, none in an initialization,
/// the values given and made so far, and which atoms have fired.
#[derive(Clone, Copy)]
pub enum Phase {
    Idle,
    Standing {
        state: State,
    },
    InRound {
        before: Option<State>,
        new: State,
        fired: Atoms,
    },
}
