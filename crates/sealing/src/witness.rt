//! Values that an atom sees in a round, at which it may fail.
ghost use Rattle.std.specs.Prelude.{◌≡◌, ◌<◌};

use model::{Round, State};

/// Old values and new ones, 0 at the names that the atom does not see in such a round.
#[derive(Clone, Copy, PartialEq, Eq, Debug)]
pub struct Witness {
    pub round: Round,
    pub old: State,
    pub new: State,
}

impl Witness {
    ghost use Rattle.sealing.specs.Search.{witness_with};

    /// With this value at the place: an old value below place 32, a new one from there on.
    pub fn with(self, place: u8, value: u8) -> Witness
        requires { place < 64 }
        ensures { result ≡ witness_with place self value }
    {
        let mut witness = self;
        if place < 32 {
            witness.old[place as usize] = value;
        } else {
            witness.new[(place - 32) as usize] = value;
        }
        witness
    }
}
