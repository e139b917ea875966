//! The exchange of two names, in a name, a set of names and a state.
ghost use Rattle.std.specs.Prelude.{◌≡◌, ℕ, ◌<◌, ◌&&◌, IfSome, is_some, nat_lt};
ghost use Rattle.composition.specs.Acts.{seen_below};
ghost use Rattle.model.specs.Exchange.{exchange};
ghost use Rattle.model.specs.Sets.{has};
ghost use Rattle.model.specs.States.{value};

use model::{Names, State, exchanged};

/// Two names that change places.
#[derive(Clone, Copy, PartialEq, Eq, Debug)]
pub struct Exchange {
    one: u8,
    other: u8,
    ghost one_name: { one < 32 },
    ghost other_name: { other < 32 },
}

impl Exchange {
    /// The exchange of the two, if both are names; none where one is above 31.
    pub fn of(one: u8, other: u8) -> Option<Exchange>
        ensures names { IfSome result (λ e. (e.one ≡ one) × (e.other ≡ other)) }
        ensures there { is_some result ≡ (nat_lt one 32 && nat_lt other 32) }
    {
        if one < 32 && other < 32 {
            Some(Exchange { one, other })
        } else {
            None
        }
    }

    /// What the name is called once the two have changed places.
    pub fn name(&self, name: u8) -> u8
        ensures { result ≡ exchange self.now.one self.now.other name }
    {
        exchanged(self.one, self.other, name)
    }

    /// The set in which each of the two stands for the other.
    pub fn names(&self, names: Names) -> Names
        ensures { (n : ℕ) → has result n ≡ has names (exchange self.now.one self.now.other n) }
    {
        Names::gather(|name| names.has(self.name(name)))
    }

    /// The state in which each of the two has the value of the other.
    pub fn state(&self, state: State) -> State
        ensures { value result ≡ seen_below self.now.one self.now.other (value state) }
    {
        let mut below = state;
        below.swap(self.one as usize, self.other as usize);
        below
    }
}
