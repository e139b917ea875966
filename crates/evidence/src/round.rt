//! The outcomes of a round gone through and counted.
ghost use Rattle.std.specs.Prelude.{◌≡◌, ℕ, ◌+◌, ◌-◌, ◌<◌, ◌≤◌, true, cond, slice_set};
ghost use Rattle.model.specs.States.{value, is_state};
ghost use Rattle.units.specs.Evidence.{is_listed};
ghost use Rattle.units.specs.Units.{kind_of_round, old_state, as_value, values_made};
ghost use Rattle.evidence.specs.Counts.{given_top, atoms_count, values_count};
ghost use Rattle.evidence.specs.Indices.{IndexesStates};
ghost use Rattle.evidence.specs.Judging.{RoundReady, round_answer};

use crate::indices::lists;
use model::{Drawing, Kind, Outline, Round, State, value_of};
use std::array::from_fn;

/// A round from a state, or the initialization, of a drawing whose atoms are in order, and the states that are listed, with their
/// indices in the order of the states.
#[derive(Drop)]
pub struct RoundSearch<'a, D> {
    pub drawing: &'a D,
    pub order: &'a [u8; 16],
    pub states: &'a [State],
    pub indices: &'a [u16],
    pub before: Option<State>,
}

// A number in range, as a value.
fn as_value(given: i16) -> u8
    requires { as_value given < 256 }
    ensures { result ≡ as_value given }
{
    given.max(0) as u8
}

impl<D: Outline> RoundSearch<'_, D> {
    fn round(&self) -> Round
        ensures { result ≡ kind_of_round self.now.before }
    {
        match self.before {
            None => Round::Initial,
            Some(_) => Round::Update,
        }
    }

    fn old(&self) -> State
        ensures { result ≡ old_state self.now.before }
    {
        match self.before {
            None => [0; 32],
            Some(state) => state,
        }
    }

    // The largest value that is given to the name.
    fn given_top(&self, name: u8) -> u8
        ensures { result ≡ given_top (D.Outline.outline self.now.drawing.now) name }
    {
        if self.drawing.kind(name) == Some(Kind::External) {
            self.drawing.top(name)
        } else {
            0
        }
    }

    fn is_listed(&self, state: State) -> bool
        requires indexed { IndexesStates self.now.states.now self.now.indices.now }
        ensures { result ≡ is_listed self.now.states.now state }
    {
        lists(self.states, self.indices, state)
    }
}

impl<D: Drawing> RoundSearch<'_, D> {
    fn is_open(&self, atom: u8, choice: u8, new: State) -> bool
        ensures { result ≡ (D.Drawing.meaning self.now.drawing.now).acts.opens
            (kind_of_round self.now.before) atom choice
            (value (old_state self.now.before)) (value new) }
    {
        self.drawing
            .is_open(self.round(), atom, choice, self.old(), new)
    }

    // The values with those that the atom's choice gives.
    fn with_choice(&self, atom: u8, choice: u8, new: State) -> State
        requires { (n : ℕ) → (D.Drawing.meaning self.now.drawing.now).outline.controls atom n ≡ true →
            as_value ((D.Drawing.meaning self.now.drawing.now).acts.gives
            (kind_of_round self.now.before) atom choice n
            (value (old_state self.now.before)) (value new)) < 256 }
        ensures { result ≡ values_made (D.Drawing.meaning self.now.drawing.now) self.now.before
            new atom choice }
    {
        let controlled = self.drawing.controls(atom);
        let round = self.round();
        let old = self.old();
        let mut made = new;
        for name in 0..32u8 {
            if controlled.has(name) {
                let given = self.drawing.gives(round, atom, choice, name, old, new);
                made[name as usize] = as_value(given);
            }
        }
        made
    }

    // The count of the outcomes under these values, given and made so far, by the choices of the atoms from this place on.
    fn atoms_count(&self, place: u8, new: State) -> Option<u32>
        requires ready { RoundReady (D.Drawing.meaning self.now.drawing.now) self.now.before self.now.order.now }
        requires indexed { IndexesStates self.now.states.now self.now.indices.now }
        requires state { is_state (D.Drawing.meaning self.now.drawing.now).outline new ≡ true }
        requires inside { place ≤ (D.Drawing.meaning self.now.drawing.now).outline.atoms }
        ensures { result ≡ atoms_count (D.Drawing.meaning self.now.drawing.now) self.now.before
            (is_listed self.now.states.now) self.now.order.now place
            ((D.Drawing.meaning self.now.drawing.now).outline.atoms - place) new }
    {
        if place >= self.drawing.atoms() {
            return self.is_listed(new).then_some(1);
        }
        let atom = self.order[place as usize];
        let mut count = 0u32;
        for choice in 0..self.drawing.choices(self.round(), atom) {
            if self.is_open(atom, choice, new) {
                let made = self.with_choice(atom, choice, new);
                let under = self.atoms_count(place + 1, made)?;
                count = count.saturating_add(under);
            }
        }
        Some(count)
    }

    // The same by the values of the external names from this one on.
    fn values_count(&self, name: u8, new: State) -> Option<u32>
        requires ready { RoundReady (D.Drawing.meaning self.now.drawing.now) self.now.before self.now.order.now }
        requires indexed { IndexesStates self.now.states.now self.now.indices.now }
        requires state { is_state (D.Drawing.meaning self.now.drawing.now).outline new ≡ true }
        requires inside { name ≤ 32 }
        ensures { result ≡ values_count (D.Drawing.meaning self.now.drawing.now) self.now.before
            (is_listed self.now.states.now) self.now.order.now name (32 - name) new }
    {
        if name >= 32 {
            return self.atoms_count(0, new);
        }
        let mut count = 0u32;
        for value in 0..=self.given_top(name) {
            let mut given = new;
            given[name as usize] = value;
            let under = self.values_count(name + 1, given)?;
            count = count.saturating_add(under);
        }
        Some(count)
    }

    /// How many outcomes the round has, None where one of them is not listed.
    pub fn count(&self) -> Option<u32>
        requires ready { RoundReady (D.Drawing.meaning self.now.drawing.now) self.now.before self.now.order.now }
        requires indexed { IndexesStates self.now.states.now self.now.indices.now }
        ensures { result ≡ round_answer (D.Drawing.meaning self.now.drawing.now) self.now.before
            self.now.states.now }
    {
        self.values_count(0, [0; 32])
    }
}
