//! The three failures at given old and new values, and all values in range gone through for the first at which one occurs.
ghost use Rattle.model.specs.States.{value};
ghost use Rattle.model.specs.Tests.{some};
ghost use Rattle.sealing.specs.declared.query.Failure.TheVariants.{Either};
ghost use Rattle.sealing.specs.Search.{open_at, wrong_name, wrong_choice, failure_at, witness_if, first_filling, BlankFrom, IsNext, Narrow};
ghost use Rattle.std.specs.Prelude.{◌≡◌, not, ◌-◌, ◌<◌, ◌≤◌, MatchOption};
ghost use Rattle.units.specs.Sealing.{within};

use crate::query::{Failure, Query};
use crate::witness::Witness;
use model::{Drawing, any_below, value_of};

/// A query about an atom of a drawing.
#[derive(Drop)]
pub struct Search<'a, D> {
    pub drawing: &'a D,
    pub query: Query,
}

fn is_outside(top: u8, given: i16) -> bool
    ensures { result ≡ not (within top given) }
{
    given < 0 || given > top as i16
}

impl<D: Drawing> Search<'_, D> {
    fn is_open(&self, witness: &Witness, choice: u8) -> bool
        ensures { result ≡ open_at (D.Drawing.meaning self.now.drawing.now).acts self.now.query
            witness.now choice }
    {
        self.drawing.is_open(
            witness.round,
            self.query.atom,
            choice,
            witness.old,
            witness.new,
        )
    }

    fn gives_wrong(&self, witness: &Witness, choice: u8, name: u8) -> bool
        ensures { result ≡ wrong_name (D.Drawing.meaning self.now.drawing.now).acts self.now.query
            witness.now choice name }
    {
        self.query.controlled.has(name)
            && is_outside(
                value_of(self.query.tops, name),
                self.drawing.gives(
                    witness.round,
                    self.query.atom,
                    choice,
                    name,
                    witness.old,
                    witness.new,
                ),
            )
    }

    // Does the choice give some name a value out of range?
    fn gives_outside(&self, witness: &Witness, choice: u8) -> bool
        ensures { result ≡ some (wrong_name (D.Drawing.meaning self.now.drawing.now).acts self.now.query
            witness.now choice) 32 }
    {
        any_below(32, |name| self.gives_wrong(witness, choice, name))
    }

    fn is_wrong(&self, witness: &Witness, choice: u8) -> bool
        ensures { result ≡ wrong_choice (D.Drawing.meaning self.now.drawing.now).acts self.now.query
            witness.now choice }
    {
        self.is_open(witness, choice) && self.gives_outside(witness, choice)
    }

    // Is no choice open, or gives an open one a value out of range? One loop for both, since it asks of each choice only once
    // whether it is open.
    fn fails(&self, witness: &Witness) -> bool
        ensures { result ≡ failure_at Either (D.Drawing.meaning self.now.drawing.now).acts self.now.query
            witness.now }
    {
        let mut stuck = true;
        for choice in 0..self.query.choices {
            if self.is_open(witness, choice) {
                if self.gives_outside(witness, choice) {
                    return true;
                }
                stuck = false;
            }
        }
        stuck
    }

    // Does the failure occur at these values?
    fn occurs(&self, witness: &Witness) -> bool
        ensures { result ≡ failure_at self.now.query.failure (D.Drawing.meaning self.now.drawing.now).acts
            self.now.query witness.now }
    {
        let choices = self.query.choices;
        match self.query.failure {
            Failure::NothingOpen => !any_below(choices, |choice| self.is_open(witness, choice)),
            Failure::GivesOutside => any_below(choices, |choice| self.is_wrong(witness, choice)),
            Failure::Either => self.fails(witness),
        }
    }

    // The first place from this one on that has more values than 0.
    fn next_place(&self, place: u8) -> Option<u8>
        requires { place ≤ 64 }
        ensures { MatchOption result (Narrow (value self.now.query.ranges) place 64)
            (IsNext (value self.now.query.ranges) place) }
    {
        (place..64).find(|next| self.query.ranges[*next as usize] != 0)
    }

    /// The first values at the places from this one on, where all are 0 so far. Places that have no other value are passed over.
    /// The values are a loop, no find_map: for a closure that calls this function nothing is inferred, and it would repeat the
    /// whole contract.
    pub fn first_from(&self, place: u8, witness: Witness) -> Option<Witness>
        requires inside { place ≤ 64 }
        requires blank { BlankFrom place witness }
        ensures { result ≡ first_filling (witness_if (failure_at self.now.query.failure
            (D.Drawing.meaning self.now.drawing.now).acts self.now.query))
            (value self.now.query.ranges) place (64 - place) witness }
    {
        let Some(next) = self.next_place(place) else {
            return self.occurs(&witness).then_some(witness);
        };
        for value in 0..=self.query.ranges[next as usize] {
            if let Some(found) = self.first_from(next + 1, witness.with(next, value)) {
                return Some(found);
            }
        }
        None
    }
}
