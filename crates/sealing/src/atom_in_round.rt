//! What an atom sees in a round, and the first values at which it fails.
ghost use Rattle.std.specs.Prelude.{◌≡◌, ℕ, ◌-◌, ◌<◌, ◌≤◌, is_some};
ghost use Rattle.model.specs.States.{value};
ghost use Rattle.sealing.specs.Search.{top_if, top_at_place};
ghost use Rattle.sealing.specs.Witnesses.{test_of, first_in_round, first_witness, WitnessOrNone};
ghost use Rattle.units.specs.Sealing.{old_names, in_some_round};

use crate::query::{Failure, Query};
use crate::search::Search;
use crate::witness::Witness;
use model::{Drawing, Outline, Round, State};
use std::array::from_fn;

fn top_if(seen: bool, top: u8) -> u8
    ensures { result ≡ top_if seen top }
{
    if seen { top } else { 0 }
}

// The top of each name.
fn tops<D: Outline>(drawing: &D) -> State
    ensures { (k : ℕ) → k < 32 → value result k ≡ (D.Outline.outline drawing.now).top k }
{
    from_fn(|name| drawing.top(name as u8))
}

// An atom of a drawing, in one kind of round.
#[derive(Drop)]
struct AtomInRound<'a, D> {
    drawing: &'a D,
    round: Round,
    atom: u8,
}

impl<D: Outline> AtomInRound<'_, D> {
    fn sees_old(&self, name: u8) -> bool
        ensures { result ≡ old_names (D.Outline.outline self.now.drawing.now)
            self.now.round self.now.atom name }
    {
        self.round == Round::Update && self.drawing.reads(self.atom).has(name)
    }

    // The largest value at this place, 0 where the atom does not see it.
    fn top_at_place(&self, place: u8) -> u8
        ensures { result ≡ top_at_place (D.Outline.outline self.now.drawing.now)
            self.now.round self.now.atom place }
    {
        if place < 32 {
            top_if(self.sees_old(place), self.drawing.top(place))
        } else {
            let name = place - 32;
            top_if(
                self.drawing.awaits(self.atom).has(name),
                self.drawing.top(name),
            )
        }
    }

    fn ranges(&self) -> [u8; 64]
        ensures { (k : ℕ) → k < 64 →
            value result k ≡ top_at_place (D.Outline.outline self.now.drawing.now)
            self.now.round self.now.atom k }
    {
        from_fn(|place| self.top_at_place(place as u8))
    }
}

impl<D: Drawing> AtomInRound<'_, D> {
    fn first_witness(&self, failure: Failure) -> Option<Witness>
        ensures { result ≡ first_in_round (D.Drawing.meaning self.now.drawing.now) failure
            self.now.round self.now.atom }
    {
        let AtomInRound {
            drawing,
            round,
            atom,
        } = *self;
        let query = Query {
            failure,
            atom,
            choices: drawing.choices(round, atom),
            controlled: drawing.controls(atom),
            tops: tops(drawing),
            ranges: self.ranges(),
        };
        let blank = Witness {
            round,
            old: [0; 32],
            new: [0; 32],
        };
        Search { drawing, query }.first_from(0, blank)
    }
}

/// The first values in range of what the atom sees at which it fails so, in an initialization or else in an update; None where it
/// nowhere does. It goes through all of them, so it takes long where they are many.
pub fn first_witness<D: Drawing>(drawing: &D, failure: Failure, atom: u8) -> Option<Witness>
    ensures first { result ≡ first_witness (D.Drawing.meaning drawing.now) failure atom }
    ensures shown { WitnessOrNone (D.Drawing.meaning drawing.now) failure atom result }
    ensures found { is_some result ≡ in_some_round (D.Drawing.meaning drawing.now) (test_of failure) atom }
{
    let first = |round| {
        AtomInRound {
            drawing,
            round,
            atom,
        }
        .first_witness(failure)
    };
    first(Round::Initial).or_else(|| first(Round::Update))
}
