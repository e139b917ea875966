//! A list of states judged as a certificate for a test.
ghost use Rattle.std.specs.Prelude.{◌≡◌, ℕ, ◌<◌, ◌≤◌, Bool, List, None, length};
ghost use Rattle.sealing.specs.Orders.{AtomsInOrder};
ghost use Rattle.units.specs.Evidence.{state_at};
ghost use Rattle.units.specs.Sealing.{verdict};
ghost use Rattle.evidence.specs.Judging.{Judges, certificate_answer};

use crate::indices::sorted_indices;
use crate::round::RoundSearch;
use crate::states::{lowest_failing, lowest_foreign};
use model::{Drawing, State};
use units::Refusal;

/// Judges a list of states as a certificate for a test: states of the module in which it holds, with every initial state and every
/// successor of each. The answer counts the outcomes of the initialization and of the rounds from each state, each with the choices
/// that lead there; or it is why the list is no certificate, at the lowest state where a state is concerned.
pub fn judge_certificate<D: Drawing, H: Fn(State) -> bool>(
    drawing: &D,
    order: &[u8; 16],
    states: &[State],
    holds: H,
) -> Result<u32, Refusal>
    requires fit { verdict (D.Drawing.meaning drawing.now) ≡ None }
    requires ordered { AtomsInOrder (D.Drawing.meaning drawing.now).outline order.now }
    requires few { length states.now ≤ 2048 }
    requires callable { (i : ℕ) → i < length states.now → H.pre holds (state_at states.now i) }
    ensures { (p : List ℕ → Bool) → Judges (H.post holds) p states.now →
        result ≡ certificate_answer (D.Drawing.meaning drawing.now) p states.now }
{
    if let Some(index) = lowest_foreign(drawing, states) {
        return Err(Refusal::NotAState { index });
    }
    if let Some(index) = lowest_failing(states, holds) {
        return Err(Refusal::FalseIn { index });
    }
    let sorted = sorted_indices(states);
    let indices = &sorted[..states.len()];
    let initial = RoundSearch {
        drawing,
        order,
        states,
        indices,
        before: None,
    };
    let Some(mut count) = initial.count() else {
        return Err(Refusal::InitialStateMissing);
    };
    for index in 0..states.len() {
        let update = RoundSearch {
            drawing,
            order,
            states,
            indices,
            before: Some(states[index]),
        };
        let Some(more) = update.count() else {
            return Err(Refusal::SuccessorMissing {
                index: index as u16,
            });
        };
        count = count.saturating_add(more);
    }
    Ok(count)
}
