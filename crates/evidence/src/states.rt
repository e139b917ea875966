//! States of a module, and lists of states.
ghost use Rattle.std.specs.Prelude.{◌≡◌, ℕ, ◌<◌, ◌≤◌, Bool, List, length, not};
ghost use Rattle.model.specs.States.{is_state};
ghost use Rattle.model.specs.Tests.{lowest};
ghost use Rattle.units.specs.Evidence.{state_at};
ghost use Rattle.evidence.specs.Judging.{Judges};

use model::{Outline, State, all_below, value_of};

/// Are the values of the state in range, and 0 where there is no variable?
pub fn is_state<D: Outline>(drawing: &D, state: State) -> bool
    ensures { result ≡ is_state (D.Outline.outline drawing.now) state }
{
    all_below(32, |name| value_of(state, name) <= drawing.top(name))
}

/// The lowest index of a state that fails the test.
pub fn lowest_failing<F: Fn(State) -> bool>(states: &[State], test: F) -> Option<u16>
    requires few { length states.now ≤ 2048 }
    requires callable { (i : ℕ) → i < length states.now → F.pre test (state_at states.now i) }
    ensures { (p : List ℕ → Bool) → Judges (F.post test) p states.now →
        result ≡ lowest (λ i. not (p (state_at states.now i))) (length states.now) }
{
    for index in 0..states.len() {
        if !test(states[index]) {
            return Some(index as u16);
        }
    }
    None
}

/// The lowest index of a state that is none of the module.
pub fn lowest_foreign<D: Outline>(drawing: &D, states: &[State]) -> Option<u16>
    requires few { length states.now ≤ 2048 }
    ensures { result ≡ lowest (λ i. not (is_state (D.Outline.outline drawing.now)
        (state_at states.now i))) (length states.now) }
{
    lowest_failing(
        states,
        |state: State| -> bool
            ensures { result ≡ is_state (D.Outline.outline drawing.entry.now) state }
        { is_state(drawing, state) },
    )
}
