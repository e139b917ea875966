//! A list of states judged as a run that breaks a test.
ghost use Rattle.std.specs.Prelude.{◌≡◌, ℕ, ◌+◌, ◌-◌, ◌<◌, ◌≤◌, Bool, List, length, not};
ghost use Rattle.model.specs.States.{value, is_value, takes, yields};
ghost use Rattle.model.specs.Tests.{some, lowest, implies};
ghost use Rattle.model.specs.declared.Round.TheVariants.{Update};
ghost use Rattle.model.specs.Sets.{has};
ghost use Rattle.units.specs.Evidence.{state_at};
ghost use Rattle.evidence.specs.Judging.{Judges, run_answer};

use crate::states::{is_state, lowest_foreign};
use model::{Drawing, Names, Outline, Round, State, all_below, any_below, value_of};
use units::Refusal;

// Does the choice give the name this new value, where the atom controls it?
fn gives_value<D: Drawing>(
    drawing: &D,
    controlled: &Names,
    round: Round,
    atom: u8,
    choice: u8,
    name: u8,
    old: State,
    new: State,
) -> bool
    ensures { result ≡ implies (has controlled.now name)
        (is_value ((D.Drawing.meaning drawing.now).acts.gives round atom choice name (value old)
        (value new)) (value new name)) }
{
    !controlled.has(name)
        || drawing.gives(round, atom, choice, name, old, new) == value_of(new, name) as i16
}

// Does the choice lead from the old values to the new ones?
fn takes<D: Drawing>(
    drawing: &D,
    round: Round,
    atom: u8,
    choice: u8,
    old: State,
    new: State,
) -> bool
    ensures { result ≡ takes (D.Drawing.meaning drawing.now) round atom choice (value old) (value new) }
{
    let controlled = drawing.controls(atom);
    drawing.is_open(round, atom, choice, old, new)
        && all_below(
            32,
            |name| gives_value(drawing, &controlled, round, atom, choice, name, old, new),
        )
}

// Does a choice of the atom lead there?
fn can_take<D: Drawing>(drawing: &D, round: Round, atom: u8, old: State, new: State) -> bool
    ensures { result ≡ some (λ k. takes (D.Drawing.meaning drawing.now) round atom k (value old) (value new))
        ((D.Drawing.meaning drawing.now).acts.choices round atom) }
{
    any_below(
        drawing.choices(round, atom),
        |choice| takes(drawing, round, atom, choice, old, new),
    )
}

// Can such a round lead from the one state to the other?
fn yields<D: Drawing>(drawing: &D, round: Round, old: State, new: State) -> bool
    ensures { result ≡ yields (D.Drawing.meaning drawing.now) round old new }
{
    is_state(drawing, new)
        && all_below(
            drawing.atoms(),
            |atom| can_take(drawing, round, atom, old, new),
        )
}

// The lowest index of a state that the next one does not follow.
fn lowest_unfollowed<D: Drawing>(drawing: &D, states: &[State]) -> Option<u16>
    requires some { 1 ≤ length states.now }
    requires few { length states.now ≤ 2048 }
    ensures { result ≡ lowest (λ i. not (yields (D.Drawing.meaning drawing.now) Update
        (state_at states.now i) (state_at states.now (i + 1)))) (length states.now - 1) }
{
    for index in 0..states.len() - 1 {
        if !yields(drawing, Round::Update, states[index], states[index + 1]) {
            return Some(index as u16);
        }
    }
    None
}

/// Judges a list of states as a run of the module to a state in which the test fails. The answer is its length, or why it is no such
/// run: a state that is none of the module, a first one that is not initial, one that does not follow the one before, the lowest each,
/// or a last one in which the test holds.
pub fn judge_run<D: Drawing, H: Fn(State) -> bool>(
    drawing: &D,
    states: &[State],
    holds: H,
) -> Result<u32, Refusal>
    requires some { 1 ≤ length states.now }
    requires few { length states.now ≤ 2048 }
    requires callable { (i : ℕ) → i < length states.now → H.pre holds (state_at states.now i) }
    ensures { (p : List ℕ → Bool) → Judges (H.post holds) p states.now →
        result ≡ run_answer (D.Drawing.meaning drawing.now) p states.now }
{
    if let Some(index) = lowest_foreign(drawing, states) {
        return Err(Refusal::NotAState { index });
    }
    if !yields(drawing, Round::Initial, [0; 32], states[0]) {
        return Err(Refusal::NotInitial);
    }
    if let Some(index) = lowest_unfollowed(drawing, states) {
        return Err(Refusal::NotASuccessor { index: index + 1 });
    }
    let last = states.len() - 1;
    if holds(states[last]) {
        return Err(Refusal::TrueInLast { index: last as u16 });
    }
    Ok(states.len() as u32)
}
