//! Indices of a list of states in the order of the states: a state is looked for in them without going through the list.
ghost use Rattle.std.specs.Prelude.{◌≡◌, ℕ, ◌<◌, ◌≤◌, length, take};
ghost use Rattle.std.specs.Cmp.Lexicographic.{slice_cmp};
ghost use Rattle.std.specs.List.Sorted.{IsPermutation, IsSortedBy};
ghost use Rattle.std.specs.Ordering.{nat_cmp};
ghost use Rattle.units.specs.Evidence.{is_listed};
ghost use Rattle.evidence.specs.Indices.{state_or_nothing, index_cmp, is_lower, IndexesStates};

use model::State;
use std::array::from_fn;
use std::cmp::Ordering;

fn state_or_nothing(states: &[State], index: u16) -> State
    ensures { result ≡ state_or_nothing states.now index }
{
    states.get(index as usize).copied().unwrap_or([0; 32])
}

fn compare_with(states: &[State], index: u16, state: &State) -> Ordering
    ensures { result ≡ slice_cmp nat_cmp (state_or_nothing states.now index) state.now }
{
    state_or_nothing(states, index).cmp(state)
}

fn compare(states: &[State], first: u16, second: u16) -> Ordering
    ensures { result ≡ index_cmp states.now first second }
{
    compare_with(states, first, &state_or_nothing(states, second))
}

fn sort_indices(states: &[State], indices: &mut [u16])
    ensures permutation { IsPermutation indices.old indices.new }
    ensures long { length indices.new ≡ length indices.old }
    ensures sorted { IsSortedBy (is_lower states.now) indices.new }
{
    indices.sort_unstable_by(
        |first: &u16, second: &u16| -> Ordering
            ensures { result ≡ index_cmp states.entry.now first.now second.now }
        { compare(states, *first, *second) },
    );
}

/// The indices of at most 2,048 states in the order of the states, which are the first ones of the array.
pub fn sorted_indices(states: &[State]) -> [u16; 2048]
    requires few { length states.now ≤ 2048 }
    ensures long { length result ≡ 2048 }
    ensures sorted { IndexesStates states.now (take (length states.now) result) }
{
    let mut indices: [u16; 2048] = from_fn(|index| index as u16);
    sort_indices(states, &mut indices[..states.len()]);
    indices
}

/// Is the state one of the list?
pub fn lists(states: &[State], indices: &[u16], state: State) -> bool
    requires sorted { IndexesStates states.now indices.now }
    ensures { result ≡ is_listed states.now state }
{
    indices
        .binary_search_by(
            |index: &u16| -> Ordering
                ensures { result ≡ slice_cmp nat_cmp (state_or_nothing states.entry.now index.now) state }
            { compare_with(states, *index, &state) },
        )
        .is_ok()
}
