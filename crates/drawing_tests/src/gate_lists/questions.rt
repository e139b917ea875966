//! Questions that the tests ask of a list, each about every number that can be asked after.
use gates::GateList;
use model::{Drawing, Fault, Kind, Outline, Round, State};
use samples::{Moment, has_sets, opens_just};
use std::process::Abort;

/// Every fault of a gate list has number 18 and layer 0.
pub fn check_fault(rt: &impl Abort, bytes: &[u8], place: Option<u16>) {
    let fault = place.map(|place| Fault::own(18, place));
    assert_eq!(rt; GateList::open(bytes).fault(), fault, "{bytes:?}");
}

/// The names of a drawing by their kinds.
#[derive(Clone, Copy)]
pub struct Variables<'a> {
    pub external: &'a [u8],
    pub interface: &'a [u8],
    pub private: &'a [u8],
}

// Are these the variables of the list, and each of top 1?
fn has_just(list: &GateList, variables: Variables) -> bool {
    (0..=255u8).all(|name| {
        let kind = list.kind(name);
        variables.external.contains(&name) == (kind == Some(Kind::External))
            && variables.interface.contains(&name) == (kind == Some(Kind::Interface))
            && variables.private.contains(&name) == (kind == Some(Kind::Private))
            && list.top(name) == u8::from(kind.is_some())
    })
}

/// The names that an atom controls, reads and awaits, and the number of its choices in an initialization and in an update.
#[derive(Clone, Copy)]
pub struct AtomOutline<'a>(pub [&'a [u8]; 3], pub [u8; 2]);

fn has_atom(list: &GateList, atom: u8, expected: AtomOutline) -> bool {
    let AtomOutline([controlled, read, awaited], [initial, update]) = expected;
    has_sets(list, atom, controlled, read, awaited)
        && list.choices(Round::Initial, atom) == initial
        && list.choices(Round::Update, atom) == update
}

// Has the atom no names and no choices, and is nothing of it open or given?
fn is_absent(list: &GateList, atom: u8) -> bool {
    let nothing = AtomOutline([&[], &[], &[]], [0, 0]);
    has_atom(list, atom, nothing)
        && opens_always(list, atom, [1; 32], &[])
        && gives_always(list, atom, 0, [0, 0, 0])
}

const ROUNDS: [Round; 2] = [Round::Initial, Round::Update];

/// The same in both rounds, whatever the old values.
pub fn opens_always(list: &GateList, atom: u8, new: State, open: &[u8]) -> bool {
    [[0; 32], [1; 32], [2; 32]].iter().all(|old| {
        ROUNDS.iter().all(|round| opens_just(list, atom, Moment(*round, *old, new), open))
    })
}

/// Do the atom's choices 0, 1 and 2 give these numbers to this name, and is everything else 0?
pub fn gives_just(
    list: &GateList,
    round: Round,
    atom: u8,
    name: u8,
    old: State,
    given: [i16; 3],
) -> bool {
    (0..=255u8).all(|choice| {
        let number = given.get(choice as usize).copied().unwrap_or(0);
        (0..=255u8).all(|other| {
            let expected = if other == name { number } else { 0 };
            list.gives(round, atom, choice, other, old, [0; 32]) == expected
                && list.gives(round, atom, choice, other, old, [1; 32]) == expected
        })
    })
}

/// The same in both rounds, whatever the old values.
pub fn gives_always(list: &GateList, atom: u8, name: u8, given: [i16; 3]) -> bool {
    [[0; 32], [1; 32]].iter().all(|old| {
        ROUNDS
            .iter()
            .all(|round| gives_just(list, *round, atom, name, *old, given))
    })
}

/// Are these the variables and the atoms of the list?
pub fn has_outline(list: &GateList, variables: Variables, atoms: &[(u8, AtomOutline)]) -> bool {
    list.layers() == 1
        && list.atoms() as usize == atoms.len()
        && has_just(list, variables)
        && atoms
            .iter()
            .all(|(atom, expected)| has_atom(list, *atom, *expected))
        && [list.atoms(), 16, 17, 200, 255]
            .iter()
            .all(|absent| is_absent(list, *absent))
}
