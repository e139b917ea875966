//! Peterson's protocol: two processes that never are in their critical sections together. Each is a module of its own, written as a byte
//! table; joined, their flags hidden, and sealed, they are a fit unit.
//!
//! Names 0 and 1 are the first process's counter (0 outside, 1 requesting, 2 inside) and its flag, names 2 and 3 those of the second. In
//! a round a process goes on or sleeps, by the old values alone. It requests by setting its flag, the first to the other's flag, the
//! second to the other's flag negated. It enters where the other is outside; else the first where the flags differ, the second where
//! they agree.
use crate::parts::is_fit;
use model::{Drawing, Fault, Kind, Outline, Round, State, value_of};
use piles::{Hide, Join};
use samples::{Moment, has_sets, opens_just};
use std::test::Fail;
use table::Table;
use unit::Unit;

// 4, 0 1 2, 1 1 1, 2 2 2, 3 2 1        four variables: 0 and 1 interface, 2 and 3 external; counters have top 2, flags top 1
// 1, 0 0 0 3, 0 0 0 15, 0 0 0 0, 2, 4  one atom: controls 0 and 1, reads 0 to 3, awaits nothing; 2 initial and 4 update choices
// 1 21, 2 0 0, 2 0 0                   at first, choice 0: outside, flag 0
// 1 21, 2 0 0, 2 0 1                   choice 1: outside, flag 1
// 5 16 1 0 0 0, 2 0 1, 2 1 3           update, choice 0: outside, requests and takes over the other's flag
// 18 19 16 1 0 0 1 20 16 1 2 0 0 18 16 1 1 1 3, 2 0 2, 2 1 1
//                                      choice 1: requesting, and the other is outside or the flags are not equal: enters
// 5 16 1 0 0 2, 2 0 0, 2 1 1           choice 2: inside, leaves
// 1 21, 2 1 0, 2 1 1                   choice 3: sleeps
const FIRST: [u8; 101] = [
    4, 0, 1, 2, 1, 1, 1, 2, 2, 2, 3, 2, 1, 1, 0, 0, 0, 3, 0, 0, 0, 15, 0, 0, 0, 0, 2, 4, 1, 21, 2,
    0, 0, 2, 0, 0, 1, 21, 2, 0, 0, 2, 0, 1, 5, 16, 1, 0, 0, 0, 2, 0, 1, 2, 1, 3, 18, 19, 16, 1, 0,
    0, 1, 20, 16, 1, 2, 0, 0, 18, 16, 1, 1, 1, 3, 2, 0, 2, 2, 1, 1, 5, 16, 1, 0, 0, 2, 2, 0, 0, 2,
    1, 1, 1, 21, 2, 1, 0, 2, 1, 1,
];

// The same with the parts exchanged, but for two choices of an update:
// 5 16 1 2 0 0, 2 0 1, 5 4 0 1 1 1     choice 0: outside, requests and takes 1 less the other's flag
// 17 19 16 1 2 0 1 20 16 1 0 0 0 16 1 1 1 3, 2 0 2, 2 1 3
//                                      choice 1: requesting, and the other is outside or the flags are equal: enters
const SECOND: [u8; 103] = [
    4, 0, 2, 2, 1, 2, 1, 2, 1, 2, 3, 1, 1, 1, 0, 0, 0, 12, 0, 0, 0, 15, 0, 0, 0, 0, 2, 4, 1, 21, 2,
    0, 0, 2, 0, 0, 1, 21, 2, 0, 0, 2, 0, 1, 5, 16, 1, 2, 0, 0, 2, 0, 1, 5, 4, 0, 1, 1, 1, 17, 19,
    16, 1, 2, 0, 1, 20, 16, 1, 0, 0, 0, 16, 1, 1, 1, 3, 2, 0, 2, 2, 1, 3, 5, 16, 1, 2, 0, 2, 2, 0,
    0, 2, 1, 3, 1, 21, 2, 1, 2, 2, 1, 3,
];

fn first() -> Table {
    Table::open(&FIRST)
}

fn second() -> Table {
    Table::open(&SECOND)
}

// The two side by side, their flags hidden.
fn protocol() -> Hide<Hide<Join<Table, Table>>> {
    Hide::new(Hide::new(Join::new(first(), second()), 1), 3)
}

fn at(first: u8, flag: u8, second: u8, other_flag: u8) -> State {
    let mut state = [0; 32];
    state[0] = first;
    state[1] = flag;
    state[2] = second;
    state[3] = other_flag;
    state
}

// Has the drawing these kinds of names 0 to 3, counters of top 2 and flags of top 1?
fn has_variables<D: Outline>(drawing: &D, kinds: [Kind; 4]) -> bool {
    (0..4u8).zip(kinds).all(|(name, kind)| {
        drawing.kind(name) == Some(kind) && drawing.top(name) == 2 - name % 2
    })
}

// Does the atom read all four names and await none, and has it choices to begin and to go on?
fn is_process<D: Drawing>(drawing: &D, atom: u8, controlled: &[u8]) -> bool {
    has_sets(drawing, atom, controlled, &[0, 1, 2, 3], &[])
        && drawing.choices(Round::Initial, atom) == 2
        && drawing.choices(Round::Update, atom) == 4
        && opens_just(
            drawing,
            atom,
            Moment(Round::Initial, [0; 32], [0; 32]),
            &[0, 1],
        )
}

#[test]
fn outlines_of_both_processes_and_of_the_protocol(rt: HostRuntime) {
    use Kind::{External, Interface, Private};
    let (first, second, protocol) = (first(), second(), protocol());
    assert!(rt; has_variables(&first, [Interface, Interface, External, External]));
    assert!(rt; has_variables(&second, [External, External, Interface, Interface]));
    assert!(rt; has_variables(&protocol, [Interface, Private, Interface, Private]));
    assert!(rt; first.atoms() == 1 && is_process(&first, 0, &[0, 1]));
    assert!(rt; second.atoms() == 1 && is_process(&second, 0, &[2, 3]));
    assert!(rt; protocol.atoms() == 2 && protocol.layers() == 5);
    assert!(rt; is_process(&protocol, 0, &[0, 1]) && is_process(&protocol, 1, &[2, 3]));
    assert_eq!(rt;
        Table::open(&FIRST[..100]).fault(),
        Some(Fault::own(2, 100))
    );
}

// By old state: the open update choices of the first process and of the second, by themselves and in the protocol.
#[test]
fn open_choices(rt: HostRuntime) {
    let (first, second, protocol) = (first(), second(), protocol());
    let cases: [(State, &[u8], &[u8]); 7] = [
        (at(0, 0, 0, 0), &[0, 3], &[0, 3]),
        (at(1, 0, 0, 0), &[1, 3], &[0, 3]),
        (at(1, 0, 1, 0), &[3], &[1, 3]),
        (at(1, 1, 1, 0), &[1, 3], &[3]),
        (at(2, 1, 1, 0), &[2, 3], &[3]),
        (at(1, 1, 2, 1), &[3], &[2, 3]),
        (at(0, 1, 1, 0), &[0, 3], &[1, 3]),
    ];
    for (old, open, other_open) in cases {
        let moment = Moment(Round::Update, old, [0; 32]);
        assert!(rt; opens_just(&first, 0, moment, open), "{moment:?}");
        assert!(rt; opens_just(&second, 0, moment, other_open), "{moment:?}");
        assert!(rt; opens_just(&protocol, 0, moment, open), "{moment:?}");
        assert!(rt; opens_just(&protocol, 1, moment, other_open), "{moment:?}");
    }
}

// By atom of the protocol, choice and old state: what an update gives to names 0 to 3.
#[test]
fn given_values(rt: HostRuntime) {
    let protocol = protocol();
    let cases: [(u8, u8, State, [i16; 4]); 7] = [
        // the first requests, enters, leaves and sleeps
        (0, 0, at(0, 0, 1, 1), [1, 1, 0, 0]),
        (0, 1, at(1, 1, 0, 0), [2, 1, 0, 0]),
        (0, 2, at(2, 1, 0, 0), [0, 1, 0, 0]),
        (0, 3, at(2, 1, 0, 0), [2, 1, 0, 0]),
        // the second requests, enters and sleeps
        (1, 0, at(1, 1, 0, 1), [0, 0, 1, 0]),
        (1, 1, at(1, 1, 1, 1), [0, 0, 2, 1]),
        (1, 3, at(1, 1, 2, 0), [0, 0, 2, 0]),
    ];
    for (atom, choice, old, given) in cases {
        for (name, number) in (0..4u8).zip(given) {
            assert_eq!(rt;
                protocol.gives(Round::Update, atom, choice, name, old, [0; 32]),
                number,
                "atom {atom}, choice {choice}, name {name}"
            );
        }
    }
    // the first may begin with its flag set
    for (name, number) in (0..4u8).zip([0, 1, 0, 0]) {
        assert_eq!(rt;
            first().gives(Round::Initial, 0, 1, name, [0; 32], [0; 32]),
            number,
            "name {name}"
        );
    }
}

#[test]
fn both_processes_and_the_protocol_are_fit(rt: HostRuntime) {
    assert!(rt; is_fit(first()), "the first process");
    assert!(rt; is_fit(second()), "the second process");
    assert!(rt; is_fit(Join::new(first(), second())), "joined");
    assert!(rt; is_fit(protocol()), "joined, flags hidden");
    assert!(rt;
        is_fit(Hide::new(Hide::new(protocol(), 0), 2)),
        "joined, all shared names hidden"
    );
}

// Not both counters are 2: as old values, since a claim sees one state.
const NEVER_BOTH: [u8; 12] = [18, 19, 16, 1, 0, 0, 2, 16, 1, 2, 0, 2];

// The protocol's 36 states, by number.
fn numbered(number: u8) -> State {
    at(number / 12 % 3, number / 6 % 2, number / 2 % 3, number % 2)
}

// Has each process a choice that is open at these values and gives the new ones?
fn leads<D: Drawing>(protocol: &D, round: Round, old: State, new: State) -> bool {
    (0..2u8).all(|atom| {
        (0..protocol.choices(round, atom)).any(|choice| {
            protocol.is_open(round, atom, choice, old, new)
                && gives_these(protocol, round, atom, choice, old, new)
        })
    })
}

fn gives_these<D: Drawing>(
    protocol: &D,
    round: Round,
    atom: u8,
    choice: u8,
    old: State,
    new: State,
) -> bool {
    (0..32u8).all(|name| {
        !protocol.controls(atom).has(name)
            || protocol.gives(round, atom, choice, name, old, new) == i16::from(value_of(new, name))
    })
}

// Which of the 36 states are reachable: each round but the last one adds a state.
fn reachable<D: Drawing>(protocol: &D) -> [bool; 36] {
    let mut reached = [false; 36];
    for (number, is_reached) in (0..36u8).zip(reached.iter_mut()) {
        *is_reached = leads(protocol, Round::Initial, [0; 32], numbered(number));
    }
    for _ in 0..36u8 {
        let before = reached;
        for (number, is_reached) in (0..36u8).zip(reached.iter_mut()) {
            let new = numbered(number);
            if !*is_reached {
                *is_reached = (0..36u8).zip(before).any(|(old, there)| there
                    && leads(protocol, Round::Update, numbered(old), new));
            }
        }
    }
    reached
}

#[test]
fn never_both_inside(rt: HostRuntime) {
    let reached = reachable(&protocol());
    assert_eq!(rt; reached.iter().filter(|there| **there).count(), 20);
    for (number, there) in (0..36u8).zip(reached) {
        let state = numbered(number);
        assert!(rt; !there || state[0] < 2 || state[2] < 2, "both are inside");
    }
    // either may be inside, while the other is outside or requests
    for inside in [
        at(2, 0, 0, 0),
        at(2, 1, 1, 0),
        at(0, 0, 2, 1),
        at(1, 1, 2, 1),
    ] {
        let found = (0..36u8)
            .zip(reached)
            .any(|(number, there)| there && numbered(number) == inside);
        assert!(rt; found, "one is inside");
    }
}

// The reachable states are a certificate. It counts the ways to begin, of which there are four, and those to go on from each.
#[test]
fn the_claim_that_never_both_are_inside_is_held(rt: HostRuntime) -> Result<(), Fail> {
    let mut states = Vec::new(rt.alloc());
    for (number, there) in (0..36u8).zip(reachable(&protocol())) {
        if there {
            states.extend_from_slice(&numbered(number))?;
        }
    }
    let mut unit = Unit::seal(protocol(), 1);
    assert!(rt;
        unit.claim(&NEVER_BOTH) == Ok(0),
        "it is a claim on the protocol"
    );
    assert_eq!(rt; unit.certify(0, states.as_slice()), (0, 0, 0, 68));
    assert_eq!(rt; unit.certify(1, states.as_slice()), (22, 0, 0, 0));
    Ok(())
}
