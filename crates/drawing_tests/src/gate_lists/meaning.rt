//! What opened lists tell.
use crate::gate_lists::questions::{
    AtomOutline, Variables, gives_always, gives_just, has_outline, opens_always,
};
use gates::GateList;
use model::{Round, State};
use samples::{Moment, opens_just};

// 5 shows 0 OR 1: NOT 0 to 2, NOT 1 to 3, AND 2 and 3 to 4, NOT 4 to 5.
fn or_list() -> GateList {
    let records: [[u8; 5]; 4] = [
        [0, 0, 255, 2, 255],
        [0, 1, 255, 3, 255],
        [1, 2, 3, 4, 255],
        [0, 4, 255, 5, 255],
    ];
    GateList::open(records.as_flattened())
}

// A latch, set by 0 and reset by 1, that shows 2 and keeps 3; then NOT 2 to 31.
fn latch_list() -> GateList {
    GateList::open(&[2, 0, 1, 2, 3, 0, 2, 255, 31, 255])
}

// The state that gives names 0 to 5 these values, and 0 to the others.
fn state(values: [u8; 6]) -> State {
    let mut all = [0; 32];
    all[..6].copy_from_slice(&values);
    all
}

// Lists with nothing in them: the empty one, and faulty ones, whatever their records say.
#[test]
fn outlines_of_empty_and_faulty_lists(rt: HostRuntime) {
    let none = Variables {
        external: &[],
        interface: &[],
        private: &[],
    };
    let cases: [&[u8]; 5] = [
        &[],
        &[0, 0, 255, 1],
        &[0, 0, 255, 1, 255, 0],
        &[0, 0, 255, 1, 255, 0, 0, 255, 1, 255],
        &[2, 0, 1, 2, 3, 3, 0, 1, 4, 255],
    ];
    for bytes in cases {
        assert!(rt; has_outline(&GateList::open(bytes), none, &[]));
    }
}

#[test]
fn outlines_of_or_and_latch(rt: HostRuntime) {
    let of_or = Variables {
        external: &[0, 1],
        interface: &[2, 3, 4, 5],
        private: &[],
    };
    let atoms_of_or = [
        (0, AtomOutline([&[2], &[], &[0]], [2, 2])),
        (1, AtomOutline([&[3], &[], &[1]], [2, 2])),
        (2, AtomOutline([&[4], &[], &[2, 3]], [3, 3])),
        (3, AtomOutline([&[5], &[], &[4]], [2, 2])),
    ];
    assert!(rt; has_outline(&or_list(), of_or, &atoms_of_or));
    let of_latch = Variables {
        external: &[0, 1],
        interface: &[2, 31],
        private: &[3],
    };
    let atoms_of_latch = [
        (0, AtomOutline([&[2], &[3], &[]], [2, 1])),
        (1, AtomOutline([&[3], &[3], &[0, 1]], [3, 3])),
        (2, AtomOutline([&[31], &[], &[2]], [2, 2])),
    ];
    assert!(rt; has_outline(&latch_list(), of_latch, &atoms_of_latch));
}

// What the choices of NOT and AND see is the new values of their inputs, in both rounds.
#[test]
fn choices_of_or(rt: HostRuntime) {
    let list = or_list();
    let cases: [(u8, [u8; 6], &[u8]); 19] = [
        (0, [0, 0, 0, 0, 0, 0], &[0]),
        (0, [0, 1, 1, 1, 1, 1], &[0]),
        (0, [1, 0, 0, 0, 0, 0], &[1]),
        (0, [2, 0, 0, 0, 0, 0], &[]),
        (1, [1, 0, 1, 1, 1, 1], &[0]),
        (1, [0, 1, 0, 0, 0, 0], &[1]),
        (1, [0, 255, 0, 0, 0, 0], &[]),
        (2, [1, 1, 0, 0, 1, 1], &[0, 1]),
        (2, [1, 1, 0, 1, 1, 1], &[0]),
        (2, [1, 1, 1, 0, 1, 1], &[1]),
        (2, [0, 0, 1, 1, 0, 0], &[2]),
        (2, [0, 0, 2, 0, 0, 0], &[1]),
        (2, [0, 0, 0, 2, 0, 0], &[0]),
        (2, [0, 0, 2, 1, 0, 0], &[]),
        (2, [0, 0, 1, 2, 0, 0], &[]),
        (2, [0, 0, 2, 2, 0, 0], &[]),
        (3, [1, 1, 1, 1, 0, 1], &[0]),
        (3, [0, 0, 0, 0, 1, 0], &[1]),
        (3, [0, 0, 0, 0, 2, 0], &[]),
    ];
    for (atom, values, open) in cases {
        assert!(rt; opens_always(&list, atom, state(values), open));
    }
    // what they give is the same in every state: to the out of the gate, by choice
    for (atom, out, given) in [
        (0, 2, [1, 0, 0]),
        (1, 3, [1, 0, 0]),
        (2, 4, [0, 0, 1]),
        (3, 5, [1, 0, 0]),
    ] {
        assert!(rt; gives_always(&list, atom, out, given));
    }
}

#[test]
fn choices_of_latch(rt: HostRuntime) {
    let list = latch_list();
    // the store by the new values of 0 and 1
    let cases: [(u8, u8, &[u8]); 8] = [
        (0, 0, &[2]),
        (0, 1, &[1]),
        (1, 0, &[0]),
        (1, 1, &[0, 1]),
        (2, 0, &[]),
        (0, 2, &[]),
        (1, 2, &[0]),
        (2, 1, &[1]),
    ];
    for (set, reset, open) in cases {
        let new = state([set, reset, 1, 1, 0, 0]);
        assert!(rt; opens_always(&list, 1, new, open));
        assert!(rt; opens_just(&list, 0, Moment(Round::Initial, [1; 32], new), &[0, 1]));
        assert!(rt; opens_just(&list, 0, Moment(Round::Update, [1; 32], new), &[0]));
    }
    // what is given by the old value of 3, which only an update looks at
    let given = [
        (Round::Initial, 0, 2, 0, [0, 1, 0]),
        (Round::Initial, 0, 2, 1, [0, 1, 0]),
        (Round::Update, 0, 2, 0, [0, 0, 0]),
        (Round::Update, 0, 2, 1, [1, 0, 0]),
        (Round::Initial, 1, 3, 0, [1, 0, 0]),
        (Round::Initial, 1, 3, 1, [1, 0, 0]),
        (Round::Update, 1, 3, 0, [1, 0, 0]),
        (Round::Update, 1, 3, 1, [1, 0, 1]),
    ];
    for (round, atom, name, kept, numbers) in given {
        assert!(rt;
            gives_just(
                &list,
                round,
                atom,
                name,
                state([1, 1, 1, kept, 1, 1]),
                numbers,
            )
        );
    }
}
