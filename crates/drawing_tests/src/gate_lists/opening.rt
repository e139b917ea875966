//! What opening a list finds wrong, and where.
use crate::gate_lists::questions::check_fault;

// NOT 0 to 10, AND 0 and 1 to 11, a latch from 0 and 1 to 12 that keeps 13, AND 11 and 12 to 14, NOT 2 to 15.
// The records that replace one of these name only 3, 4, 20 and 21, where nothing else is said.
const FIVE: [[u8; 5]; 5] = [
    [0, 0, 255, 10, 255],
    [1, 0, 1, 11, 255],
    [2, 0, 1, 12, 13],
    [1, 11, 12, 14, 255],
    [0, 2, 255, 15, 255],
];

// NOT 31 to 0, to 1 and so on.
fn seventeen_nots() -> [[u8; 5]; 17] {
    let mut nots = [[0, 31, 255, 0, 255]; 17];
    for (out, record) in (0..17u8).zip(nots.iter_mut()) {
        record[3] = out;
    }
    nots
}

// Latches from 30 and 31 to 0 that keeps 10, to 1 that keeps 11 and so on.
fn nine_latches() -> [[u8; 5]; 9] {
    let mut latches = [[2, 30, 31, 0, 10]; 9];
    for ((out, own), record) in (0..9u8).zip(10..19u8).zip(latches.iter_mut()) {
        record[3] = out;
        record[4] = own;
    }
    latches
}

// The list with another record at this index.
fn with_record<const N: usize>(list: [[u8; 5]; N], index: usize, record: [u8; 5]) -> [[u8; 5]; N] {
    let mut changed = list;
    if index < N {
        changed[index] = record;
    }
    changed
}

// Rules that one record breaks by itself: in place of any of the five, the fault is at its first byte.
#[test]
fn records_that_are_wrong_alone(rt: HostRuntime) {
    let wrong = [
        // unknown kinds
        [3, 3, 255, 20, 255],
        [3, 3, 4, 20, 21],
        [4, 3, 4, 20, 255],
        [255, 3, 255, 20, 255],
        // names above 31
        [0, 32, 255, 20, 255],
        [0, 254, 255, 20, 255],
        [0, 255, 255, 20, 255],
        [0, 3, 255, 32, 255],
        [0, 3, 255, 254, 255],
        [0, 3, 255, 255, 255],
        [1, 32, 4, 20, 255],
        [1, 254, 4, 20, 255],
        [1, 255, 4, 20, 255],
        [1, 3, 32, 20, 255],
        [1, 3, 254, 20, 255],
        [1, 3, 255, 20, 255],
        [1, 3, 4, 32, 255],
        [1, 3, 4, 254, 255],
        [1, 3, 4, 255, 255],
        [2, 32, 4, 20, 21],
        [2, 254, 4, 20, 21],
        [2, 255, 4, 20, 21],
        [2, 3, 32, 20, 21],
        [2, 3, 254, 20, 21],
        [2, 3, 255, 20, 21],
        [2, 3, 4, 32, 21],
        [2, 3, 4, 254, 21],
        [2, 3, 4, 255, 21],
        [2, 3, 4, 20, 32],
        [2, 3, 4, 20, 254],
        [2, 3, 4, 20, 255],
        // unused fields that are not 255
        [0, 3, 0, 20, 255],
        [0, 3, 4, 20, 255],
        [0, 3, 254, 20, 255],
        [0, 3, 255, 20, 0],
        [0, 3, 255, 20, 21],
        [0, 3, 255, 20, 254],
        [1, 3, 4, 20, 0],
        [1, 3, 4, 20, 21],
        [1, 3, 4, 20, 254],
        // a latch that keeps its bit under its set, its reset or its out
        [2, 3, 4, 20, 3],
        [2, 3, 4, 20, 4],
        [2, 3, 4, 20, 20],
    ];
    for record in wrong {
        for index in 0..5 {
            let list = with_record(FIVE, index, record);
            check_fault(&rt, list.as_flattened(), Some(5 * index as u16));
        }
    }
}

#[test]
fn records_that_are_right(rt: HostRuntime) {
    let right = [
        [0, 3, 255, 20, 255],
        [0, 31, 255, 20, 255],
        [0, 3, 255, 31, 255],
        [1, 3, 4, 20, 255],
        [1, 3, 3, 20, 255],
        [1, 31, 31, 20, 255],
        [2, 3, 4, 20, 21],
        [2, 3, 3, 20, 21],
        [2, 3, 4, 20, 31],
        // an out that is an input of its own record, or of others
        [0, 20, 255, 20, 255],
        [1, 3, 20, 20, 255],
        [2, 20, 20, 20, 21],
        [0, 3, 255, 2, 255],
    ];
    check_fault(&rt, FIVE.as_flattened(), None);
    for record in right {
        for index in 0..5 {
            let list = with_record(FIVE, index, record);
            check_fault(&rt, list.as_flattened(), None);
        }
    }
}

// Wrong lengths, and rules that set records against each other.
#[test]
fn lengths_and_shared_names(rt: HostRuntime) {
    let cases: [(&[u8], Option<u16>); 41] = [
        (&[], None),
        (&[0], Some(0)),
        (&[0, 0], Some(0)),
        (&[0, 0, 255], Some(0)),
        (&[0, 0, 255, 1], Some(0)),
        (&[0, 0, 255, 1, 255], None),
        (&[0, 0, 255, 1, 255, 0], Some(0)),
        (&[0, 0, 255, 1, 255, 0, 1, 255, 2], Some(0)),
        (&[0, 0, 255, 1, 255, 0, 1, 255, 2, 255], None),
        // the length counts before wrong records: an unknown kind, a name above 31, a repeated out
        (&[0, 0, 255, 1, 255, 3, 1, 255, 2, 255, 0], Some(0)),
        (&[0, 0, 255, 1, 255, 0, 32, 255, 2], Some(0)),
        (&[0, 0, 255, 1, 255, 0, 1, 255, 1, 255, 0], Some(0)),
        // an out that an earlier record has as its out
        (&[0, 0, 255, 1, 255, 0, 2, 255, 1, 255], Some(5)),
        (
            &[0, 0, 255, 1, 255, 1, 2, 3, 1, 255, 0, 0, 255, 4, 255],
            Some(5),
        ),
        (
            &[0, 0, 255, 1, 255, 0, 0, 255, 2, 255, 1, 0, 0, 1, 255],
            Some(10),
        ),
        (
            &[0, 0, 255, 1, 255, 0, 0, 255, 2, 255, 0, 3, 255, 2, 255],
            Some(10),
        ),
        (&[0, 0, 255, 1, 255, 2, 0, 0, 1, 3], Some(5)),
        (&[2, 0, 0, 1, 3, 2, 0, 0, 1, 4], Some(5)),
        // an earlier a or b as out is no fault
        (
            &[1, 0, 1, 2, 255, 0, 3, 255, 0, 255, 0, 3, 255, 1, 255],
            None,
        ),
        // a latch's own that an earlier record has as a, b or out
        (&[0, 0, 255, 1, 255, 2, 2, 3, 4, 0], Some(5)),
        (&[1, 0, 5, 1, 255, 2, 2, 3, 4, 5], Some(5)),
        (&[0, 0, 255, 1, 255, 2, 2, 3, 4, 1], Some(5)),
        (
            &[1, 0, 5, 1, 255, 0, 6, 255, 7, 255, 2, 2, 3, 4, 0],
            Some(10),
        ),
        (
            &[1, 0, 5, 1, 255, 2, 2, 3, 4, 5, 0, 0, 255, 8, 255],
            Some(5),
        ),
        // two latches that keep one name: the first of them shares it with a later record
        (&[2, 0, 1, 2, 3, 2, 0, 1, 4, 3], Some(0)),
        (&[0, 0, 255, 5, 255, 2, 0, 1, 2, 3, 2, 0, 1, 4, 3], Some(5)),
        // a latch's own that a later record has as a, b, out
        (&[2, 0, 1, 2, 3, 0, 3, 255, 4, 255], Some(0)),
        (&[2, 0, 1, 2, 3, 1, 0, 3, 4, 255], Some(0)),
        (&[2, 0, 1, 2, 3, 0, 0, 255, 3, 255], Some(0)),
        (&[2, 0, 1, 2, 3, 2, 3, 1, 4, 5], Some(0)),
        (&[2, 0, 1, 2, 3, 2, 0, 3, 4, 5], Some(0)),
        (&[2, 0, 1, 2, 3, 2, 0, 1, 3, 5], Some(0)),
        (
            &[0, 5, 255, 6, 255, 2, 0, 1, 2, 3, 0, 3, 255, 4, 255],
            Some(5),
        ),
        // or as a field that the later record should not use, or in a record that is wrong otherwise
        (&[2, 0, 1, 2, 3, 0, 0, 3, 4, 255], Some(0)),
        (&[2, 0, 1, 2, 3, 1, 0, 1, 4, 3], Some(0)),
        (&[2, 0, 1, 2, 3, 9, 32, 32, 3, 32], Some(0)),
        // kinds are no names: the own 2 of the first latch, and the own 0 beside a NOT
        (&[2, 5, 6, 7, 2, 2, 5, 6, 8, 9], None),
        (&[2, 5, 6, 7, 0, 0, 5, 255, 8, 255], None),
        // of two faults the first record's counts
        (&[3, 0, 255, 1, 255, 0, 32, 255, 2, 255], Some(0)),
        (
            &[0, 0, 255, 1, 255, 0, 0, 255, 1, 255, 9, 0, 0, 0, 0],
            Some(5),
        ),
        (
            &[0, 0, 255, 1, 255, 0, 2, 7, 3, 255, 2, 4, 4, 5, 4],
            Some(5),
        ),
    ];
    for (bytes, place) in cases {
        check_fault(&rt, bytes, place);
    }
}

// A latch is two atoms, and sixteen are the most.
#[test]
fn at_most_sixteen_atoms(rt: HostRuntime) {
    let nots = seventeen_nots();
    let latches = nine_latches();
    let latch_at_14 = with_record(nots, 14, [2, 31, 31, 20, 21]);
    let latch_at_15 = with_record(nots, 15, [2, 31, 31, 20, 21]);
    let cases: [(&[[u8; 5]], Option<u16>); 9] = [
        (&nots[..15], None),
        (&nots[..16], None),
        (&nots, Some(80)),
        // 14 gates and a latch, then with a gate more
        (&latch_at_14[..15], None),
        (&latch_at_14[..16], Some(75)),
        // 15 gates and a latch
        (&latch_at_15[..16], Some(75)),
        (&latch_at_15, Some(75)),
        (&latches[..8], None),
        (&latches, Some(40)),
    ];
    for (records, place) in cases {
        check_fault(&rt, records.as_flattened(), place);
    }
}
