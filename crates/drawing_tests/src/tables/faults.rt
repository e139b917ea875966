//! What opening a table finds wrong, and where.
use crate::tables::questions::check_fault;
use model::Fault;
use samples::TOGGLE;
use std::test::Fail;

#[test]
fn faults_in_the_first_bytes(rt: HostRuntime) {
    let cases: [(&[u8], Fault); 8] = [
        (&[], Fault::own(2, 0)),
        (&[33], Fault::own(3, 0)),
        (&[0, 17], Fault::own(4, 1)),
        (&[0, 16], Fault::own(2, 2)),
        (&[0, 0, 9], Fault::own(6, 2)),
        // judged before a later byte is missed
        (&[1, 32], Fault::own(3, 1)),
        (&[1, 0, 3], Fault::own(3, 2)),
        (&[1, 0, 0, 0], Fault::own(3, 3)),
    ];
    check_fault(&rt, &[0, 0], None);
    for (bytes, fault) in cases {
        check_fault(&rt, bytes, Some(fault));
    }
}

#[test]
fn toggle_cut_short(rt: HostRuntime) {
    for size in 0..32u8 {
        check_fault(
            &rt,
            &TOGGLE[..size as usize],
            Some(Fault::own(2, u16::from(size))),
        );
    }
    check_fault(&rt, &TOGGLE, None);
}

#[test]
fn toggle_with_more(rt: HostRuntime) -> Result<(), Fail> {
    for byte in [0, 1, 21, 255] {
        let mut longer = Vec::new(rt.alloc());
        longer.extend_from_slice(&TOGGLE)?;
        longer.push(byte)?;
        check_fault(&rt, longer.as_slice(), Some(Fault::own(6, 32)));
    }
    Ok(())
}

// What each byte of the toggle is changed to.
const CHANGES: [u8; 6] = [0, 1, 2, 3, 21, 65];

// The number and the place of the fault, both 0 for none, for each byte and each change. Pairs of numbers, since six faults would
// not stand on one line.
const FOUND: [[(u8, u16); 6]; 32] = [
    [(6, 2), (0, 0), (3, 6), (3, 6), (3, 6), (3, 0)],
    [(0, 0), (4, 5), (4, 5), (4, 5), (4, 5), (3, 1)],
    [(0, 0), (0, 0), (4, 5), (3, 2), (3, 2), (3, 2)],
    [(3, 3), (0, 0), (0, 0), (0, 0), (0, 0), (0, 0)],
    [(6, 5), (0, 0), (2, 32), (2, 32), (4, 4), (4, 4)],
    [(0, 0), (4, 5), (4, 5), (4, 5), (4, 5), (4, 5)],
    [(0, 0), (4, 5), (4, 5), (4, 5), (4, 5), (4, 5)],
    [(0, 0), (4, 5), (4, 5), (4, 5), (4, 5), (4, 5)],
    [(4, 5), (0, 0), (4, 5), (4, 5), (4, 5), (4, 5)],
    [(0, 0), (4, 9), (4, 9), (4, 9), (4, 9), (4, 9)],
    [(0, 0), (4, 9), (4, 9), (4, 9), (4, 9), (4, 9)],
    [(0, 0), (4, 9), (4, 9), (4, 9), (4, 9), (4, 9)],
    [(5, 31), (0, 0), (4, 9), (4, 9), (4, 9), (4, 9)],
    [(0, 0), (4, 13), (4, 13), (4, 13), (4, 13), (4, 13)],
    [(0, 0), (4, 13), (4, 13), (4, 13), (4, 13), (4, 13)],
    [(0, 0), (4, 13), (4, 13), (4, 13), (4, 13), (4, 13)],
    [(0, 0), (0, 0), (4, 13), (4, 13), (4, 13), (4, 13)],
    [(4, 17), (0, 0), (5, 31), (5, 31), (4, 17), (4, 17)],
    [(4, 18), (0, 0), (2, 32), (2, 32), (4, 18), (4, 18)],
    [(5, 19), (0, 0), (5, 21), (5, 21), (2, 32), (5, 19)],
    [(5, 20), (5, 20), (5, 20), (5, 20), (0, 0), (5, 20)],
    [(5, 21), (5, 23), (0, 0), (5, 24), (2, 32), (5, 21)],
    [(0, 0), (5, 23), (5, 23), (5, 24), (5, 22), (5, 22)],
    [(0, 0), (0, 0), (0, 0), (0, 0), (0, 0), (0, 0)],
    [(5, 24), (0, 0), (5, 26), (5, 26), (2, 32), (5, 24)],
    [(5, 25), (5, 25), (5, 25), (5, 25), (0, 0), (5, 25)],
    [(5, 26), (5, 28), (5, 29), (5, 30), (2, 32), (5, 26)],
    [(5, 29), (5, 29), (5, 28), (0, 0), (5, 27), (5, 27)],
    [(0, 0), (5, 29), (5, 29), (5, 30), (5, 28), (5, 28)],
    [(0, 0), (0, 0), (0, 0), (0, 0), (0, 0), (0, 0)],
    [(0, 0), (0, 0), (5, 31), (5, 32), (5, 30), (5, 30)],
    [(0, 0), (5, 31), (5, 31), (5, 31), (5, 31), (5, 31)],
];

#[test]
fn toggle_changed(rt: HostRuntime) {
    for (place, found) in FOUND.iter().enumerate() {
        for (change, (number, at)) in CHANGES.iter().zip(found) {
            let mut bytes = TOGGLE;
            if let Some(byte) = bytes.get_mut(place) {
                *byte = *change;
            }
            let fault = (*number != 0).then(|| Fault::own(*number, *at));
            check_fault(&rt, &bytes, fault);
        }
    }
}
