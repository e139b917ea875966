//! Tables as long as they may be, and faults at the last places that they can have.
use crate::tables::building::{LastGuard, long_table};
use crate::tables::questions::check_fault;
use model::Fault;
use std::test::Fail;

// The table with this byte at a place, if it has that place.
fn change(bytes: &mut [u8], place: usize, byte: u8) {
    if let Some(changed) = bytes.get_mut(place) {
        *changed = byte;
    }
}

const WHOLE: LastGuard = LastGuard {
    size: 31,
    negations: 2,
    halvings: 3,
};

const ONE_SHORTER: LastGuard = LastGuard {
    size: 30,
    negations: 1,
    halvings: 3,
};

const THIRTEEN_SHORTER: LastGuard = LastGuard {
    size: 18,
    negations: 1,
    halvings: 2,
};

#[test]
fn longest_table(rt: HostRuntime) -> Result<(), Fail> {
    let mut bytes = long_table(rt.alloc(), 2, WHOLE)?;
    assert_eq!(rt; bytes.len(), 4096);
    check_fault(&rt, bytes.as_slice(), None);
    // the last number needs a byte more than there is
    change(&mut bytes, 4094, 3);
    change(&mut bytes, 4095, 0);
    check_fault(&rt, bytes.as_slice(), Some(Fault::own(5, 4096)));
    // its length says 64, and only 62 bytes are there
    change(&mut bytes, 4033, 64);
    check_fault(&rt, bytes.as_slice(), Some(Fault::own(2, 4096)));
    bytes.push(0)?;
    check_fault(&rt, bytes.as_slice(), Some(Fault::own(1, 0)));
    Ok(())
}

#[test]
fn left_over_at_the_last_place(rt: HostRuntime) -> Result<(), Fail> {
    let mut bytes = long_table(rt.alloc(), 2, ONE_SHORTER)?;
    check_fault(&rt, bytes.as_slice(), None);
    bytes.push(0)?;
    check_fault(&rt, bytes.as_slice(), Some(Fault::own(6, 4095)));
    Ok(())
}

#[test]
fn wrong_count_at_the_last_place(rt: HostRuntime) -> Result<(), Fail> {
    let mut bytes = long_table(rt.alloc(), 3, THIRTEEN_SHORTER)?;
    bytes.extend_from_slice(&[0, 0, 0, 1, 0, 0, 0, 0, 0, 0, 0, 0, 9])?;
    check_fault(&rt, bytes.as_slice(), Some(Fault::own(4, 4095)));
    Ok(())
}

#[test]
fn last_variable(rt: HostRuntime) -> Result<(), Fail> {
    let mut bytes = Vec::new(rt.alloc());
    bytes.push(32)?;
    for name in 0..32u8 {
        bytes.extend_from_slice(&[name, 1, 1])?;
    }
    bytes.push(0)?;
    check_fault(&rt, bytes.as_slice(), None);
    change(&mut bytes, 96, 0);
    check_fault(&rt, bytes.as_slice(), Some(Fault::own(3, 96)));
    Ok(())
}
