//! What expressions are worth.
use crate::expressions::building::{nothing_seen, repeated};
use expression::{check_number, number_value, truth_value};
use model::State;
use samples::push_sum;
use std::process::Abort;
use std::test::Fail;

// Before: 7 for name 0, and 200 for name 31.
fn before() -> State {
    let mut state = [0; 32];
    state[0] = 7;
    state[31] = 200;
    state
}

// After: 9 for name 0, and 255 for name 3.
fn after() -> State {
    let mut state = [0; 32];
    state[0] = 9;
    state[3] = 255;
    state
}

#[test]
fn values_of_numbers(rt: HostRuntime) {
    let cases: [(&[u8], i16); 16] = [
        (&[0, 0], 0),
        (&[0, 255], 255),
        (&[1, 0], 7),
        (&[2, 0], 9),
        (&[1, 31], 200),
        (&[2, 31], 0),
        (&[1, 3], 0),
        // no names
        (&[1, 32], 0),
        (&[3, 2, 255, 1, 31], 200),
        (&[2, 3], 255),
        (&[3, 1, 0, 2, 0], 16),
        (&[4, 1, 0, 2, 0], -2),
        (&[4, 2, 0, 1, 0], 2),
        (&[4, 0, 10, 4, 0, 3, 0, 1], 8),
        (&[4, 4, 0, 10, 0, 3, 0, 1], 6),
        (&[3, 2, 3, 3, 2, 3, 2, 3], 765),
    ];
    for (bytes, worth) in cases {
        assert_eq!(rt; number_value(bytes, before(), after()), worth, "{bytes:?}");
    }
}

#[test]
fn values_of_truths(rt: HostRuntime) {
    let cases: [(&[u8], bool); 22] = [
        (&[21], true),
        (&[18, 21], false),
        (&[18, 18, 21], true),
        (&[16, 0, 5, 0, 5], true),
        (&[16, 0, 5, 0, 6], false),
        (&[17, 0, 5, 0, 6], true),
        (&[17, 0, 5, 0, 5], false),
        (&[17, 0, 6, 0, 5], false),
        (&[17, 1, 0, 2, 0], true),
        (&[17, 2, 0, 1, 0], false),
        (&[16, 2, 0, 3, 1, 0, 0, 2], true),
        // below 0
        (&[17, 4, 0, 0, 0, 1, 0, 0], true),
        (&[16, 4, 0, 1, 0, 2, 4, 0, 3, 0, 4], true),
        (&[16, 4, 0, 0, 0, 1, 0, 1], false),
        (&[19, 21, 21], true),
        (&[19, 21, 18, 21], false),
        (&[19, 18, 21, 21], false),
        (&[19, 18, 21, 18, 21], false),
        (&[20, 21, 21], true),
        (&[20, 21, 18, 21], true),
        (&[20, 18, 21, 21], true),
        (&[20, 18, 21, 18, 21], false),
    ];
    for (bytes, holds) in cases {
        assert_eq!(rt; truth_value(bytes, before(), after()), holds, "{bytes:?}");
    }
}

#[test]
fn values_of_wrong_bytes(rt: HostRuntime) {
    let cases: [&[u8]; 9] = [
        &[],
        &[0],
        &[5, 7],
        &[0, 7, 0],
        &[3, 0, 7],
        &[18],
        &[21, 21],
        &[20, 21],
        &[18, 18, 18, 18, 18, 18, 18, 18, 21],
    ];
    for bytes in cases {
        assert_eq!(rt; number_value(bytes, before(), after()), 0, "{bytes:?}");
        assert_eq!(rt; truth_value(bytes, before(), after()), false, "{bytes:?}");
    }
}

fn is_worth(rt: &impl Abort, bytes: &[u8], worth: i16) {
    assert_eq!(rt; check_number(bytes, &nothing_seen()), Ok(()));
    assert_eq!(rt; number_value(bytes, before(), after()), worth);
}

// A number has 62 bytes or more than 64. In 62 bytes, the sum of 21 times 255, and of 20 times 255 taken from 0.
#[test]
fn highest_and_lowest_in_64_bytes(rt: HostRuntime) -> Result<(), Fail> {
    let mut highest = repeated(rt.alloc(), &[(&[3], 2)])?;
    push_sum(&mut highest, 4)?;
    push_sum(&mut highest, 2)?;
    push_sum(&mut highest, 0)?;
    assert_eq!(rt; highest.len(), 62);
    is_worth(&rt, highest.as_slice(), 5355);
    let mut lowest = repeated(rt.alloc(), &[(&[4, 0, 0, 3], 1)])?;
    push_sum(&mut lowest, 4)?;
    push_sum(&mut lowest, 2)?;
    assert_eq!(rt; lowest.len(), 62);
    is_worth(&rt, lowest.as_slice(), -5100);
    Ok(())
}

// The sum of 128 times 255, and of 127 times 255 taken from 0 in seven steps.
#[test]
fn highest_and_lowest_in_eight_levels(rt: HostRuntime) -> Result<(), Fail> {
    let mut highest = Vec::new(rt.alloc());
    push_sum(&mut highest, 7)?;
    is_worth(&rt, highest.as_slice(), 32640);
    let mut lowest = repeated(rt.alloc(), &[(&[4], 7), (&[0], 2)])?;
    for halvings in 0..7u8 {
        push_sum(&mut lowest, halvings)?;
    }
    is_worth(&rt, lowest.as_slice(), -32385);
    Ok(())
}
