//! Right and wrong expressions, and where the first fault lies.
use crate::expressions::building::{nothing_seen, repeated};
use expression::{Seen, check_number, check_truth};
use model::Names;
use std::process::Abort;
use std::test::Fail;

// Old values of 0, 3 and 31, and new values of 1 and 3.
fn some_seen() -> Seen {
    Seen {
        old: Names::none().with(0).with(3).with(31),
        new: Names::none().with(1).with(3),
    }
}

fn is_number(rt: &impl Abort, bytes: &[u8], answer: Result<(), usize>) {
    assert_eq!(rt; check_number(bytes, &some_seen()), answer, "{bytes:?}");
}

fn is_truth(rt: &impl Abort, bytes: &[u8], answer: Result<(), usize>) {
    assert_eq!(rt; check_truth(bytes, &some_seen()), answer, "{bytes:?}");
}

#[test]
fn checks_of_numbers(rt: HostRuntime) {
    let cases: [(&[u8], Result<(), usize>); 36] = [
        (&[0, 0], Ok(())),
        (&[0, 255], Ok(())),
        (&[1, 0], Ok(())),
        (&[1, 31], Ok(())),
        (&[2, 1], Ok(())),
        (&[2, 3], Ok(())),
        (&[3, 0, 1, 0, 2], Ok(())),
        (&[4, 1, 3, 2, 3], Ok(())),
        (&[3, 4, 1, 0, 0, 5, 2, 1], Ok(())),
        (&[4, 0, 9, 3, 2, 1, 1, 31], Ok(())),
        // operands are missing
        (&[], Err(0)),
        (&[0], Err(1)),
        (&[1], Err(1)),
        (&[2], Err(1)),
        (&[3], Err(1)),
        (&[4], Err(1)),
        (&[3, 0], Err(2)),
        (&[3, 0, 5], Err(3)),
        (&[4, 0, 5, 1], Err(4)),
        (&[4, 3, 0, 1, 0, 2], Err(6)),
        // another byte, or a truth, where a number should begin
        (&[5, 0, 0], Err(0)),
        (&[21], Err(0)),
        (&[3, 5, 0, 0], Err(1)),
        (&[3, 21, 0, 0], Err(1)),
        (&[3, 0, 9, 17], Err(3)),
        (&[4, 3, 0, 1, 0, 2, 255], Err(6)),
        // names that are not seen, and numbers that are no names
        (&[1, 1], Err(1)),
        (&[2, 0], Err(1)),
        (&[1, 32], Err(1)),
        (&[2, 255], Err(1)),
        (&[3, 1, 0, 1, 1], Err(4)),
        // bytes are left over
        (&[0, 0, 0], Err(2)),
        (&[1, 0, 1, 1], Err(2)),
        (&[3, 0, 1, 0, 2, 0], Err(5)),
        // the first of two faults
        (&[3, 1, 1, 9], Err(2)),
        (&[4, 9, 1, 1], Err(1)),
    ];
    for (bytes, answer) in cases {
        is_number(&rt, bytes, answer);
    }
}

#[test]
fn checks_of_truths(rt: HostRuntime) {
    let cases: [(&[u8], Result<(), usize>); 33] = [
        (&[21], Ok(())),
        (&[16, 0, 1, 0, 1], Ok(())),
        (&[17, 1, 0, 2, 1], Ok(())),
        (&[18, 21], Ok(())),
        (&[19, 21, 21], Ok(())),
        (&[20, 21, 18, 21], Ok(())),
        (&[19, 16, 0, 1, 1, 3, 20, 21, 21], Ok(())),
        (&[18, 17, 3, 0, 1, 0, 2, 4, 2, 3, 1, 31], Ok(())),
        (&[20, 18, 18, 21, 17, 0, 0, 0, 255], Ok(())),
        // operands are missing
        (&[], Err(0)),
        (&[16], Err(1)),
        (&[16, 0], Err(2)),
        (&[16, 0, 1], Err(3)),
        (&[17, 0, 1, 0], Err(4)),
        (&[18], Err(1)),
        (&[19], Err(1)),
        (&[19, 21], Err(2)),
        (&[20, 18, 21], Err(3)),
        // another byte, or a number, where a truth should begin
        (&[0, 0], Err(0)),
        (&[22], Err(0)),
        (&[18, 0, 1], Err(1)),
        (&[19, 21, 3], Err(2)),
        (&[20, 0, 1, 21], Err(1)),
        // a truth where a number should begin
        (&[16, 21], Err(1)),
        (&[17, 0, 1, 16], Err(3)),
        // names that are not seen
        (&[16, 1, 1, 0, 0], Err(2)),
        (&[18, 17, 0, 1, 2, 0], Err(5)),
        (&[19, 21, 16, 0, 0, 2, 32], Err(6)),
        // bytes are left over
        (&[21, 21], Err(1)),
        (&[18, 21, 0], Err(2)),
        (&[16, 0, 1, 0, 1, 21], Err(5)),
        // the first of two faults
        (&[16, 2, 0, 21], Err(2)),
        (&[19, 5, 18], Err(1)),
    ];
    for (bytes, answer) in cases {
        is_truth(&rt, bytes, answer);
    }
}

#[test]
fn one_byte_alone(rt: HostRuntime) {
    for byte in 0..=255u8 {
        let number = if byte <= 4 { Err(1) } else { Err(0) };
        is_number(&rt, &[byte], number);
        let truth = match byte {
            21 => Ok(()),
            16..=20 => Err(1),
            _ => Err(0),
        };
        is_truth(&rt, &[byte], truth);
    }
}

#[test]
fn each_name(rt: HostRuntime) {
    for name in 0..=255u8 {
        let is_old = name == 0 || name == 3 || name == 31;
        is_number(&rt, &[1, name], if is_old { Ok(()) } else { Err(1) });
        let is_new = name == 1 || name == 3;
        is_number(&rt, &[2, name], if is_new { Ok(()) } else { Err(1) });
        is_number(&rt, &[0, name], Ok(()));
        assert_eq!(rt; check_number(&[1, name], &nothing_seen()), Err(1));
        assert_eq!(rt; check_number(&[2, name], &nothing_seen()), Err(1));
    }
}

// Some bytes so many times, then others so many times, and what a check of them all answers.
type Repeated<'a> = (&'a [u8], usize, &'a [u8], usize, Result<(), usize>);

#[test]
fn eight_levels(rt: HostRuntime) -> Result<(), Fail> {
    let truths: [Repeated; 7] = [
        (&[18], 7, &[21], 1, Ok(())),
        (&[18], 8, &[21], 1, Err(8)),
        (&[18], 8, &[], 0, Err(8)),
        (&[18], 6, &[16, 0, 1, 0, 1], 1, Ok(())),
        (&[18], 7, &[16, 0, 1, 0, 1], 1, Err(8)),
        (&[19, 21], 7, &[21], 1, Ok(())),
        (&[19, 21], 7, &[18, 21], 1, Err(15)),
    ];
    for (part, times, rest, more, answer) in truths {
        let bytes = repeated(rt.alloc(), &[(part, times), (rest, more)])?;
        is_truth(&rt, bytes.as_slice(), answer);
    }
    let numbers: [Repeated; 4] = [
        (&[3], 7, &[0, 1], 8, Ok(())),
        (&[3], 8, &[0, 1], 9, Err(8)),
        (&[4, 0, 1], 7, &[2, 3], 1, Ok(())),
        (&[4, 0, 1], 8, &[2, 3], 1, Err(22)),
    ];
    for (part, times, rest, more, answer) in numbers {
        let bytes = repeated(rt.alloc(), &[(part, times), (rest, more)])?;
        is_number(&rt, bytes.as_slice(), answer);
    }
    Ok(())
}
