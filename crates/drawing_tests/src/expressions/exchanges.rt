//! The exchange of two names.
use expression::rename;
use std::test::Fail;

#[test]
fn names_are_exchanged(rt: HostRuntime) -> Result<(), Fail> {
    let cases: [(&[u8], u8, u8, &[u8]); 17] = [
        (&[1, 5], 5, 6, &[1, 6]),
        (&[2, 6], 5, 6, &[2, 5]),
        (&[1, 7], 5, 6, &[1, 7]),
        (&[3, 1, 5, 2, 6], 5, 6, &[3, 1, 6, 2, 5]),
        (&[1, 200], 200, 3, &[1, 3]),
        (&[1, 5], 5, 5, &[1, 5]),
        // constants stay, and so does what follows them
        (&[0, 5], 5, 6, &[0, 5]),
        (&[3, 0, 5, 1, 5], 5, 6, &[3, 0, 5, 1, 6]),
        (&[3, 0, 1, 1, 5], 5, 6, &[3, 0, 1, 1, 6]),
        (&[3, 0, 2, 0, 6], 5, 6, &[3, 0, 2, 0, 6]),
        // operators stay
        (&[3, 1, 1, 2, 2], 1, 2, &[3, 1, 2, 2, 1]),
        (&[4, 1, 4, 0, 4], 4, 3, &[4, 1, 3, 0, 4]),
        (&[18, 16, 1, 18, 0, 16], 18, 16, &[18, 16, 1, 16, 0, 16]),
        (&[21], 21, 20, &[21]),
        // bytes that are no expression
        (&[], 5, 6, &[]),
        (&[1], 1, 2, &[1]),
        (&[7, 5, 1, 5, 5], 5, 6, &[7, 5, 1, 6, 5]),
    ];
    for (given, a, b, expected) in cases {
        let mut bytes = given.to_vec(rt.alloc())?;
        rename(bytes.as_mut_slice(), a, b);
        assert!(rt; bytes.as_slice() == expected, "{given:?} {a} {b}");
        rename(bytes.as_mut_slice(), a, b);
        assert!(rt; bytes.as_slice() == given, "{given:?} {a} {b} and back");
    }
    Ok(())
}
