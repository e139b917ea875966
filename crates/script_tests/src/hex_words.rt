//! Byte strings at the edges of what a hex digit is.
use script::{Mistake, bytes_of_hex};
use std::test::Fail;

#[test]
fn digits_of_both_cases(rt: HostRuntime) -> Result<(), Fail> {
    let heap = rt.alloc();
    let bytes = bytes_of_hex(heap, "09aAfFf0")?;
    assert!(rt; bytes.as_slice() == [0x09, 0xaa, 0xff, 0xf0].as_slice());
    assert!(rt; bytes_of_hex(heap, "")?.is_empty());
    Ok(())
}

// Texts that no hex digits spell, each with the mistake.
const NOT_HEX: [(&str, Mistake); 11] = [
    ("/0", Mistake::BadHex),
    ("0:", Mistake::BadHex),
    ("@0", Mistake::BadHex),
    ("0G", Mistake::BadHex),
    ("`0", Mistake::BadHex),
    ("0g", Mistake::BadHex),
    ("é", Mistake::BadHex),
    ("0x", Mistake::BadHex),
    ("0", Mistake::OddHex),
    ("xyz", Mistake::OddHex),
    ("000", Mistake::OddHex),
];

#[test]
fn texts_that_are_not_hex(rt: HostRuntime) {
    for (text, why) in NOT_HEX {
        assert!(rt; bytes_of_hex(rt.alloc(), text).err() == Some(why), "{text}");
    }
}
