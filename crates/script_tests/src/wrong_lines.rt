//! Lines that are refused, one of every sort.
use crate::running::{check_refused, mistake, new_session};
use script::Mistake;
use std::test::Fail;

// Refused where the drawing `a` and the unit `u` were made, and `c` is used up.
const WRONG_LINES: [(&str, Mistake); 38] = [
    ("frob", Mistake::UnknownCommand),
    ("New", Mistake::UnknownCommand),
    ("gates b", Mistake::MissingWord),
    ("ask a init 0 0 @zeros", Mistake::MissingWord),
    ("new now", Mistake::SuperfluousWord),
    ("outline a b", Mistake::SuperfluousWord),
    ("gates b 0", Mistake::OddHex),
    ("gates b 0g", Mistake::BadHex),
    ("gates b @nowhere", Mistake::Unreadable),
    ("outline b", Mistake::UnknownName),
    ("outline A", Mistake::UnknownName),
    ("ask a first 0 0 @zeros @zeros", Mistake::BadRound),
    ("ask a init 256 0 @zeros @zeros", Mistake::BadNumber),
    ("ask a init 0 +1 @zeros @zeros", Mistake::BadNumber),
    ("ask a init 0 0 - @zeros", Mistake::NotAState),
    ("ask a init 0 0 0=1;1=1 @zeros", Mistake::NotAState),
    ("ask a init 0 0 0=256 @zeros", Mistake::BadAssignment),
    ("ask a init 0 0 32=1 @zeros", Mistake::BadAssignment),
    ("ask a init 0 0 0=1, @zeros", Mistake::BadAssignment),
    ("ask a init 0 0 0=1,0=1 @zeros", Mistake::NameTwice),
    ("table b 0", Mistake::OddHex),
    ("join b a", Mistake::MissingWord),
    ("join b a a", Mistake::UsedTwice),
    ("join b a c", Mistake::UnknownName),
    ("join b c a", Mistake::UnknownName),
    ("join b a u", Mistake::NotADrawing),
    ("join b u a", Mistake::NotADrawing),
    ("rename b u 0 1", Mistake::NotADrawing),
    ("rename b a 0", Mistake::MissingWord),
    ("rename b a 0 256", Mistake::BadNumber),
    ("hide b c 1", Mistake::UnknownName),
    ("hide b a -1", Mistake::BadNumber),
    ("seal u u 7", Mistake::NotADrawing),
    ("seal v a 4294967296", Mistake::BadUnitNumber),
    ("seal v a", Mistake::MissingWord),
    ("verdict a", Mistake::NotAUnit),
    ("verdict c", Mistake::UnknownName),
    ("verdict", Mistake::MissingWord),
];

#[test]
fn every_sort_of_wrong_line(rt: HostRuntime) -> Result<(), Fail> {
    let heap = rt.alloc();
    let mut session = new_session(heap);
    for line in ["gates a 0000FF01FF", "gates c 0000FF02FF", "seal u c 7"] {
        assert_eq!(rt;
            mistake(heap, &mut session, line.as_bytes()),
            None,
            "{line}"
        );
    }
    check_refused(&rt, heap, &mut session, WRONG_LINES.as_slice());
    assert_eq!(rt;
        mistake(heap, &mut session, b"outline \xff"),
        Some(Mistake::NotText)
    );
    Ok(())
}

// What a name stood for it stands for still, after a line that would have replaced it.
#[test]
fn a_wrong_line_alters_nothing(rt: HostRuntime) -> Result<(), Fail> {
    let heap = rt.alloc();
    let mut session = new_session(heap);
    assert_eq!(rt; mistake(heap, &mut session, b"gates a -"), None);
    for line in ["gates a 0", "new a", "join a a b", "seal a a x"] {
        assert!(rt;
            mistake(heap, &mut session, line.as_bytes()).is_some(),
            "{line}"
        );
    }
    for line in ["outline a", "rename a a 0 1", "outline a"] {
        assert_eq!(rt;
            mistake(heap, &mut session, line.as_bytes()),
            None,
            "{line}"
        );
    }
    Ok(())
}
