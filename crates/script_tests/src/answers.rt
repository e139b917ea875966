//! What right lines about gate lists are answered.
use crate::running::{answer, check_answers, check_refused, new_session};
use script::{Command, Mistake, Session};
use std::test::Fail;

const NAND: &str = "gates d 01000102FF0002FF03FF";

// What it is called with may go to another thread, and be shared with one.
fn may_be_shared<T: Send + Sync>(_value: &T) {}

// A session among other values: a check has to find all three.
fn all_may_be_shared(session: &Session, mistake: &Mistake, command: &Command) {
    may_be_shared(session);
    may_be_shared(mistake);
    may_be_shared(command);
}

#[test]
fn a_session_may_be_shared(rt: HostRuntime) -> Result<(), Fail> {
    let session = new_session(rt.alloc());
    may_be_shared(&session);
    all_may_be_shared(&session, &Mistake::NotText, &Command::New);
    Ok(())
}

#[test]
fn blank_lines_and_comments(rt: HostRuntime) -> Result<(), Fail> {
    let heap = rt.alloc();
    let mut session = new_session(heap);
    for line in ["", " \t\r", "# new", "  #new", "#"] {
        assert!(rt; answer(heap, &mut session, line)?.is_empty(), "{line}");
    }
    Ok(())
}

#[test]
fn questions_about_gate_lists(rt: HostRuntime) -> Result<(), Fail> {
    let heap = rt.alloc();
    let mut session = new_session(heap);
    let lines = [
        (
            " gates\td  0100000005  ",
            "18 0 0 -- d is a faulty gate list: the bytes from 0 on break a rule of gate lists",
        ),
        (
            "outline d",
            "layers=1 vars=- atoms=- -- names: 0; atoms: 0\n  faulty: the bytes from 0 on break a rule of gate lists",
        ),
        (NAND, "0 0 0 -- d is a gate list without fault"),
        (
            "ask d init 0 1 @zeros @zeros",
            "open 0 -- atom 0, choice 1, gives name 2 := 0",
        ),
        (
            "ask d update 1 1 @zeros @zeros",
            "closed 0 -- atom 1, choice 1, would give name 3 := 0",
        ),
        (
            "ask d init 0 2 0=0 1=1,0=1",
            "open 1 -- atom 0, choice 2, gives name 2 := 1",
        ),
        (
            "ask d update 2 0 @zeros @zeros",
            "closed -- atom 2, choice 0, would give nothing",
        ),
        ("new", "new -- all that was made is forgotten"),
    ];
    check_answers(&rt, heap, &mut session, lines.as_slice())?;
    check_refused(
        &rt,
        heap,
        &mut session,
        &[("outline d", Mistake::UnknownName)],
    );
    Ok(())
}

const OUTLINE_OF_NAND: [&str; 7] = [
    "layers=1 vars=0:2:1,1:2:1,2:1:1,3:1:1 atoms=00000004/00000000/00000003/3/3,00000008/00000000/00000004/2/2 -- names: 4; atoms: 2",
    "  name 0: external, 0 to 1",
    "  name 1: external, 0 to 1",
    "  name 2: interface, 0 to 1",
    "  name 3: interface, 0 to 1",
    "  atom 0: controls 2; reads nothing; awaits 0, 1; 3 initial and 3 update choices",
    "  atom 1: controls 3; reads nothing; awaits 2; 2 initial and 2 update choices",
];

#[test]
fn an_outline(rt: HostRuntime) -> Result<(), Fail> {
    let heap = rt.alloc();
    let mut session = new_session(heap);
    let _ = answer(heap, &mut session, NAND)?;
    let outline = answer(heap, &mut session, "outline d\r")?;
    let mut lines = outline.as_str().lines();
    for line in OUTLINE_OF_NAND {
        assert_eq!(rt; lines.next(), Some(line));
    }
    assert_eq!(rt; lines.next(), None);
    Ok(())
}
