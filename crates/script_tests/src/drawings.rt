//! Drawings that are opened, piled and sealed, line by line.
ghost use Rattle.std.specs.Prelude.{◌<◌};

use crate::running::{answer, check_answers, new_session};
use std::alloc::{AllocError, Global};
use std::test::Fail;

// A variable that an update gives its old value taken from 1.
const TOGGLE: &str = "table t 0100010101000000010000000100000000010101150200000115050400010100";

#[test]
fn tables_and_their_verdicts(rt: HostRuntime) -> Result<(), Fail> {
    let lines = [
        (TOGGLE, "0 0 0 -- t is a table without fault"),
        (
            "outline t",
            "layers=1 vars=0:1:1 atoms=00000001/00000001/00000000/1/1 -- names: 1; atoms: 1\n  name 0: interface, 0 to 1\n  atom 0: controls 0; reads 0; awaits nothing; 1 initial and 1 update choices\n    init 0: if true: name 0 := 0\n    update 0: if true: name 0 := 1 - old 0",
        ),
        (
            "ask t update 0 0 @zeros @zeros",
            "open 1 -- atom 0, choice 0, gives name 0 := 1",
        ),
        ("seal u t 4294967295", "0 0 0 -- unit u is fit"),
        ("verdict u", "0 0 0 -- unit u is fit"),
        (
            "table t 01000101010000000100000001000000000101011502000001150504000101",
            "2 0 31 -- t is a faulty table: a byte is missing at 31, where the bytes end",
        ),
        (
            "seal t t 1",
            "2 0 31 -- unit t is not fit: a byte is missing at 31, where the bytes end",
        ),
        (
            "table t 0100010101000000010000000100000000010101150200000115050400020100",
            "0 0 0 -- t is a table without fault",
        ),
        (
            "seal u t 1",
            "16 0 0 -- unit u is not fit: an open choice of atom 0 gives a value out of range in an update round at old 0 = 0",
        ),
    ];
    let heap = rt.alloc();
    check_answers(&rt, heap, &mut new_session(heap), lines.as_slice())?;
    Ok(())
}

#[test]
fn piles_and_their_verdicts(rt: HostRuntime) -> Result<(), Fail> {
    let lines = [
        (
            "gates a 0000FF01FF",
            "0 0 0 -- a is a gate list without fault",
        ),
        (
            "gates b 0001FF00FF",
            "0 0 0 -- b is a gate list without fault",
        ),
        ("join a a b", "0 0 0 -- a is a join without fault"),
        (
            "seal u a 0",
            "13 0 0 -- unit u is not fit: atom 0 awaits itself, directly or through others",
        ),
        (
            "gates a 0000FF01FF",
            "0 0 0 -- a is a gate list without fault",
        ),
        (
            "gates b 0002FF01FF",
            "0 0 0 -- b is a gate list without fault",
        ),
        (
            "join c a b",
            "9 0 1 -- c is a faulty join: name 1 is private in one part and there in the other, or interface in both",
        ),
        (
            "rename c c 0 3",
            "9 1 1 -- c is a faulty renamed drawing: in layer 1: name 1 is private in one part and there in the other, or interface in both",
        ),
        (TOGGLE, "0 0 0 -- t is a table without fault"),
        (
            "rename t t 0 31",
            "0 0 0 -- t is a renamed drawing without fault",
        ),
        (
            "hide t t 31",
            "0 0 0 -- t is a drawing with a hidden name without fault",
        ),
        (
            "outline t",
            "layers=3 vars=31:0:1 atoms=80000000/80000000/00000000/1/1 -- names: 1; atoms: 1\n  name 31: private, 0 to 1\n  atom 0: controls 31; reads 31; awaits nothing; 1 initial and 1 update choices\n    init 0: if true: name 31 := 0\n    update 0: if true: name 31 := 1 - old 31",
        ),
        (
            "hide t t 31",
            "8 0 31 -- t is a faulty drawing with a hidden name: name 31 cannot be hidden, since it is no interface name",
        ),
        (
            "seal t t 9",
            "8 0 31 -- unit t is not fit: name 31 cannot be hidden, since it is no interface name",
        ),
        (
            "outline t",
            "layers=4 vars=- atoms=- -- names: 0; atoms: 0\n  faulty: name 31 cannot be hidden, since it is no interface name",
        ),
    ];
    let heap = rt.alloc();
    check_answers(&rt, heap, &mut new_session(heap), lines.as_slice())?;
    Ok(())
}

// Parentheses stand where the reading would change or be in doubt.
#[test]
fn infix_notation(rt: HostRuntime) -> Result<(), Fail> {
    let heap = rt.alloc();
    let mut session = new_session(heap);
    let table =
        "table t 020001030202030100000001000000010000000401030115020000111314100100000010010000011101000202080401000401000202091213110100000312150803040100000100010C141315121001000202141515080300000301000000";
    let _ = answer(heap, &mut session, table)?;
    let outline = answer(heap, &mut session, "outline t")?;
    let mut lines = outline.as_str().lines().skip(4);
    for line in [
        "    init 0: if true: name 0 := 0",
        "    update 0: if (old 0 = 0 or old 0 = 1) and old 0 < new 2: name 0 := old 0 - (old 0 - new 2)",
        "    update 1: if not (old 0 < 3 and not true): name 0 := old 0 - 1 + 1",
        "    update 2: if (true and not (old 0 = new 2)) or true or true: name 0 := 0 + (old 0 + 0)",
    ] {
        assert_eq!(rt; lines.next(), Some(line));
    }
    assert_eq!(rt; lines.next(), None);
    Ok(())
}

// The table whose name k + 1 takes the new value of name k while name 0 is 1, and else is 0.
fn copying_table(heap: Global, k: u32) -> Result<String, AllocError>
    requires { k < 31 }
{
    let own = k + 1;
    let controls = 1u32 << own;
    let awaits = 1 + (1u32 << k);
    let choices = format!(in heap; "0510020000000200000510020000010202{k:02x}")?;
    let head = format!(in heap;
        "table p 03000201{k:02x}0201{own:02x}010101{controls:08x}00000000{awaits:08x}0202"
    )?;
    format!(in heap; "{head}{choices}{choices}")
}

// A chain of fourteen atoms that all await name 0, joined one after the other. This test and the next run like lines, which
// are what they test: a function over names, parts and answers would take as many lines to call.
#[test]
fn fourteen_tables_joined_one_after_the_other(rt: HostRuntime) -> Result<(), Fail> {
    let heap = rt.alloc();
    let mut session = new_session(heap);
    let _ = answer(heap, &mut session, "gates j -")?;
    for k in 1..15u32 {
        let opened = answer(heap, &mut session, copying_table(heap, k)?.as_str())?;
        assert_eq!(rt; opened.as_str(), "0 0 0 -- p is a table without fault");
        let joined = answer(heap, &mut session, "join j p j")?;
        assert_eq!(rt; joined.as_str(), "0 0 0 -- j is a join without fault");
    }
    let verdict = answer(heap, &mut session, "seal j j 14")?;
    assert_eq!(rt; verdict.as_str(), "0 0 0 -- unit j is fit");
    Ok(())
}

// Sixteen NOT gates of one external name, with outs 30 down to 15.
#[test]
fn sixteen_gate_lists_joined_one_after_the_other(rt: HostRuntime) -> Result<(), Fail> {
    let heap = rt.alloc();
    let mut session = new_session(heap);
    let _ = answer(heap, &mut session, "gates w -")?;
    for k in 0..16u32 {
        let opened = answer(
            heap,
            &mut session,
            format!(in heap; "gates p 001fff{:02x}ff", 30 - k)?.as_str(),
        )?;
        assert_eq!(rt; opened.as_str(), "0 0 0 -- p is a gate list without fault");
        let joined = answer(heap, &mut session, "join w w p")?;
        assert_eq!(rt; joined.as_str(), "0 0 0 -- w is a join without fault");
    }
    let verdict = answer(heap, &mut session, "seal w w 16")?;
    assert_eq!(rt; verdict.as_str(), "0 0 0 -- unit w is fit");
    Ok(())
}
