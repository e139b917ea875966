//! Claims on a unit. The expected answers are worked out by hand from the rules.
use model::Fault;
use samples::TOGGLE;
use table::Table;
use unit::Unit;
use units::Refusal;

// Less than two: a claim on the toggle's name 0.
const BELOW_TWO: [u8; 5] = [17, 1, 0, 0, 2];

// Of 64 bytes, in seven levels.
const LONG: [u8; 64] = [
    18, 19, 19, 19, 19, 19, 21, 21, 19, 21, 21, 19, 19, 21, 21, 19, 21, 21, 19, 19, 19, 21, 21, 19,
    21, 21, 19, 19, 21, 21, 19, 21, 21, 19, 19, 19, 19, 21, 21, 19, 21, 21, 19, 19, 21, 21, 19, 21,
    21, 19, 19, 19, 21, 21, 19, 21, 21, 19, 19, 21, 21, 19, 21, 21,
];

// The same denied, of 65 bytes, in eight levels.
const TOO_LONG: [u8; 65] = [
    18, 18, 19, 19, 19, 19, 19, 21, 21, 19, 21, 21, 19, 19, 21, 21, 19, 21, 21, 19, 19, 19, 21, 21,
    19, 21, 21, 19, 19, 21, 21, 19, 21, 21, 19, 19, 19, 19, 21, 21, 19, 21, 21, 19, 19, 21, 21, 19,
    21, 21, 19, 19, 19, 21, 21, 19, 21, 21, 19, 19, 21, 21, 19, 21, 21,
];

fn toggle() -> Unit<Table> {
    Unit::seal(Table::open(&TOGGLE), 7)
}

fn is_wrong(bytes: &[u8]) -> bool {
    toggle().claim(bytes) == Err(Refusal::WrongClaim)
}

#[test]
fn right_and_wrong_claims(rt: HostRuntime) {
    let mut unit = toggle();
    assert!(rt; unit.claim(&BELOW_TWO) == Ok(0), "the first");
    assert!(rt; unit.claim(&LONG) == Ok(1), "64 bytes");
    assert!(rt; is_wrong(&TOO_LONG), "65 bytes");
    assert!(rt; is_wrong(&[]), "no bytes");
    assert!(rt; is_wrong(&[21, 21]), "a byte left over");
    assert!(rt; is_wrong(&[17, 1, 1, 0, 2]), "no name of the module");
    assert!(rt; is_wrong(&[17, 2, 0, 0, 2]), "a new value");
    assert!(rt; is_wrong(&[0, 1]), "a number");
}

#[test]
fn eight_claims(rt: HostRuntime) {
    let mut unit = toggle();
    for number in 0..8 {
        assert!(rt; unit.claim(&[21]) == Ok(number), "one more");
    }
    assert!(rt;
        unit.claim(&[21]) == Err(Refusal::NoRoomForClaim),
        "a ninth"
    );
    assert!(rt;
        unit.claim(&[]) == Err(Refusal::NoRoomForClaim),
        "a wrong ninth"
    );
    assert!(rt; unit.refusal().is_none(), "the unit stays fit");
}

#[test]
fn an_unfit_unit(rt: HostRuntime) {
    let mut unit = Unit::seal(Table::open(&TOGGLE[..31]), 7);
    assert!(rt; unit.verdict() == (2, 0, 31), "cut off");
    assert!(rt;
        unit.claim(&[]) == Err(Refusal::FaultyDrawing(Fault::own(2, 31))),
        "with its verdict"
    );
}
