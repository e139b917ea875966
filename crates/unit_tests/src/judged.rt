//! Certificates and runs on the toggle and on a gate. The expected answers are worked out by hand from the rules.
use gates::GateList;
use samples::TOGGLE;
use table::Table;
use unit::Unit;
use units::Refusal;

// The state in which name 0 has this value.
fn one(value: u8) -> [u8; 32] {
    let mut bytes = [0; 32];
    bytes[0] = value;
    bytes
}

// Two and three such states.
fn two(first: u8, second: u8) -> [u8; 64] {
    let mut bytes = [0; 64];
    bytes[0] = first;
    bytes[32] = second;
    bytes
}

fn three(first: u8, second: u8, third: u8) -> [u8; 96] {
    let mut bytes = [0; 96];
    bytes[0] = first;
    bytes[32] = second;
    bytes[64] = third;
    bytes
}

// The toggle with the claim that name 0 stays below a bound.
fn toggle_below(bound: u8) -> Unit<Table> {
    let mut unit = Unit::seal(Table::open(&TOGGLE), 7);
    let _ = unit.claim(&[17, 1, 0, 0, bound]);
    unit
}

#[test]
fn certificates(rt: HostRuntime) {
    let mut unit = toggle_below(2);
    assert!(rt; unit.certify(0, &two(0, 1)) == (0, 0, 0, 3), "both states");
    assert!(rt; unit.certify(0, &two(1, 0)) == (0, 0, 0, 3), "in reverse");
    assert!(rt;
        unit.certify(0, &three(0, 0, 1)) == (0, 0, 0, 4),
        "one of them twice"
    );
    assert!(rt;
        unit.certify(0, &one(0)) == (27, 0, 0, 0),
        "a successor is missing"
    );
    assert!(rt;
        unit.certify(0, &one(1)) == (26, 0, 0, 0),
        "the initial state is missing"
    );
    assert!(rt;
        unit.certify(0, &two(0, 2)) == (24, 0, 1, 0),
        "out of range"
    );
    assert!(rt;
        unit.certify(1, &two(0, 1)) == (22, 0, 0, 0),
        "no such claim"
    );
    assert!(rt; unit.certify(0, &[]) == (23, 0, 0, 0), "no state");
    assert!(rt;
        unit.certify(0, &[0; 33]) == (23, 0, 0, 0),
        "no whole states"
    );
    assert!(rt;
        toggle_below(1).certify(0, &two(0, 1)) == (25, 0, 1, 0),
        "a false claim"
    );
}

#[test]
fn runs(rt: HostRuntime) {
    let mut unit = toggle_below(1);
    assert!(rt; unit.refute(0, &two(0, 1)) == Ok(2), "from 0 to 1");
    assert!(rt;
        unit.refute(0, &one(0)) == Err(Refusal::TrueInLast { index: 0 }),
        "the claim is true there"
    );
    assert!(rt;
        unit.refute(0, &two(0, 0)) == Err(Refusal::NotASuccessor { index: 1 }),
        "no toggle"
    );
    assert!(rt;
        unit.refute(0, &one(1)) == Err(Refusal::NotInitial),
        "from 1"
    );
}

#[test]
fn a_gate(rt: HostRuntime) {
    let mut unit = Unit::seal(GateList::open(&[1, 0, 1, 2, 255]), 7);
    let _ = unit.claim(&[21]);
    let mut bytes = [0; 128];
    bytes[33] = 1;
    bytes[64] = 1;
    bytes[96] = 1;
    bytes[97] = 1;
    bytes[98] = 1;
    assert!(rt; unit.certify(0, &bytes) == (0, 0, 0, 25), "all four states");
}
