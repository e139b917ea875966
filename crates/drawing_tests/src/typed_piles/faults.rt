//! What is wrong with a pile, in which layer and at which name.
use crate::typed_piles::questions::*;
use crate::typed_piles::stub_outline::StubOutline;
use model::Fault;
use piles::{Hide, Join, Rename, join_fault};
use samples::{faulty, not};

#[test]
fn joins_that_clash(rt: HostRuntime) {
    assert!(rt;
        has_fault(&Join::new(not(0, 1), not(2, 1)), Fault::own(9, 1)),
        "interface in both"
    );
    assert!(rt;
        has_fault(&Join::new(fork(8, 5, 3), fork(9, 3, 5)), Fault::own(9, 3)),
        "the lowest name"
    );
    assert!(rt;
        has_fault(&Join::new(latch(0, 1, 2, 6), not(6, 3)), Fault::own(9, 6)),
        "private on the left"
    );
    assert!(rt;
        has_fault(&Join::new(not(6, 3), latch(0, 1, 2, 6)), Fault::own(9, 6)),
        "private on the right"
    );
    assert!(rt; is_sound(&Join::new(not(0, 1), not(1, 0)), 3, 2), "a ring");
}

#[test]
fn joins_with_two_tops(rt: HostRuntime) {
    let stub = StubOutline {
        fault: None,
        layers: 1,
        names: (4, 1),
        top: 2,
        atoms: 0,
    };
    assert!(rt;
        join_has_fault(&not(4, 1), &stub, Fault::own(10, 1)),
        "the lowest name"
    );
    assert!(rt;
        join_has_fault(&stub, &not(0, 4), Fault::own(10, 4)),
        "the one shared name"
    );
    assert!(rt; join_fault(&stub, &stub).is_none(), "one top");
}

// Each rule is looked at for all names before the next one.
#[test]
fn the_first_rule_of_a_join(rt: HostRuntime) {
    let uneven = StubOutline {
        fault: None,
        layers: 1,
        names: (6, 0),
        top: 2,
        atoms: 16,
    };
    assert!(rt;
        join_has_fault(&latch(0, 1, 2, 6), &uneven, Fault::own(9, 6)),
        "a clash above two tops"
    );
    assert!(rt;
        join_has_fault(&not(6, 0), &uneven, Fault::own(10, 0)),
        "two tops and too many atoms"
    );
    assert!(rt;
        join_has_fault(&not(2, 3), &uneven, Fault::own(11, 0)),
        "too many atoms alone"
    );
}

#[test]
fn joins_with_too_many_atoms(rt: HostRuntime) {
    assert!(rt;
        is_sound(&Join::new(fifteen(), not(31, 15)), 3, 16),
        "sixteen atoms"
    );
    assert!(rt;
        has_fault(&Join::new(fifteen(), fork(31, 15, 16)), Fault::own(11, 0)),
        "seventeen atoms"
    );
}

#[test]
fn renames(rt: HostRuntime) {
    assert!(rt;
        has_fault(&Rename::new(not(0, 1), 1, 1), Fault::own(7, 1)),
        "to itself"
    );
    assert!(rt;
        has_fault(&Rename::new(not(0, 1), 1, 0), Fault::own(7, 1)),
        "to a name that is there"
    );
    assert!(rt;
        has_fault(&Rename::new(not(0, 1), 1, 32), Fault::own(7, 1)),
        "to no name"
    );
    assert!(rt;
        has_fault(&Rename::new(not(0, 1), 200, 2), Fault::own(7, 200)),
        "of no name"
    );
    assert!(rt;
        is_sound(&Rename::new(not(0, 1), 1, 31), 2, 1),
        "to the last name"
    );
}

#[test]
fn hides(rt: HostRuntime) {
    assert!(rt;
        has_fault(&Hide::new(not(0, 1), 0), Fault::own(8, 0)),
        "an external name"
    );
    assert!(rt;
        has_fault(&Hide::new(not(0, 1), 200), Fault::own(8, 200)),
        "no name"
    );
    assert!(rt;
        has_fault(&Hide::new(Hide::new(not(0, 1), 1), 1), Fault::own(8, 1)),
        "a private name"
    );
    assert!(rt;
        is_sound(&Hide::new(not(0, 1), 1), 2, 1),
        "an interface name"
    );
}

#[test]
fn layers_below(rt: HostRuntime) {
    let twice = Rename::new(Rename::new(faulty(), 0, 0), 1, 1);
    assert!(rt;
        has_fault(
            &twice,
            Fault {
                number: 18,
                layer: 2,
                place: 5
            }
        ),
        "below two renames"
    );
    assert!(rt; is_empty(&twice), "no variables and no atoms");
    let left = Rename::new(not(0, 1), 0, 2);
    assert!(rt;
        has_fault(
            &Join::new(left, Hide::new(faulty(), 0)),
            Fault {
                number: 18,
                layer: 4,
                place: 5
            }
        ),
        "on the right"
    );
    let wrong = Hide::new(not(0, 1), 0);
    assert!(rt;
        has_fault(
            &Join::new(wrong, faulty()),
            Fault {
                number: 8,
                layer: 1,
                place: 0
            }
        ),
        "left before right"
    );
    assert!(rt;
        has_fault(
            &Join::new(not(0, 1), Hide::new(not(0, 1), 0)),
            Fault {
                number: 8,
                layer: 2,
                place: 0
            }
        ),
        "below before own"
    );
}

#[test]
fn layers_past_255(rt: HostRuntime) {
    let fault = Some(Fault {
        number: 18,
        layer: 200,
        place: 3,
    });
    let deep = StubOutline {
        fault: None,
        layers: 255,
        names: (0, 1),
        top: 1,
        atoms: 0,
    };
    let wrong = StubOutline { fault, ..deep };
    assert!(rt;
        join_has_fault(
            &wrong,
            &deep,
            Fault {
                number: 18,
                layer: 201,
                place: 3
            }
        ),
        "on the left"
    );
    assert!(rt;
        join_has_fault(
            &deep,
            &wrong,
            Fault {
                number: 18,
                layer: 255,
                place: 3
            }
        ),
        "on the right"
    );
}
