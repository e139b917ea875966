//! Verdicts on gate lists and piles of them.
use crate::parts::*;
use model::Fault;
use piles::{Hide, Join, Rename};
use samples::{faulty, not};
use units::Refusal;

#[test]
fn verdicts_on_gate_lists(rt: HostRuntime) {
    assert!(rt; is_fit(not(0, 1)), "a gate");
    assert!(rt;
        seals(
            faulty(),
            Some(Refusal::FaultyDrawing(Fault::own(18, 5))),
            (18, 0, 5)
        ),
        "a fault of its own"
    );
    assert!(rt;
        seals(
            Hide::new(Rename::new(faulty(), 0, 0), 1),
            Some(Refusal::FaultyDrawing(Fault {
                number: 18,
                layer: 2,
                place: 5
            })),
            (18, 2, 5)
        ),
        "in its layer"
    );
    assert!(rt;
        seals(
            Join::new(not(0, 1), not(1, 0)),
            Some(Refusal::AwaitsItself { atom: 0 }),
            (13, 0, 0)
        ),
        "two gates that await each other"
    );
    assert!(rt;
        seals(
            ring_and_a_gate_before_it(),
            Some(Refusal::AwaitsItself { atom: 1 }),
            (13, 0, 1)
        ),
        "the lowest atom on the ring"
    );
}

// Fourteen gates in a chain, each awaiting the next and the last one an external name, joined from two parts.
#[test]
fn fourteen_atoms_in_a_row(rt: HostRuntime) {
    assert!(rt;
        is_fit(Join::new(chain(0, false), chain(7, true))),
        "no ring"
    );
}

// Sixteen gates of one external name, each with an out of its own, joined from two parts.
#[test]
fn sixteen_atoms_of_one_name(rt: HostRuntime) {
    assert!(rt;
        is_fit(Join::new(eight_of_one_name(0), eight_of_one_name(17))),
        "one external name"
    );
}
