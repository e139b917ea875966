//! Verdicts on byte tables, each at its edge.
ghost use Rattle.std.specs.Prelude.{◌≤◌};

use crate::parts::{is_fit, seals};
use model::{Fault, Round};
use sealing::{Witness, outside_at, stuck_at};
use table::Table;
use units::Refusal;

// So many external names of one top, and no atoms.
fn externals(count: u8, top: u8) -> Table
    requires { count ≤ 32 }
{
    let mut bytes = [0; 98];
    bytes[0] = count;
    for (name, variable) in (0..count).zip(bytes[1..].chunks_exact_mut(3)) {
        variable.copy_from_slice(&[name, 2, top]);
    }
    let size = 3 * count as usize + 2;
    Table::open(&bytes[..size])
}

// The toggle: one interface bit, 0 at first and then its opposite, here that many less its old value.
fn toggle(from: u8) -> Table {
    Table::open(&samples::toggle(from))
}

// An atom that controls name 0 and sees eight names of four values and, if the two bytes of its set say so, a ninth of two.
fn many_seen(high: u8, low: u8) -> Table {
    Table::open(&[
        10, 0, 1, 1, 1, 2, 3, 2, 2, 3, 3, 2, 3, 4, 2, 3, 5, 2, 3, 6, 2, 3, 7, 2, 3, 8, 2, 3, 9, 2,
        1, 1, 0, 0, 0, 1, 0, 0, 0, 0, 0, 0, high, low, 1, 1, 1, 21, 2, 0, 0, 1, 21, 2, 0, 0,
    ])
}

// Two atoms that control these two of the names 3 and 5, which are interface bits, and give them 0.
fn controlling(first: u8, second: u8) -> Table {
    Table::open(&[
        2, 3, 1, 1, 5, 1, 1, 2, 0, 0, 0, first, 0, 0, 0, 0, 0, 0, 0, 0, 1, 1, 1, 21, 2, 0, 0, 1,
        21, 2, 0, 0, 0, 0, 0, second, 0, 0, 0, 0, 0, 0, 0, 0, 1, 1, 1, 21, 2, 0, 0, 1, 21, 2, 0, 0,
    ])
}

// An interface bit that is 0 at first, and then 0 where its old value is this one.
fn open_only_at(old: u8) -> Table {
    Table::open(&[
        1, 0, 1, 1, 1, 0, 0, 0, 1, 0, 0, 0, 1, 0, 0, 0, 0, 1, 1, 1, 21, 2, 0, 0, 5, 16, 1, 0, 0,
        old, 2, 0, 0,
    ])
}

// An interface bit with two open choices, the later of which gives this.
fn later_gives(value: u8) -> Table {
    Table::open(&[
        1, 0, 1, 1, 1, 0, 0, 0, 1, 0, 0, 0, 0, 0, 0, 0, 0, 2, 1, 1, 21, 2, 0, 0, 1, 21, 2, 0,
        value, 1, 21, 2, 0, 0,
    ])
}

#[test]
fn limits_on_width_and_on_what_is_seen(rt: HostRuntime) {
    assert!(rt; is_fit(externals(20, 1)), "twenty external bits");
    assert!(rt;
        seals(externals(21, 1), Some(Refusal::TooWide), (17, 0, 0)),
        "twenty-one"
    );
    assert!(rt;
        seals(externals(32, 255), Some(Refusal::TooWide), (17, 0, 0)),
        "all names, all values"
    );
    assert!(rt; is_fit(many_seen(1, 254)), "65,536 values");
    assert!(rt;
        seals(
            many_seen(3, 254),
            Some(Refusal::SeesTooMuch { atom: 0 }),
            (14, 0, 0)
        ),
        "one name more"
    );
}

#[test]
fn verdicts_on_control_and_choices(rt: HostRuntime) {
    assert!(rt; is_fit(toggle(1)), "the toggle");
    assert!(rt;
        seals(
            toggle(2),
            Some(Refusal::LeavesRange { atom: 0 }),
            (16, 0, 0)
        ),
        "a value out of range"
    );
    assert!(rt; is_fit(controlling(8, 32)), "each once");
    assert!(rt;
        seals(
            controlling(8, 8),
            Some(Refusal::NotOneController { name: 3 }),
            (12, 0, 3)
        ),
        "one twice, one never"
    );
    assert!(rt;
        seals(
            controlling(32, 32),
            Some(Refusal::NotOneController { name: 3 }),
            (12, 0, 3)
        ),
        "the lowest name"
    );
    assert!(rt;
        seals(
            open_only_at(0),
            Some(Refusal::GetsStuck { atom: 0 }),
            (15, 0, 0)
        ),
        "no choice at 1"
    );
    assert!(rt; is_fit(later_gives(1)), "two open choices");
    assert!(rt;
        seals(
            later_gives(2),
            Some(Refusal::LeavesRange { atom: 0 }),
            (16, 0, 0)
        ),
        "the later one goes wrong"
    );
    assert!(rt;
        seals(
            Table::open(&[1, 0, 1, 1]),
            Some(Refusal::FaultyDrawing(Fault::own(2, 4))),
            (2, 0, 4)
        ),
        "a fault of its own"
    );
}

// Is this an update at this old value of name 0?
fn is_update_at(witness: Option<Witness>, old: u8) -> bool {
    witness.is_some_and(|witness| witness.round == Round::Update && witness.old[0] == old)
}

#[test]
fn values_at_which_an_atom_fails(rt: HostRuntime) {
    assert!(rt;
        is_update_at(outside_at(&toggle(2), 0), 0),
        "2 less 0 is out of range"
    );
    assert!(rt; stuck_at(&toggle(2), 0).is_none(), "never stuck");
    assert!(rt;
        is_update_at(stuck_at(&open_only_at(0), 0), 1),
        "closed at 1"
    );
    assert!(rt;
        is_update_at(stuck_at(&open_only_at(1), 0), 0),
        "closed at 0"
    );
    assert!(rt;
        stuck_at(&many_seen(3, 254), 0).is_none(),
        "too many to look at"
    );
}
