//! Questions that the tests ask of a table.
use model::{Drawing, Fault, Kind, Outline};
use samples::{Moment, has_sets, opens_just};
use std::process::Abort;
use table::Table;

/// Is this what is told of these bytes when they are opened?
pub fn check_fault(rt: &impl Abort, bytes: &[u8], fault: Option<Fault>) {
    assert_eq!(rt;
        Table::open(bytes).fault(),
        fault,
        "{} bytes: {bytes:?}",
        bytes.len()
    );
}

/// Are these the atom's sets, controlled, read and awaited?
pub fn check_sets(rt: &impl Abort, table: &Table, atom: u8, sets: [&[u8]; 3]) {
    let [controlled, read, awaited] = sets;
    assert!(rt;
        has_sets(table, atom, controlled, read, awaited),
        "the sets of atom {atom}"
    );
}

/// Is this the name's kind and top?
pub fn check_variable(rt: &impl Abort, table: &Table, name: u8, kind: Option<Kind>, top: u8) {
    assert_eq!(rt;
        (table.kind(name), table.top(name)),
        (kind, top),
        "name {name}"
    );
}

/// Are these choices of the atom open, and no others?
pub fn check_open(rt: &impl Abort, table: &Table, atom: u8, moment: Moment, open: &[u8]) {
    assert!(rt;
        opens_just(table, atom, moment, open),
        "{moment:?}: not {open:?} of atom {atom}"
    );
}

/// Does the choice of the only atom give these numbers to these names?
pub fn check_gives(
    rt: &impl Abort,
    table: &Table,
    choice: u8,
    moment: Moment,
    given: &[(u8, i16)],
) {
    let Moment(round, old, new) = moment;
    for (name, number) in given {
        assert_eq!(rt;
            table.gives(round, 0, choice, *name, old, new),
            *number,
            "choice {choice} of {round:?}, name {name}"
        );
    }
}
