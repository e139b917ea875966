//! What the choices of a table do.
use crate::tables::building::{push_highest, push_longest_truth, push_lowest};
use crate::tables::questions::{check_fault, check_gives, check_open, check_sets, check_variable};
use model::{Drawing, Fault, Kind, Outline, Round};
use samples::{Moment, TOGGLE};
use std::test::Fail;
use table::Table;

#[test]
fn answers_of_the_toggle(rt: HostRuntime) {
    let table = Table::open(&TOGGLE);
    assert_eq!(rt; (table.layers(), table.atoms()), (1, 1));
    check_variable(&rt, &table, 0, Some(Kind::Interface), 1);
    for name in [1, 31, 32, 255] {
        check_variable(&rt, &table, name, None, 0);
    }
    check_sets(&rt, &table, 0, [&[0], &[0], &[]]);
    check_sets(&rt, &table, 1, [&[], &[], &[]]);
    check_sets(&rt, &table, 255, [&[], &[], &[]]);
    for round in [Round::Initial, Round::Update] {
        assert_eq!(rt; (table.choices(round, 0), table.choices(round, 1)), (1, 0));
        let moment = Moment(round, [1; 32], [0; 32]);
        check_open(&rt, &table, 0, moment, &[0]);
        check_open(&rt, &table, 1, moment, &[]);
    }
    check_gives(
        &rt,
        &table,
        0,
        Moment(Round::Initial, [1; 32], [1; 32]),
        &[(0, 0), (1, 0), (32, 0)],
    );
    check_gives(
        &rt,
        &table,
        0,
        Moment(Round::Update, [0; 32], [1; 32]),
        &[(0, 1), (1, 0), (255, 0)],
    );
    check_gives(
        &rt,
        &table,
        0,
        Moment(Round::Update, [3; 32], [1; 32]),
        &[(0, -2)],
    );
}

#[test]
fn written_forms_of_expressions(rt: HostRuntime) {
    let table = Table::open(&TOGGLE);
    let cases: [(&[u8], &[u8]); 8] = [
        (table.guard(Round::Initial, 0, 0), &[21]),
        (table.guard(Round::Update, 0, 0), &[21]),
        (table.guard(Round::Update, 0, 1), &[]),
        (table.guard(Round::Update, 1, 0), &[]),
        (table.number(Round::Initial, 0, 0, 0), &[0, 0]),
        (table.number(Round::Update, 0, 0, 0), &[4, 0, 1, 1, 0]),
        (table.number(Round::Update, 0, 0, 1), &[]),
        (table.number(Round::Update, 0, 1, 0), &[]),
    ];
    for (form, expected) in cases {
        assert_eq!(rt; form, expected);
    }
}

// An atom that reads and awaits one name: it sees old and new value of it in an update, and the new one alone at first.
#[test]
fn one_name_read_and_awaited(rt: HostRuntime) {
    let mut bytes = [
        2, 0, 1, 255, 1, 2, 3, 1, 0, 0, 0, 1, 0, 0, 0, 2, 0, 0, 0, 2, 1, 2, 5, 17, 0, 1, 2, 1, 2,
        2, 1, 6, 18, 16, 1, 1, 2, 1, 5, 3, 1, 1, 2, 1, 5, 16, 1, 1, 2, 1, 5, 4, 2, 1, 1, 1,
    ];
    let table = Table::open(&bytes);
    assert_eq!(rt; table.fault(), None);
    check_variable(&rt, &table, 1, Some(Kind::External), 3);
    check_sets(&rt, &table, 0, [&[0], &[1], &[1]]);
    check_open(
        &rt,
        &table,
        0,
        Moment(Round::Initial, [9; 32], [2; 32]),
        &[0],
    );
    check_open(
        &rt,
        &table,
        0,
        Moment(Round::Initial, [9; 32], [1; 32]),
        &[],
    );
    check_gives(
        &rt,
        &table,
        0,
        Moment(Round::Initial, [9; 32], [2; 32]),
        &[(0, 2)],
    );
    check_open(
        &rt,
        &table,
        0,
        Moment(Round::Update, [3; 32], [2; 32]),
        &[0],
    );
    check_gives(
        &rt,
        &table,
        0,
        Moment(Round::Update, [3; 32], [2; 32]),
        &[(0, 5), (1, 0)],
    );
    check_open(
        &rt,
        &table,
        0,
        Moment(Round::Update, [2; 32], [2; 32]),
        &[1],
    );
    // a closed choice gives what it would give
    check_gives(
        &rt,
        &table,
        1,
        Moment(Round::Update, [3; 32], [2; 32]),
        &[(0, -1)],
    );
    bytes[29] = 1;
    check_fault(&rt, &bytes, Some(Fault::own(5, 30)));
}

#[test]
fn deepest_and_longest_expressions(rt: HostRuntime) -> Result<(), Fail> {
    let mut bytes = Vec::new(rt.alloc());
    bytes.extend_from_slice(&[1, 0, 1, 255, 1, 0, 0, 0, 1, 0, 0, 0, 0, 0, 0, 0, 0, 1, 2])?;
    bytes.extend_from_slice(&[8, 18, 18, 18, 18, 18, 18, 18, 21, 2, 0, 0, 64])?;
    push_longest_truth(&mut bytes)?;
    bytes.push(62)?;
    push_highest(&mut bytes)?;
    bytes.extend_from_slice(&[1, 21, 62])?;
    push_lowest(&mut bytes)?;
    let table = Table::open(bytes.as_slice());
    assert_eq!(rt; table.fault(), None);
    check_open(
        &rt,
        &table,
        0,
        Moment(Round::Initial, [0; 32], [0; 32]),
        &[],
    );
    check_open(
        &rt,
        &table,
        0,
        Moment(Round::Update, [0; 32], [0; 32]),
        &[0, 1],
    );
    check_gives(
        &rt,
        &table,
        0,
        Moment(Round::Update, [0; 32], [0; 32]),
        &[(0, 5355)],
    );
    check_gives(
        &rt,
        &table,
        1,
        Moment(Round::Update, [0; 32], [0; 32]),
        &[(0, -5100)],
    );
    let ninth = [
        1, 0, 1, 255, 1, 0, 0, 0, 1, 0, 0, 0, 0, 0, 0, 0, 0, 1, 1, 9, 18, 18, 18, 18, 18, 18, 18,
        18, 21,
    ];
    check_fault(&rt, &ninth, Some(Fault::own(5, 28)));
    Ok(())
}
