//! What piles tell of names, atoms and choices.
use crate::typed_piles::questions::*;
use model::{Drawing, Kind, Outline, Round};
use piles::{Hide, Join, Rename};
use samples::{is_just, not};

#[test]
fn kinds_of_names(rt: HostRuntime) {
    let kinds = [
        Some(Kind::External),
        Some(Kind::Interface),
        Some(Kind::Interface),
        None,
    ];
    assert!(rt;
        has_kinds(&Join::new(not(0, 1), not(1, 2)), kinds),
        "awaited on the right"
    );
    assert!(rt;
        has_kinds(&Join::new(not(1, 2), not(0, 1)), kinds),
        "awaited on the left"
    );
    let hidden = [Some(Kind::External), Some(Kind::Private), None, None];
    assert!(rt; has_kinds(&Hide::new(not(0, 1), 1), hidden), "hidden");
    let renamed = [None, Some(Kind::Interface), None, Some(Kind::External)];
    assert!(rt;
        has_kinds(&Rename::new(not(0, 1), 0, 3), renamed),
        "renamed"
    );
}

#[test]
fn sets_of_atoms(rt: HostRuntime) {
    let pair = Join::new(not(0, 1), not(1, 2));
    assert!(rt;
        is_just(pair.controls(0), &[1]),
        "the left atom comes first"
    );
    assert!(rt;
        is_just(pair.controls(1), &[2]),
        "the right atom comes next"
    );
    assert!(rt;
        is_just(pair.awaits(1), &[1]),
        "the right atom awaits the left"
    );
    assert!(rt; is_just(pair.controls(2), &[]), "there is no third");
    let renamed = Rename::new(pair, 1, 7);
    assert!(rt;
        is_just(renamed.controls(0), &[7]),
        "controlled under the new name"
    );
    assert!(rt;
        is_just(renamed.awaits(1), &[7]),
        "awaited under the new name"
    );
}

#[test]
fn choices_through_renames(rt: HostRuntime) {
    let inner = Rename::new(not(0, 1), 0, 9);
    let outer = Rename::new(inner, 1, 0);
    let mut on = [0; 32];
    on[9] = 1;
    let mut off = [1; 32];
    off[9] = 0;
    assert!(rt; outer.choices(Round::Update, 0) == 2, "two choices");
    assert!(rt;
        outer.is_open(Round::Update, 0, 1, on, on),
        "the input is 1"
    );
    assert!(rt;
        !outer.is_open(Round::Update, 0, 1, on, off),
        "the input is 0"
    );
    assert!(rt;
        outer.gives(Round::Update, 0, 0, 0, on, off) == 1,
        "given to the new name"
    );
    assert!(rt;
        outer.gives(Round::Update, 0, 0, 1, on, off) == 0,
        "nothing to the old one"
    );
}

// Is there a NOT, then a latch that stores under name 4 and shows under name 6, and no more?
fn shows_stored_bit<D: Drawing>(drawing: &D) -> bool {
    let mut old = [0; 32];
    old[4] = 1;
    drawing.atoms() == 3
        && drawing.gives(Round::Update, 1, 0, 6, old, [0; 32]) == 1
        && drawing.is_open(Round::Update, 2, 2, old, [0; 32])
        && drawing.gives(Round::Update, 2, 2, 4, old, [0; 32]) == 1
        && drawing.choices(Round::Update, 3) == 0
}

#[test]
fn choices_of_the_right_part(rt: HostRuntime) {
    let part = Rename::new(latch(1, 2, 3, 4), 3, 6);
    let whole = Hide::new(Join::new(not(0, 1), part), 1);
    assert!(rt;
        shows_stored_bit(&whole),
        "a latch, renamed, joined to a NOT, with a name hidden"
    );
}
