//! Whether two drawings answer every question alike: at all names, atoms and choices, and a few more that are not there. The two are
//! handed on as the operands of a comparison, which a struct of both would only hide.
use model::{Drawing, Outline, Round, State};

pub fn alike<A: Drawing, B: Drawing>(a: &A, b: &B) -> bool {
    a.fault() == b.fault()
        && a.layers() == b.layers()
        && a.atoms() == b.atoms()
        && same_names(a, b)
        && same_atoms(a, b)
}

fn same_names<A: Outline, B: Outline>(a: &A, b: &B) -> bool {
    (0..=255u8).all(|name| a.kind(name) == b.kind(name) && a.top(name) == b.top(name))
}

fn same_atoms<A: Drawing, B: Drawing>(a: &A, b: &B) -> bool {
    (0..18u8).all(|atom| {
        same_sets(a, b, atom)
            && same_choices(a, b, Round::Initial, atom)
            && same_choices(a, b, Round::Update, atom)
    })
}

fn same_sets<A: Outline, B: Outline>(a: &A, b: &B, atom: u8) -> bool {
    a.controls(atom) == b.controls(atom)
        && a.reads(atom) == b.reads(atom)
        && a.awaits(atom) == b.awaits(atom)
}

fn same_choices<A: Drawing, B: Drawing>(a: &A, b: &B, round: Round, atom: u8) -> bool {
    a.choices(round, atom) == b.choices(round, atom)
        && (0..9u8).all(|choice| {
            same_choice(a, b, round, atom, choice, [0; 32])
                && same_choice(a, b, round, atom, choice, [1; 32])
        })
}

// Is the choice open in both or in neither where all new values are these, and does it give the same to every name?
fn same_choice<A: Drawing, B: Drawing>(
    a: &A,
    b: &B,
    round: Round,
    atom: u8,
    choice: u8,
    new: State,
) -> bool {
    let old = [0; 32];
    a.is_open(round, atom, choice, old, new) == b.is_open(round, atom, choice, old, new)
        && (0..33u8).all(|name| {
            a.gives(round, atom, choice, name, old, new)
                == b.gives(round, atom, choice, name, old, new)
        })
}
