//! Questions after what a drawing tells.
ghost use Rattle.model.specs.Sets.{has};
ghost use Rattle.model.specs.States.{value};
ghost use Rattle.model.specs.Tests.{Answers, every};
ghost use Rattle.samples.specs.Listed.{passes_just};
ghost use Rattle.std.specs.Prelude.{◌≡◌, ◌<◌, ◌&&◌, ℕ, Bool};

use model::{Drawing, Names, Outline, Round, State, all_below};

// Does the test pass at every number that fits a byte?
fn all_bytes<F: Fn(u8) -> bool>(test: F) -> bool
    requires { (k : ℕ) → k < 256 → F.pre test k }
    ensures { (p : ℕ → Bool) → Answers (F.post test) p 256 → result ≡ every p 256 }
{
    test(255) && all_below(255, test)
}

/// Does the set have these names and no others?
pub fn is_just(set: Names, names: &[u8]) -> bool
    ensures { result ≡ passes_just (has set) names.now }
{
    all_bytes(|name| set.has(name) == names.contains(&name))
}

/// Are these the names that the atom controls, reads and awaits?
pub fn has_sets<D: Outline>(
    drawing: &D,
    atom: u8,
    controlled: &[u8],
    read: &[u8],
    awaited: &[u8],
) -> bool
    ensures { result ≡ (passes_just ((D.Outline.outline drawing.now).controls atom) controlled.now && passes_just ((D.Outline.outline drawing.now).reads atom) read.now && passes_just ((D.Outline.outline drawing.now).awaits atom) awaited.now) }
{
    let controls = is_just(drawing.controls(atom), controlled);
    let reads = is_just(drawing.reads(atom), read);
    let awaits = is_just(drawing.awaits(atom), awaited);
    controls && reads && awaits
}

/// A round, and the old and the new values that a choice is asked at.
#[derive(Clone, Copy, Debug)]
pub struct Moment(pub Round, pub State, pub State);

/// Are these choices of the atom open, and no others?
pub fn opens_just<D: Drawing>(drawing: &D, atom: u8, moment: Moment, choices: &[u8]) -> bool
    ensures { result ≡ passes_just (λ c. (D.Drawing.meaning drawing.now).acts.opens moment.0 atom c (value moment.1) (value moment.2)) choices.now }
{
    let Moment(round, old, new) = moment;
    all_bytes(|choice| drawing.is_open(round, atom, choice, old, new) == choices.contains(&choice))
}
