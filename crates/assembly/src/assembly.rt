//! Piles over leaves of any one kind.
ghost use Rattle.assembly.specs.Meanings.{form_meaning, leaf_meanings, Rooted};
ghost use Rattle.assembly.specs.Plain.{choices_over, form_facts, outline_of};
ghost use Rattle.model.specs.Meanings.{OutlineLaws, ChoiceLaws};
ghost use Rattle.std.specs.Prelude.{length};

use crate::atom::FormAtom;
use crate::form::Form;
use model::{Drawing, Fault, Kind, Names, Outline, Round, State};
use std::alloc::{AllocError, Global};

/// A pile in normal form, and the leaves that its atoms come from. Leaves that no atom comes from stay until the pile is let go.
#[derive(Drop)]
pub struct Assembly<L: Drawing> {
    leaves: Vec<L>,
    form: Form,
    ghost outline_laws: { OutlineLaws (outline_of form) },
    ghost choice_laws: { ChoiceLaws (outline_of form) (choices_over L.Drawing.meaning leaves.items form) },
    ghost rooted: { Rooted (form_facts form) (length leaves.items) },
}

impl<L: Drawing + Drop> Assembly<L> {
    ghost use Rattle.assembly.specs.Atoms.{atom_facts};
    ghost use Rattle.assembly.specs.Meanings.{origin_from};
    ghost use Rattle.assembly.specs.Plain.{origin_over};
    ghost use Rattle.composition.specs.Meanings.{renamed, hidden, joined};
    ghost use Rattle.std.specs.Prelude.{◌≡◌, IfOk, option_map};

    /// The drawing by itself. Where memory is wanting it is let go.
    pub fn leaf(heap: Global, drawing: L) -> Result<Assembly<L>, AllocError>
        ensures { let meaning = ⟦<Assembly<L> as Drawing>⟧.meaning in IfOk result (λ d. meaning d ≡ L.meaning drawing) }
    {
        let form = Form::of_leaf(&drawing);
        let mut leaves = Vec::new(heap);
        leaves.push(drawing)?;
        Ok(Assembly { leaves, form })
    }

    /// The drawing with a new name for one of its variables.
    pub fn rename(self, old: u8, new: u8) -> Assembly<L>
        ensures { let meaning = ⟦<Assembly<L> as Drawing>⟧.meaning in meaning result ≡ renamed (meaning self) old new }
    {
        let form = self.form.renamed(old, new);
        Assembly {
            leaves: self.leaves,
            form,
        }
    }

    /// The drawing with one of its interface names made private.
    pub fn hide(self, name: u8) -> Assembly<L>
        ensures { let meaning = ⟦<Assembly<L> as Drawing>⟧.meaning in meaning result ≡ hidden (meaning self) name }
    {
        let form = self.form.hidden(name);
        Assembly {
            leaves: self.leaves,
            form,
        }
    }

    /// The two side by side. Atoms of the left one come first. Where memory is wanting both are let go.
    pub fn join(left: Assembly<L>, right: Assembly<L>) -> Result<Assembly<L>, AllocError>
        ensures { let m = ⟦<Assembly<L> as Drawing>⟧.meaning in IfOk result (λ d. m d ≡ joined (m left) (m right)) }
    {
        let form = left.form.joined(&right.form, left.leaves.len());
        let mut leaves = left.leaves;
        let mut more = right.leaves;
        leaves.append(&mut more)?;
        Ok(Assembly { leaves, form })
    }

    // An atom, with the leaf that it comes from.
    fn origin(&self, atom: u8) -> Option<(&L, FormAtom)>
        ensures { let found = option_map (λ p. origin_from (atom_facts p.1) (L.meaning p.0.now)) result in found ≡ origin_over L.meaning self.now.leaves.items self.now.form atom }
    {
        let atom = self.form.atom(atom)?;
        let leaf = self.leaves.get(atom.leaf())?;
        Some((leaf, atom))
    }
}

impl<L: Drawing + Drop> Outline for Assembly<L> {
    ghost outline = { λ d. outline_of d.form };

    fn fault(&self) -> Option<Fault> {
        self.form.fault()
    }

    fn layers(&self) -> u8 {
        self.form.layers()
    }

    fn kind(&self, name: u8) -> Option<Kind> {
        self.form.kind(name)
    }

    fn top(&self, name: u8) -> u8 {
        self.form.top(name)
    }

    fn atoms(&self) -> u8 {
        self.form.atoms()
    }

    fn controls(&self, atom: u8) -> Names {
        self.form.controls(atom)
    }

    fn reads(&self, atom: u8) -> Names {
        self.form.reads(atom)
    }

    fn awaits(&self, atom: u8) -> Names {
        self.form.awaits(atom)
    }
}

impl<L: Drawing + Drop> Drawing for Assembly<L> {
    ghost use Rattle.std.specs.Prelude.{refl};

    ghost meaning = { λ d. form_meaning (form_facts d.form) (leaf_meanings L.Drawing.meaning d.leaves.items) d.outline_laws d.choice_laws };

    ghost agree = { λ d. refl };

    fn choices(&self, round: Round, atom: u8) -> u8 {
        let Some((leaf, place)) = self.origin(atom) else {
            return 0;
        };
        leaf.choices(round, place.number())
    }

    fn is_open(&self, round: Round, atom: u8, choice: u8, old: State, new: State) -> bool {
        let Some((leaf, place)) = self.origin(atom) else {
            return false;
        };
        let old = place.state_in_leaf(old);
        let new = place.state_in_leaf(new);
        leaf.is_open(round, place.number(), choice, old, new)
    }

    fn gives(&self, round: Round, atom: u8, choice: u8, name: u8, old: State, new: State) -> i16 {
        let Some((leaf, place)) = self.origin(atom) else {
            return 0;
        };
        let name = place.in_leaf(name);
        let old = place.state_in_leaf(old);
        let new = place.state_in_leaf(new);
        leaf.gives(round, place.number(), choice, name, old, new)
    }
}
