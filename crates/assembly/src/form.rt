//! A pile in normal form, without its leaves: what it tells by name, and where its atoms come from.
ghost use Rattle.assembly.specs.Atoms.{atom_facts};
ghost use Rattle.assembly.specs.Forms.{atom_of_leaf};
ghost use Rattle.std.specs.Prelude.{◌≡◌, ◌≤◌};

use crate::atom::FormAtom;
use crate::by_number::ByNumber;
use model::{Drawing, Fault, Kind, Names, Outline};
use piles::{Exchange, hide_fault, join_fault, joined_kind, rename_fault, up_to_255};

/// The fault, the count of layers, the kind and top of each name, and the atoms, at most 16. With a fault there are no variables and no
/// atoms.
#[derive(Clone, Copy)]
pub struct Form {
    fault: Option<Fault>,
    layers: u8,
    kinds: ByNumber<Option<Kind>, 32>,
    tops: ByNumber<u8, 32>,
    count: u8,
    atoms: ByNumber<Option<FormAtom>, 16>,
    ghost few: { count ≤ 16 },
}

impl Form {
    ghost use Rattle.assembly.specs.Forms.{concealed_form, hidden_form, joined_form, leaf_form, renamed_form};
    ghost use Rattle.assembly.specs.Plain.{exchanged_facts, form_facts, paired_facts};
    ghost use Rattle.std.specs.Prelude.{◌≡◌, ℕ, Some, None, option_map};

    /// The form of a drawing that stands by itself, as the first leaf.
    pub fn of_leaf<D: Drawing>(drawing: &D) -> Form
        ensures { form_facts result ≡ leaf_form (D.Drawing.meaning drawing.now).outline }
    {
        Form {
            fault: drawing.fault(),
            layers: drawing.layers(),
            kinds: ByNumber::gather(|name| drawing.kind(name)),
            tops: ByNumber::gather(|name| drawing.top(name)),
            count: drawing.atoms(),
            atoms: ByNumber::gather(|atom| Some(leaf_atom(drawing, atom))),
        }
    }

    // The form with a fault in place of its variables and atoms.
    fn faulty(fault: Fault, layers: u8) -> Form
        ensures fault { (form_facts result).fault ≡ Some fault }
        ensures layers { (form_facts result).layers ≡ layers }
        ensures kind { (n : ℕ) → (form_facts result).kind n ≡ None }
        ensures top { (n : ℕ) → (form_facts result).top n ≡ 0 }
        ensures atoms { (form_facts result).atoms ≡ 0 }
    {
        Form {
            fault: Some(fault),
            layers,
            kinds: ByNumber::all(None),
            tops: ByNumber::all(0),
            count: 0,
            atoms: ByNumber::all(None),
        }
    }

    /// The atom of this number, if it is there.
    pub fn atom(&self, atom: u8) -> Option<FormAtom>
        ensures { option_map atom_facts result ≡ (form_facts self.now).atom atom }
    {
        if atom < self.count {
            self.atoms.get_or(atom, None)
        } else {
            None
        }
    }

    // The atom where two names change places.
    fn renamed_atom(&self, atom: u8, exchange: Exchange) -> Option<FormAtom>
        ensures { option_map atom_facts result ≡ (exchanged_facts exchange self.now).atom atom }
    {
        let atom = self.atom(atom)?;
        Some(atom.renamed(exchange))
    }

    // The form where two names change places.
    fn exchanged(&self, exchange: Exchange) -> Form
        ensures { form_facts result ≡ exchanged_facts exchange self.now }
    {
        Form {
            fault: None,
            layers: up_to_255(u16::from(self.layers).saturating_add(1)),
            kinds: ByNumber::gather(|name| self.kind(exchange.name(name))),
            tops: ByNumber::gather(|name| self.top(exchange.name(name))),
            count: self.count,
            atoms: ByNumber::gather(|atom| self.renamed_atom(atom, exchange)),
        }
    }

    /// The form with the new name for the old one. Where this form has a fault, or the old name is absent, or the new one is present or
    /// above 31, it has a fault.
    pub fn renamed(&self, old: u8, new: u8) -> Form
        ensures { form_facts result ≡ renamed_form old new (form_facts self.now) }
    {
        if let Some(fault) = rename_fault(self, old, new) {
            return Form::faulty(fault, up_to_255(u16::from(self.layers).saturating_add(1)));
        }
        self.exchanged(Exchange::of(old, new).unwrap())
    }

    // The kind of a name where one is made private.
    fn concealed_kind(&self, hidden: u8, name: u8) -> Option<Kind>
        ensures { result ≡ (concealed_form hidden (form_facts self.now)).kind name }
    {
        if name == hidden {
            Some(Kind::Private)
        } else {
            self.kind(name)
        }
    }

    /// The form with one of its interface names made private. Where this form has a fault, or the name is not interface, it has a fault.
    pub fn hidden(&self, name: u8) -> Form
        ensures { form_facts result ≡ hidden_form name (form_facts self.now) }
    {
        let layers = up_to_255(u16::from(self.layers).saturating_add(1));
        if let Some(fault) = hide_fault(self, name) {
            return Form::faulty(fault, layers);
        }
        Form {
            fault: None,
            layers,
            kinds: ByNumber::gather(|other| self.concealed_kind(name, other)),
            tops: self.tops,
            count: self.count,
            atoms: self.atoms,
        }
    }

    // The top of a name in the join.
    fn joined_top(&self, right: &Form, name: u8) -> u8
        ensures { result ≡ (paired_facts 0 self.now right.now).top name }
    {
        if self.kind(name).is_some() {
            self.top(name)
        } else {
            right.top(name)
        }
    }

    // An atom of the join.
    fn joined_atom(&self, right: &Form, leaves: usize, atom: u8) -> Option<FormAtom>
        ensures { option_map atom_facts result ≡ (paired_facts leaves self.now right.now).atom atom }
    {
        if atom < self.count {
            return self.atom(atom);
        }
        let atom = right.atom(atom - self.count)?;
        Some(atom.moved(leaves))
    }

    /// The forms side by side, this one over so many leaves, which come first. Where one has a fault, or a name that is private in one is
    /// there in the other or interface in both, or a shared name has two tops, or there are more than 16 atoms, the join has a fault.
    pub fn joined(&self, right: &Form, leaves: usize) -> Form
        ensures { form_facts result ≡ joined_form leaves (form_facts self.now) (form_facts right.now) }
    {
        let layers = up_to_255(1 + u16::from(self.layers) + u16::from(right.layers));
        if let Some(fault) = join_fault(self, right) {
            return Form::faulty(fault, layers);
        }
        Form {
            fault: None,
            layers,
            kinds: ByNumber::gather(|name| joined_kind(self.kind(name), right.kind(name))),
            tops: ByNumber::gather(|name| self.joined_top(right, name)),
            count: self.count + right.count,
            atoms: ByNumber::gather(|atom| self.joined_atom(right, leaves, atom)),
        }
    }
}

// An atom of a leaf, under the leaf's names.
fn leaf_atom<D: Drawing>(drawing: &D, atom: u8) -> FormAtom
    ensures { atom_facts result ≡ atom_of_leaf (D.Drawing.meaning drawing.now).outline atom }
{
    FormAtom::own(
        atom,
        drawing.controls(atom),
        drawing.reads(atom),
        drawing.awaits(atom),
    )
}

impl Outline for Form {
    ghost use Rattle.assembly.specs.Meanings.{form_outline};
    ghost use Rattle.assembly.specs.Plain.{form_facts};

    ghost outline = { λ f. form_outline (form_facts f) };

    fn fault(&self) -> Option<Fault> {
        self.fault
    }

    fn layers(&self) -> u8 {
        self.layers
    }

    fn kind(&self, name: u8) -> Option<Kind> {
        self.kinds.get_or(name, None)
    }

    fn top(&self, name: u8) -> u8 {
        self.tops.get_or(name, 0)
    }

    fn atoms(&self) -> u8 {
        self.count
    }

    fn controls(&self, atom: u8) -> Names {
        match self.atom(atom) {
            Some(atom) => atom.controls(),
            None => Names::none(),
        }
    }

    fn reads(&self, atom: u8) -> Names {
        match self.atom(atom) {
            Some(atom) => atom.reads(),
            None => Names::none(),
        }
    }

    fn awaits(&self, atom: u8) -> Names {
        match self.atom(atom) {
            Some(atom) => atom.awaits(),
            None => Names::none(),
        }
    }
}
