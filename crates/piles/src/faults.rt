//! What is wrong with a rename, a hide or a join, judged from the outlines alone. A fault below comes before a layer's
//! own, and one of the left part before one of the right.
ghost use Rattle.std.specs.Prelude.{◌≡◌, ◌+◌, nat_lt};
ghost use Rattle.composition.specs.Faults.{clashes, differs, join_fault, up_to_255, deeper, fault_of_renamed, fault_of_hidden, fault_of_joined};
ghost use Rattle.model.specs.Tests.{lowest};

use crate::rules::Rule;
use model::{Fault, Kind, Outline, lowest_below};

// The most atoms that a drawing has.
const ATOMS: u16 = 16;

/// A count of layers, or the depth of one, as a drawing tells it: above 255 as 255.
pub fn up_to_255(layer: u16) -> u8
    ensures { result ≡ up_to_255 layer }
{
    layer.min(255) as u8
}

// The fault as it is told from so many layers above.
fn deeper(fault: Fault, by: u16) -> Fault
    ensures { result ≡ deeper by fault }
{
    Fault {
        layer: up_to_255(by.saturating_add(u16::from(fault.layer))),
        ..fault
    }
}

// The two parts of a join.
#[derive(Drop)]
struct Parts<'a, L, R> {
    left: &'a L,
    right: &'a R,
}

impl<L: Outline, R: Outline> Parts<'_, L, R> {
    // Is the name private in one and there in the other, or interface in both?
    fn clash(&self, name: u8) -> bool
        ensures { result ≡ clashes (L.Outline.outline self.now.left.now) (R.Outline.outline self.now.right.now) name }
    {
        matches!(
            (self.left.kind(name), self.right.kind(name)),
            (Some(Kind::Private), Some(_))
                | (Some(_), Some(Kind::Private))
                | (Some(Kind::Interface), Some(Kind::Interface))
        )
    }

    // The lowest name at which the two clash.
    fn lowest_clash(&self) -> Option<u8>
        ensures { result ≡ lowest (clashes (L.Outline.outline self.now.left.now) (R.Outline.outline self.now.right.now)) 32 }
    {
        lowest_below(32, |name| self.clash(name))
    }

    // Do the two share the name, with two tops?
    fn differ(&self, name: u8) -> bool
        ensures { result ≡ differs (L.Outline.outline self.now.left.now) (R.Outline.outline self.now.right.now) name }
    {
        self.left.kind(name).is_some()
            && self.right.kind(name).is_some()
            && self.left.top(name) != self.right.top(name)
    }

    // The lowest shared name with two tops.
    fn lowest_difference(&self) -> Option<u8>
        ensures { result ≡ lowest (differs (L.Outline.outline self.now.left.now) (R.Outline.outline self.now.right.now)) 32 }
    {
        lowest_below(32, |name| self.differ(name))
    }

    // Do they have too many atoms together?
    fn are_crowded(&self) -> bool
        ensures { result ≡ nat_lt 16 ((L.Outline.outline self.now.left.now).atoms + (R.Outline.outline self.now.right.now).atoms) }
    {
        let atoms = u16::from(self.left.atoms()) + u16::from(self.right.atoms());
        atoms > ATOMS
    }

    // What is wrong with the join of two drawings that have no fault themselves.
    fn own_fault(&self) -> Option<Fault>
        ensures { result ≡ join_fault (L.Outline.outline self.now.left.now) (R.Outline.outline self.now.right.now) }
    {
        if let Some(name) = self.lowest_clash() {
            return Some(Rule::KindsAgree.broken(name));
        }
        if let Some(name) = self.lowest_difference() {
            return Some(Rule::TopsAgree.broken(name));
        }
        self.are_crowded().then(|| Rule::FewAtoms.broken(0))
    }
}

/// What is wrong with the join of the two: a fault of the left part, of the right one, or of the join itself.
pub fn join_fault<L: Outline, R: Outline>(left: &L, right: &R) -> Option<Fault>
    ensures { result ≡ fault_of_joined (L.Outline.outline left.now) (R.Outline.outline right.now) }
{
    left.fault()
        .map(|fault| deeper(fault, 1))
        .or_else(|| {
            right
                .fault()
                .map(|fault| deeper(fault, 1 + u16::from(left.layers())))
        })
        .or_else(|| Parts { left, right }.own_fault())
}

/// What is wrong with the rename: a fault of the drawing below, or that the old name is not there, or the new one is or is no name.
pub fn rename_fault<D: Outline>(below: &D, old: u8, new: u8) -> Option<Fault>
    ensures { result ≡ fault_of_renamed (D.Outline.outline below.now) old new }
{
    let wrong = below.kind(old).is_none() || below.kind(new).is_some() || new > 31;
    below
        .fault()
        .map(|fault| deeper(fault, 1))
        .or_else(|| wrong.then(|| Rule::NewNameIsFree.broken(old)))
}

/// What is wrong with the hide: a fault of the drawing below, or that the name is not interface.
pub fn hide_fault<D: Outline>(below: &D, name: u8) -> Option<Fault>
    ensures { result ≡ fault_of_hidden (D.Outline.outline below.now) name }
{
    let right = below.kind(name) == Some(Kind::Interface);
    below
        .fault()
        .map(|fault| deeper(fault, 1))
        .or_else(|| (!right).then(|| Rule::HiddenIsInterface.broken(name)))
}
