//! A drawing with one of its interface names made private.
ghost use Rattle.composition.specs.Faults.{fault_of_hidden};
ghost use Rattle.composition.specs.Meanings.{hidden};
ghost use Rattle.composition.specs.Outlines.{hidden_outline, sound_or};
ghost use Rattle.std.specs.Prelude.{◌≡◌, None, Some, option_copied};
ghost use Rattle.std.proofs.Common.{rules};

use crate::faults::{hide_fault, up_to_255};
use model::{Drawing, Fault, Kind, Names, Outline, Round, State};

/// A drawing with one of its interface names made private. Its fault is judged once, when it is made, and stands beside the drawing
/// below, as a rename's does.
#[derive(Drop)]
pub struct Hide<D: Outline> {
    below: D,
    name: u8,
    fault: Option<Fault>,
    ghost judged: { fault ≡ fault_of_hidden (D.Outline.outline below) name },
}

impl<D: Outline> Hide<D> {
    /// Hides the name. Where the drawing below has a fault, or the name is none of its interface, the hide has a fault: it tells it,
    /// and has no variables and no atoms.
    pub fn new(below: D, name: u8) -> Hide<D>
        ensures below { result.below ≡ below }
        ensures name { result.name ≡ name }
    {
        let fault = hide_fault(&below, name);
        Hide { below, name, fault }
    }

    // The drawing below, where there is no fault.
    fn sound(&self) -> Option<&D>
        ensures { option_copied result ≡ sound_or self.now.fault None (Some self.now.below) }
    {
        self.fault.is_none().then_some(&self.below)
    }
}

impl<D: Outline> Outline for Hide<D> {
    ghost outline = { λ p. hidden_outline (D.Outline.outline p.below) p.name };

    fn fault(&self) -> Option<Fault> {
        self.fault
    }

    fn layers(&self) -> u8 {
        up_to_255(u16::from(self.below.layers()).saturating_add(1))
    }

    fn kind(&self, name: u8) -> Option<Kind> {
        let below = self.sound()?;
        if name == self.name {
            Some(Kind::Private)
        } else {
            below.kind(name)
        }
    }

    fn top(&self, name: u8) -> u8 {
        self.sound().map_or(0, |below| below.top(name))
    }

    fn atoms(&self) -> u8 {
        self.sound().map_or(0, |below| below.atoms())
    }

    fn controls(&self, atom: u8) -> Names {
        self.sound()
            .map_or(Names::none(), |below| below.controls(atom))
    }

    fn reads(&self, atom: u8) -> Names {
        self.sound()
            .map_or(Names::none(), |below| below.reads(atom))
    }

    fn awaits(&self, atom: u8) -> Names {
        self.sound()
            .map_or(Names::none(), |below| below.awaits(atom))
    }
}

impl<D: Drawing> Drawing for Hide<D> {
    ghost meaning = { λ p. hidden (D.Drawing.meaning p.below) p.name };

    ghost agree = { Prim.search rules };

    fn choices(&self, round: Round, atom: u8) -> u8 {
        self.sound().map_or(0, |below| below.choices(round, atom))
    }

    fn is_open(&self, round: Round, atom: u8, choice: u8, old: State, new: State) -> bool {
        self.sound()
            .is_some_and(|below| below.is_open(round, atom, choice, old, new))
    }

    fn gives(&self, round: Round, atom: u8, choice: u8, name: u8, old: State, new: State) -> i16 {
        self.sound().map_or(0, |below| below.gives(round, atom, choice, name, old, new))
    }
}
