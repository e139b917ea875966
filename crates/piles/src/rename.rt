//! A drawing with a new name for one of its variables.
ghost use Rattle.composition.specs.Faults.{fault_of_renamed};
ghost use Rattle.composition.specs.Meanings.{renamed};
ghost use Rattle.composition.specs.Outlines.{renamed_outline};
ghost use Rattle.std.specs.Prelude.{◌≡◌, ◌<◌, None, IfNone, IfSome, IsSome};
ghost use Rattle.std.proofs.Common.{rules};

use crate::exchange::Exchange;
use crate::faults::{rename_fault, up_to_255};
use model::{Drawing, Fault, Kind, Names, Outline, Round, State};

/// A drawing in which one name stands for another. Its fault is judged once, when it is made, and stands beside the drawing below:
/// a faulty rename has that drawing too, and counts its layers.
#[derive(Drop)]
pub struct Rename<D: Outline> {
    below: D,
    old: u8,
    new: u8,
    fault: Option<Fault>,
    ghost judged: { fault ≡ fault_of_renamed (D.Outline.outline below) old new },
    ghost old_name: { fault ≡ None → old < 32 },
    ghost new_name: { fault ≡ None → new < 32 },
}

impl<D: Drawing> Rename<D> {
    /// Puts the new name for the old one. Where the drawing below has a fault, or the old name is absent, or the new one is present
    /// or above 31, the rename has a fault: it tells it, and has no variables and no atoms. That variables are names up to 31 is a
    /// law of drawings, so this asks for one.
    pub fn new(below: D, old: u8, new: u8) -> Rename<D>
        ensures below { result.below ≡ below }
        ensures old { result.old ≡ old }
        ensures new { result.new ≡ new }
    {
        let fault = rename_fault(&below, old, new);
        Rename {
            below,
            old,
            new,
            fault,
        }
    }
}

impl<D: Outline> Rename<D> {
    // The drawing below and the two names that change places, where there is no fault.
    fn sound(&self) -> Option<(&D, Exchange)>
        ensures fault { IfNone result (IsSome self.now.fault) }
        ensures below { IfSome result (λ p. (self.now.fault ≡ None) × (p.0.now ≡ self.now.below)) }
        ensures names { IfSome result (λ p. (p.1.one ≡ self.now.old) × (p.1.other ≡ self.now.new)) }
    {
        let exchange = Exchange::of(self.old, self.new)?;
        self.fault.is_none().then_some((&self.below, exchange))
    }
}

impl<D: Outline> Outline for Rename<D> {
    ghost outline = { λ p. renamed_outline (D.Outline.outline p.below) p.old p.new };

    fn fault(&self) -> Option<Fault> {
        self.fault
    }

    fn layers(&self) -> u8 {
        up_to_255(u16::from(self.below.layers()).saturating_add(1))
    }

    fn kind(&self, name: u8) -> Option<Kind> {
        let (below, exchange) = self.sound()?;
        below.kind(exchange.name(name))
    }

    fn top(&self, name: u8) -> u8 {
        self.sound()
            .map_or(0, |(below, exchange)| below.top(exchange.name(name)))
    }

    fn atoms(&self) -> u8 {
        self.sound().map_or(0, |(below, _)| below.atoms())
    }

    fn controls(&self, atom: u8) -> Names {
        self.sound().map_or(Names::none(), |(below, exchange)| {
            exchange.names(below.controls(atom))
        })
    }

    fn reads(&self, atom: u8) -> Names {
        self.sound().map_or(Names::none(), |(below, exchange)| {
            exchange.names(below.reads(atom))
        })
    }

    fn awaits(&self, atom: u8) -> Names {
        self.sound().map_or(Names::none(), |(below, exchange)| {
            exchange.names(below.awaits(atom))
        })
    }
}

// The drawing below sees its own names: old and new values are handed to it with the two names exchanged.
impl<D: Drawing> Drawing for Rename<D> {
    ghost meaning = { λ p. renamed (D.Drawing.meaning p.below) p.old p.new };

    ghost agree = { Prim.search rules };

    fn choices(&self, round: Round, atom: u8) -> u8 {
        self.sound()
            .map_or(0, |(below, _)| below.choices(round, atom))
    }

    fn is_open(&self, round: Round, atom: u8, choice: u8, old: State, new: State) -> bool {
        let Some((below, exchange)) = self.sound() else {
            return false;
        };
        let old = exchange.state(old);
        let new = exchange.state(new);
        below.is_open(round, atom, choice, old, new)
    }

    fn gives(&self, round: Round, atom: u8, choice: u8, name: u8, old: State, new: State) -> i16 {
        let Some((below, exchange)) = self.sound() else {
            return 0;
        };
        let name = exchange.name(name);
        let old = exchange.state(old);
        let new = exchange.state(new);
        below.gives(round, atom, choice, name, old, new)
    }
}
