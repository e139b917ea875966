//! An outline that is no drawing, to join what gate lists cannot show: other tops, many layers,
//! and atoms that control nothing.
ghost use Rattle.model.specs.declared.Kind.TheVariants.{External};
ghost use Rattle.std.specs.Prelude.{◌≡◌, false, ◌||◌, if◌then◌else◌, Some, None, ◌==◌, nat_eq};

use model::{Fault, Kind, Names, Outline};

/// Two external names with one top.
#[derive(Clone, Copy)]
pub struct StubOutline {
    pub fault: Option<Fault>,
    pub layers: u8,
    pub names: (u8, u8),
    pub top: u8,
    pub atoms: u8,
}

impl StubOutline {
    fn shows(&self, name: u8) -> bool
        ensures { result ≡ (nat_eq name self.now.names.0 || name == self.now.names.1) }
    {
        name == self.names.0 || name == self.names.1
    }
}

impl Outline for StubOutline {
    ghost outline = { λ s. record { fault = s.fault; layers = s.layers; kind = λ n. (if nat_eq n s.names.0 || n == s.names.1 then Some External else None); top = λ n. (if nat_eq n s.names.0 || n == s.names.1 then s.top else 0); atoms = s.atoms; controls = λ a n. false; reads = λ a n. false; awaits = λ a n. false } };

    fn fault(&self) -> Option<Fault> {
        self.fault
    }

    fn layers(&self) -> u8 {
        self.layers
    }

    fn kind(&self, name: u8) -> Option<Kind> {
        self.shows(name).then_some(Kind::External)
    }

    fn top(&self, name: u8) -> u8 {
        if self.shows(name) { self.top } else { 0 }
    }

    fn atoms(&self) -> u8 {
        self.atoms
    }

    fn controls(&self, _atom: u8) -> Names {
        Names::none()
    }

    fn reads(&self, _atom: u8) -> Names {
        Names::none()
    }

    fn awaits(&self, _atom: u8) -> Names {
        Names::none()
    }
}
