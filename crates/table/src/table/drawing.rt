//! A table as a drawing.
ghost use Rattle.table.specs.Table.{outline_of, meaning_of};
ghost use Rattle.std.specs.Prelude.{refl};

use super::{Table, in_round};
use expression::{number_value, truth_value};
use model::{Drawing, Fault, Kind, Names, Outline, Round, State};

impl Outline for Table {
    ghost outline = { outline_of };

    fn fault(&self) -> Option<Fault> {
        self.found.as_ref().err().copied()
    }

    fn layers(&self) -> u8 {
        1
    }

    fn kind(&self, name: u8) -> Option<Kind> {
        Some(self.variable(name)?.kind)
    }

    fn top(&self, name: u8) -> u8 {
        self.variable(name).map_or(0, |variable| variable.top)
    }

    fn atoms(&self) -> u8 {
        self.layout()
            .map_or(0, |layout| layout.atoms.as_slice().len() as u8)
    }

    fn controls(&self, atom: u8) -> Names {
        self.atom(atom)
            .map_or(Names::none(), |layout| layout.controls)
    }

    fn reads(&self, atom: u8) -> Names {
        self.atom(atom).map_or(Names::none(), |layout| layout.reads)
    }

    fn awaits(&self, atom: u8) -> Names {
        self.atom(atom)
            .map_or(Names::none(), |layout| layout.awaits)
    }
}

impl Drawing for Table {
    ghost meaning = { meaning_of };

    ghost agree = { λ _. refl };

    fn choices(&self, round: Round, atom: u8) -> u8 {
        self.atom(atom)
            .map_or(0, |layout| in_round(layout, round).as_slice().len() as u8)
    }

    fn is_open(&self, round: Round, atom: u8, choice: u8, old: State, new: State) -> bool {
        truth_value(self.guard(round, atom, choice), old, new)
    }

    fn gives(&self, round: Round, atom: u8, choice: u8, name: u8, old: State, new: State) -> i16 {
        number_value(self.number(round, atom, choice, name), old, new)
    }
}
