//! Gate lists as drawings.
ghost use Rattle.gates.specs.Gates.{all_small, used};
ghost use Rattle.gates.specs.Netlists.{netlist_from};
ghost use Rattle.gates.specs.Rows.{netlist_in};
ghost use Rattle.std.specs.Option.{option_copied};
ghost use Rattle.std.specs.List.{slice_get};
ghost use Rattle.std.specs.Prelude.{◌≡◌, ◌≤◌, length, true};

use crate::gate::{Field, Part};
use crate::reading::read;
use model::{Drawing, Fault, Kind, Names, Outline, Round, Row, State};

// The number of every fault of a gate list.
const FAULT: u8 = 18;

/// An opened gate list: its atoms, at most 16, or the first byte of the first record that breaks a rule.
#[derive(Clone, Copy)]
pub struct GateList {
    contents: Result<Row<Part, 16>, u16>,
    ghost named: { all_small (netlist_in contents).parts ≡ true },
}

impl GateList {
    ghost use Rattle.gates.specs.Behaviour.{GatesWork};
    ghost use Rattle.gates.specs.GateLists.{meaning_of, netlist_of};
    ghost use Rattle.gates.specs.Meanings.{gates_meaning};

    /// Opens any bytes. Where they break a rule of gate lists, the drawing tells fault 18, its place the first byte of the first
    /// record that breaks one, or 0 where the length is no multiple of five; it has no variables and no atoms then.
    pub fn open(bytes: &[u8]) -> GateList
        ensures says { netlist_of result ≡ netlist_from bytes.now }
        ensures means { meaning_of result ≡ gates_meaning bytes.now }
        ensures works { GatesWork bytes.now (meaning_of result) }
    {
        GateList {
            contents: read(bytes),
        }
    }

    // The atoms, of which there are none beside a fault.
    fn parts(&self) -> &[Part]
        ensures parts { result.now ≡ (netlist_of self.now).parts }
        ensures few { length result.now ≤ 16 }
    {
        self.contents.as_ref().map_or(&[], |parts| parts.as_slice())
    }

    fn part(&self, atom: u8) -> Option<&Part>
        ensures { option_copied result ≡ slice_get (netlist_of self.now).parts atom }
    {
        self.parts().get(atom as usize)
    }

    // Is the name in such a field of some atom?
    fn uses(&self, field: Field, name: u8) -> bool
        ensures { result ≡ used field (netlist_of self.now).parts name }
    {
        self.parts().iter().any(|part| part.uses(field, name))
    }
}

impl Outline for GateList {
    ghost use Rattle.gates.specs.GateLists.{outline_of};

    ghost outline = { outline_of };

    fn fault(&self) -> Option<Fault> {
        self.contents.err().map(|place| Fault::own(FAULT, place))
    }

    fn layers(&self) -> u8 {
        1
    }

    // The order of the questions counts: a name that is an out is no own, and neither is an input.
    fn kind(&self, name: u8) -> Option<Kind> {
        if self.uses(Field::Out, name) {
            Some(Kind::Interface)
        } else if self.uses(Field::Own, name) {
            Some(Kind::Private)
        } else if self.uses(Field::Input, name) {
            Some(Kind::External)
        } else {
            None
        }
    }

    fn top(&self, name: u8) -> u8 {
        u8::from(self.kind(name).is_some())
    }

    fn atoms(&self) -> u8 {
        self.parts().len() as u8
    }

    fn controls(&self, atom: u8) -> Names {
        self.part(atom)
            .map_or(Names::none(), |part| part.controls())
    }

    fn reads(&self, atom: u8) -> Names {
        self.part(atom).map_or(Names::none(), |part| part.reads())
    }

    fn awaits(&self, atom: u8) -> Names {
        self.part(atom).map_or(Names::none(), |part| part.awaits())
    }
}

impl Drawing for GateList {
    ghost use Rattle.gates.specs.GateLists.{meaning_of};
    ghost use Rattle.std.proofs.Common.{rules, arith};

    ghost meaning = { meaning_of };

    ghost agree = { first_of (Prim.search rules, Prim.grind (arith, Self.row.coded.inj)) };

    fn choices(&self, round: Round, atom: u8) -> u8 {
        self.part(atom).map_or(0, |part| part.choices(round))
    }

    fn is_open(&self, round: Round, atom: u8, choice: u8, _old: State, new: State) -> bool {
        self.part(atom)
            .is_some_and(|part| part.is_open(round, choice, new))
    }

    fn gives(&self, round: Round, atom: u8, choice: u8, name: u8, old: State, _new: State) -> i16 {
        self.part(atom)
            .filter(|part| part.controls().has(name))
            .map_or(0, |part| i16::from(part.gives(round, choice, old)))
    }
}
