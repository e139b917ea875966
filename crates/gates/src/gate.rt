//! The gates, and the atoms that they are made of.
ghost use Rattle.std.specs.Prelude.{◌≡◌, ℕ};
ghost use Rattle.gates.specs.Choices.{choice_count, opens_of, gives_of};
ghost use Rattle.gates.specs.Gates.{Describes, uses, controls_of, reads_of, awaits_of};
ghost use Rattle.model.specs.Sets.{has};
ghost use Rattle.model.specs.States.{value};

use model::{Names, Round, State, value_of};
use std::error::Error;
use std::fmt;

/// A gate by the names of its wires, 0 to 31 each.
#[derive(Clone, Copy, PartialEq, Eq, Debug)]
pub enum Gate {
    /// `out` is the negation of `a`.
    Not {
        a: u8,
        out: u8,
    },
    /// `out` is the conjunction of `a` and `b`.
    And {
        a: u8,
        b: u8,
        out: u8,
    },
    /// A bit stored under the name `own`: `set` turns it on, `reset` off, and `out` shows what was stored.
    Latch {
        set: u8,
        reset: u8,
        out: u8,
        own: u8,
    },
}

/// Five bytes that describe no gate.
#[derive(Clone, Copy, PartialEq, Eq, Debug)]
pub struct Malformed;

impl fmt::Display for Malformed {
    fn fmt<W: fmt::Write>(&self, f: &mut fmt::Formatter<W>) -> fmt::Result {
        f.write_str("the five bytes describe no gate")
    }
}

impl Error for Malformed {}

impl TryFrom<[u8; 5]> for Gate {
    type Error = Malformed;

    ghost try_from_gives = { Describes };

    // The gate that a record describes, if it is well formed: a known kind, names up to 31, and 255 in each field that
    // the kind does not use.
    fn try_from(record: [u8; 5]) -> Result<Gate, Malformed> {
        match record {
            [0, a, 255, out, 255] if a < 32 && out < 32 => Ok(Gate::Not { a, out }),
            [1, a, b, out, 255] if a < 32 && b < 32 && out < 32 => Ok(Gate::And { a, b, out }),
            [2, set, reset, out, own] if set < 32 && reset < 32 && out < 32 && own < 32 => Ok(
                Gate::Latch {
                    set,
                    reset,
                    out,
                    own,
                },
            ),
            _ => Err(Malformed),
        }
    }
}

/// One atom of a gate, by the names of the wires that it touches.
#[derive(Clone, Copy, PartialEq, Eq, Debug)]
pub enum Part {
    /// The atom of a NOT.
    Inverter { a: u8, out: u8 },
    /// The atom of an AND.
    Conjunction { a: u8, b: u8, out: u8 },
    /// The first atom of a latch, which shows the bit stored before the round.
    LatchOutput { out: u8, own: u8 },
    /// The second atom of a latch, which stores its bit.
    LatchStore { set: u8, reset: u8, own: u8 },
}

/// The places at which a gate can name a wire.
#[derive(Clone, Copy, PartialEq, Eq, Debug)]
pub enum Field {
    /// An input of a gate, or a latch's set or reset.
    Input,
    /// What a gate shows.
    Out,
    /// What a latch keeps for itself.
    Own,
}

impl Part {
    /// Does the part name the wire in such a field?
    pub fn uses(self, field: Field, name: u8) -> bool
        ensures { result ≡ uses field self name }
    {
        match (self, field) {
            (Part::Inverter { a, .. }, Field::Input) => name == a,
            (Part::Conjunction { a, b, .. }, Field::Input) => name == a || name == b,
            (Part::LatchStore { set, reset, .. }, Field::Input) => name == set || name == reset,
            (
                Part::Inverter { out, .. }
                | Part::Conjunction { out, .. }
                | Part::LatchOutput { out, .. },
                Field::Out,
            ) => name == out,
            (Part::LatchOutput { own, .. } | Part::LatchStore { own, .. }, Field::Own) => name
                == own,
            _ => false,
        }
    }

    /// The name that the part controls, alone in a set.
    pub fn controls(self) -> Names
        ensures { (n : ℕ) → has result n ≡ controls_of self n }
    {
        match self {
            Part::Inverter { out, .. }
            | Part::Conjunction { out, .. }
            | Part::LatchOutput { out, .. } => Names::none().with(out),
            Part::LatchStore { own, .. } => Names::none().with(own),
        }
    }

    /// The names whose old values the part sees.
    pub fn reads(self) -> Names
        ensures { (n : ℕ) → has result n ≡ reads_of self n }
    {
        match self {
            Part::Inverter { .. } | Part::Conjunction { .. } => Names::none(),
            Part::LatchOutput { own, .. } | Part::LatchStore { own, .. } => Names::none().with(own),
        }
    }

    /// The names whose new values the part sees.
    pub fn awaits(self) -> Names
        ensures { (n : ℕ) → has result n ≡ awaits_of self n }
    {
        match self {
            Part::Inverter { a, .. } => Names::none().with(a),
            Part::Conjunction { a, b, .. } => Names::none().with(a).with(b),
            Part::LatchOutput { .. } => Names::none(),
            Part::LatchStore { set, reset, .. } => Names::none().with(set).with(reset),
        }
    }

    /// How many choices the part has in such a round, 1 to 3.
    pub fn choices(self, round: Round) -> u8
        ensures { result ≡ choice_count round self }
    {
        match (self, round) {
            (Part::Inverter { .. }, _) | (Part::LatchOutput { .. }, Round::Initial) => 2,
            (Part::Conjunction { .. } | Part::LatchStore { .. }, _) => 3,
            (Part::LatchOutput { .. }, Round::Update) => 1,
        }
    }

    /// Is the choice open at these new values? One that is not there is closed.
    pub fn is_open(self, round: Round, choice: u8, new: State) -> bool
        ensures { result ≡ opens_of round self choice (value new) }
    {
        match (self, choice) {
            (Part::Inverter { a, .. }, 0) => value_of(new, a) == 0,
            (Part::Inverter { a, .. }, 1) => value_of(new, a) == 1,
            (Part::Conjunction { a, .. }, 0) => value_of(new, a) == 0,
            (Part::Conjunction { b, .. }, 1) => value_of(new, b) == 0,
            (Part::Conjunction { a, b, .. }, 2) => value_of(new, a) == 1 && value_of(new, b) == 1,
            (Part::LatchOutput { .. }, 0) => true,
            (Part::LatchOutput { .. }, 1) => matches!(round, Round::Initial),
            (Part::LatchStore { set, .. }, 0) => value_of(new, set) == 1,
            (Part::LatchStore { reset, .. }, 1) => value_of(new, reset) == 1,
            (Part::LatchStore { set, reset, .. }, 2) => value_of(new, set) == 0
                && value_of(new, reset) == 0,
            _ => false,
        }
    }

    /// What the choice gives to the name that the part controls, by these old values. One that is not there gives 0.
    pub fn gives(self, round: Round, choice: u8, old: State) -> u8
        ensures { result ≡ gives_of round self choice (value old) }
    {
        match (self, round, choice) {
            (Part::Inverter { .. }, _, 0) => 1,
            (Part::Conjunction { .. }, _, 2) => 1,
            (Part::LatchOutput { .. }, Round::Initial, 1) => 1,
            (Part::LatchOutput { own, .. }, Round::Update, 0) => value_of(old, own),
            (Part::LatchStore { .. }, _, 0) => 1,
            (Part::LatchStore { own, .. }, Round::Update, 2) => value_of(old, own),
            _ => 0,
        }
    }
}
