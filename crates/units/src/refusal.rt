//! What calls on a unit refuse.
ghost use Rattle.std.specs.Prelude.{◌≡◌, Some};
ghost use Rattle.units.specs.Refusals.{refusal_fault, refusal_words};

use model::Fault;
use std::error::Error;
use std::fmt;

/// Why a call on a unit is refused, with what it tells besides: names from 0 to 31, atoms from 0 to 15, and indices of the states of a
/// certificate or a run, from 0. As a fault, which has a number, a layer and a place, every refusal but the first is of the top layer.
#[derive(Clone, Copy, PartialEq, Eq, Debug)]
pub enum Refusal {
    /// Something is wrong with the drawing that was sealed.
    FaultyDrawing(Fault),
    /// No atom or more than one controls the private or interface name.
    NotOneController { name: u8 },
    /// The atom awaits itself, directly or through others.
    AwaitsItself { atom: u8 },
    /// The atom sees more than 65,536 combinations of values.
    SeesTooMuch { atom: u8 },
    /// At some values that it sees, the atom has no open choice.
    GetsStuck { atom: u8 },
    /// At some values that it sees, an open choice of the atom gives a value out of its range.
    LeavesRange { atom: u8 },
    /// Rounds can go in more than 1,048,576 ways.
    TooWide,
    /// More than eight claims come together in a join.
    TooManyClaims,
    /// A claim is made while a state stands or a round is open.
    NotIdle,
    /// The unit has eight claims already.
    NoRoomForClaim,
    /// The bytes are no claim on this module.
    WrongClaim,
    /// No claim has this number.
    NoSuchClaim,
    /// The bytes are no whole states, or none, or more than 2,048.
    WrongSize,
    /// The state that is listed at this index is no state of the module.
    NotAState { index: u16 },
    /// The claim is false in a state of the certificate.
    FalseIn { index: u16 },
    /// The claim is true in the last state of the run.
    TrueInLast { index: u16 },
    /// The certificate lacks an initial state.
    InitialStateMissing,
    /// The first state of the run is not initial.
    NotInitial,
    /// The certificate lacks a successor of the state at this index.
    SuccessorMissing { index: u16 },
    /// The state of the run at this index is no successor of the one before.
    NotASuccessor { index: u16 },
    /// There is no claim, or one that is not held.
    NotAllHeld,
    /// A round is open already.
    RoundOpen,
    /// The value given to an external name is above its top, or that given to any other is not 0.
    WrongValue { name: u8 },
    /// The slip is not that of a round that is open on this unit.
    WrongSlip,
    /// 4,294,967,295 rounds were opened.
    NoRoundLeft,
    /// There is no such atom, or it has fired.
    NoAtomToFire,
    /// The atom awaits a name whose atom has not fired.
    MustWait,
    /// There is no such choice, or it is closed.
    ChoiceNotOpen,
    /// Some atoms have not fired; the round is withdrawn.
    AtomsMissing,
}

impl From<Refusal> for Fault {
    ghost from_gives = { λ refusal fault. fault ≡ refusal_fault refusal };

    fn from(refusal: Refusal) -> Fault {
        match refusal {
            Refusal::FaultyDrawing(fault) => fault,
            Refusal::NotOneController { name } => Fault::own(12, name as u16),
            Refusal::AwaitsItself { atom } => Fault::own(13, atom as u16),
            Refusal::SeesTooMuch { atom } => Fault::own(14, atom as u16),
            Refusal::GetsStuck { atom } => Fault::own(15, atom as u16),
            Refusal::LeavesRange { atom } => Fault::own(16, atom as u16),
            Refusal::TooWide => Fault::own(17, 0),
            Refusal::TooManyClaims => Fault::own(37, 0),
            Refusal::NotIdle => Fault::own(19, 0),
            Refusal::NoRoomForClaim => Fault::own(20, 0),
            Refusal::WrongClaim => Fault::own(21, 0),
            Refusal::NoSuchClaim => Fault::own(22, 0),
            Refusal::WrongSize => Fault::own(23, 0),
            Refusal::NotAState { index } => Fault::own(24, index),
            Refusal::FalseIn { index } | Refusal::TrueInLast { index } => Fault::own(25, index),
            Refusal::InitialStateMissing | Refusal::NotInitial => Fault::own(26, 0),
            Refusal::SuccessorMissing { index } | Refusal::NotASuccessor { index } => Fault::own(
                27, index,
            ),
            Refusal::NotAllHeld => Fault::own(28, 0),
            Refusal::RoundOpen => Fault::own(29, 0),
            Refusal::WrongValue { name } => Fault::own(30, name as u16),
            Refusal::WrongSlip => Fault::own(31, 0),
            Refusal::NoRoundLeft => Fault::own(32, 0),
            Refusal::NoAtomToFire => Fault::own(33, 0),
            Refusal::MustWait => Fault::own(34, 0),
            Refusal::ChoiceNotOpen => Fault::own(35, 0),
            Refusal::AtomsMissing => Fault::own(36, 0),
        }
    }
}

// The words say what is refused, and of which name, atom or state.
impl fmt::Display for Refusal {
    ghost output = { λ refusal. Some (refusal_words refusal) };

    fn fmt<W: fmt::Write>(&self, f: &mut fmt::Formatter<W>) -> fmt::Result {
        match self {
            Refusal::FaultyDrawing(fault) => write!(f, "the drawing has the fault {fault}"),
            Refusal::NotOneController { name } => write!(
                f,
                "name {name} is not controlled by exactly one atom"
            ),
            Refusal::AwaitsItself { atom } => write!(
                f,
                "atom {atom} awaits itself, directly or through others"
            ),
            Refusal::SeesTooMuch { atom } => write!(
                f,
                "atom {atom} sees more than 65536 combinations of values"
            ),
            Refusal::GetsStuck { atom } => write!(f, "atom {atom} has no open choice"),
            Refusal::LeavesRange { atom } => write!(
                f,
                "an open choice of atom {atom} gives a value out of range"
            ),
            Refusal::TooWide => f.write_str("a round can go in more ways than 1048576"),
            Refusal::TooManyClaims => f.write_str("it was brought more than eight claims"),
            Refusal::NotIdle => f.write_str("a state stands or a round is open"),
            Refusal::NoRoomForClaim => f.write_str("the unit has eight claims already"),
            Refusal::WrongClaim => f.write_str("the bytes are no claim on this module"),
            Refusal::NoSuchClaim => f.write_str("there is no such claim"),
            Refusal::WrongSize => f.write_str("the bytes are not 1 to 2,048 whole states"),
            Refusal::NotAState { index } => write!(
                f,
                "no state of the module stands at index {index}"
            ),
            Refusal::FalseIn { index } => write!(
                f,
                "the claim is false in the state at index {index}"
            ),
            Refusal::TrueInLast { index } => write!(
                f,
                "the claim is true in the last state, at index {index}"
            ),
            Refusal::InitialStateMissing => f.write_str("an initial state is not listed"),
            Refusal::NotInitial => f.write_str("the first state is not initial"),
            Refusal::SuccessorMissing { index } => write!(
                f,
                "a successor is not listed of the state at index {index}"
            ),
            Refusal::NotASuccessor { index } => write!(
                f,
                "no successor of the state before stands at index {index}"
            ),
            Refusal::NotAllHeld => f.write_str("there is no claim, or one that is not held"),
            Refusal::RoundOpen => f.write_str("a round is open"),
            Refusal::WrongValue { name } => write!(
                f,
                "the value given is out of range: name {name}"
            ),
            Refusal::WrongSlip => f.write_str("the slip is not that of an open round"),
            Refusal::NoRoundLeft => f.write_str("no number is left for another round"),
            Refusal::NoAtomToFire => f.write_str("there is no such atom, or it has fired"),
            Refusal::MustWait => f.write_str("the atom awaits one that has not fired"),
            Refusal::ChoiceNotOpen => f.write_str("there is no such choice, or it is closed"),
            Refusal::AtomsMissing => f.write_str("atoms have not fired; the round is withdrawn"),
        }
    }
}

impl Error for Refusal {}
