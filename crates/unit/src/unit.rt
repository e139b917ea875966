//! Units.
ghost use Rattle.life.specs.Lives.{HasLawfulLife};
ghost use Rattle.life.specs.Piles.{Sealed};
ghost use Rattle.life.specs.Promises.{reply_of};
ghost use Rattle.life.specs.Rules.{Allows, certify_call, claim_call, number_reply, refute_call};
ghost use Rattle.unit.specs.Calls.{answer_of, certify_numbers};
ghost use Rattle.unit.specs.Invariants.{UnitInvariant};
ghost use Rattle.unit.specs.States.{model_of};
ghost use Rattle.unit.specs.Promises.{Breaks, Certifies, SealedRightly, ZeroWhenFit, verdict_numbers};
ghost use Rattle.units.specs.Units.{certify, claim, refute, seal, verdict_of};
ghost use Rattle.std.specs.Prelude.{◌≡◌, ◌↔◌, IsOk};

use crate::claims::Claims;
use crate::state::UnitState;
use model::{Drawing, Fault, fault_numbers};
use units::Refusal;

/// A drawing that was sealed, and its state. The state is right for what the drawing means, and can have come about by calls from
/// sealing on.
#[derive(Drop)]
pub struct Unit<D: Drawing> {
    drawing: D,
    state: UnitState,
    ghost invariant: { UnitInvariant (D.Drawing.meaning drawing) state },
}

impl<D: Drawing> Unit<D> {
    /// Seals any drawing. An unfit one still makes a unit, which tells what is wrong.
    pub fn seal(drawing: D, number: u32) -> Unit<D>
        ensures drawing { result.drawing ≡ drawing }
        ensures model { model_of (D.Drawing.meaning result.drawing) result.state
            ≡ seal (D.Drawing.meaning drawing) number }
        ensures sealed { Sealed (D.Drawing.meaning drawing) number
            (model_of (D.Drawing.meaning result.drawing) result.state) }
        ensures rightly { SealedRightly (D.Drawing.meaning result.drawing) result.state }
    {
        let state = UnitState::new(&drawing, number, 0, false, Claims::none());
        Unit { drawing, state }
    }

    /// With what an unfit unit refuses its calls; None where it is fit.
    pub fn refusal(&self) -> Option<Refusal>
        ensures refusal { result
            ≡ verdict_of (model_of (D.Drawing.meaning self.now.drawing) self.now.state) }
        ensures zero { ZeroWhenFit result }
        ensures lawful { HasLawfulLife (model_of (D.Drawing.meaning self.now.drawing) self.now.state) }
    {
        self.state.verdict()
    }

    /// The verdict as number, layer and place together, each 0 when fit.
    pub fn verdict(&self) -> (u8, u8, u16)
        ensures numbers { result
            ≡ verdict_numbers
            (verdict_of (model_of (D.Drawing.meaning self.now.drawing) self.now.state)) }
        ensures zero { ZeroWhenFit
            (verdict_of (model_of (D.Drawing.meaning self.now.drawing) self.now.state)) }
        ensures lawful { HasLawfulLife (model_of (D.Drawing.meaning self.now.drawing) self.now.state) }
    {
        fault_numbers(self.refusal().map(Fault::from))
    }

    /// The number that the unit was sealed with.
    pub fn number(&self) -> u32
        ensures { result ≡ (model_of (D.Drawing.meaning self.now.drawing) self.now.state).number }
    {
        self.state.number()
    }

    /// The drawing that was sealed.
    pub fn drawing(&self) -> &D
        ensures { result.now ≡ self.now.drawing }
    {
        &self.drawing
    }

    /// Makes a claim on the unit: one truth of 1 to 64 bytes that sees old values of the module's variables alone. Its mark is open;
    /// the answer is its number, from 0. Refused with what `refusal` tells; with `NotIdle` where a state stands or a round is open;
    /// with `NoRoomForClaim` where there are eight claims; with `WrongClaim` where the bytes are no such truth.
    pub fn claim(&mut self, bytes: &[u8]) -> Result<u8, Refusal>
        ensures answer { answer_of result
            ≡ (claim (model_of (D.Drawing.meaning self.old.drawing) self.old.state) bytes.now).answer }
        ensures unit { model_of (D.Drawing.meaning self.new.drawing) self.new.state
            ≡ (claim (model_of (D.Drawing.meaning self.old.drawing) self.old.state) bytes.now).unit }
        ensures drawing { self.new.drawing ≡ self.old.drawing }
        ensures allowed { Allows (model_of (D.Drawing.meaning self.old.drawing) self.old.state)
            (claim_call bytes.now) (reply_of number_reply (answer_of result))
            (model_of (D.Drawing.meaning self.new.drawing) self.new.state) }
    {
        self.state.claim(&self.drawing, bytes)
    }

    /// Judges the states that bytes list, 32 bytes each and in any order, as a certificate for the claim with this number: states of
    /// the module in which the claim holds, 1 to 2,048 of them, with every initial state and every successor of each. An accepted
    /// certificate marks the claim held; the answer counts the pairs of a state and a choice for each atom yielding it, over initial
    /// states and over the successors of each listed state. Refused, in this order, with what `refusal` tells, with `NoSuchClaim`,
    /// `WrongSize`, `NotAState`, `FalseIn`, `InitialStateMissing`, `SuccessorMissing`; then the unit stays as it was.
    pub fn accept_certificate(&mut self, number: u8, bytes: &[u8]) -> Result<u32, Refusal>
        ensures answer { answer_of result
            ≡ (certify (model_of (D.Drawing.meaning self.old.drawing) self.old.state) number bytes.now).answer }
        ensures accepted { IsOk result
            ↔ Certifies (model_of (D.Drawing.meaning self.old.drawing) self.old.state) number bytes.now }
        ensures unit { model_of (D.Drawing.meaning self.new.drawing) self.new.state
            ≡ (certify (model_of (D.Drawing.meaning self.old.drawing) self.old.state) number bytes.now).unit }
        ensures drawing { self.new.drawing ≡ self.old.drawing }
        ensures allowed { Allows (model_of (D.Drawing.meaning self.old.drawing) self.old.state)
            (certify_call number bytes.now) (reply_of number_reply (answer_of result))
            (model_of (D.Drawing.meaning self.new.drawing) self.new.state) }
    {
        self.state.certify(&self.drawing, number, bytes)
    }

    /// The same, answered as number, layer, place and count together: three times 0 before the count of an accepted certificate, and
    /// 0 for the count of a refused one.
    pub fn certify(&mut self, number: u8, bytes: &[u8]) -> (u8, u8, u16, u32)
        ensures answer { result
            ≡ certify_numbers
            (certify (model_of (D.Drawing.meaning self.old.drawing) self.old.state) number bytes.now).answer }
        ensures unit { model_of (D.Drawing.meaning self.new.drawing) self.new.state
            ≡ (certify (model_of (D.Drawing.meaning self.old.drawing) self.old.state) number bytes.now).unit }
        ensures drawing { self.new.drawing ≡ self.old.drawing }
    {
        match self.accept_certificate(number, bytes) {
            Ok(count) => (0, 0, 0, count),
            Err(refusal) => {
                let fault = Fault::from(refusal);
                (fault.number, fault.layer, fault.place, 0)
            }
        }
    }

    /// Judges the states that bytes list, 32 bytes each, as a run that breaks the claim with this number: 1 to 2,048 states of the
    /// module, the first initial, each later one a successor of the one before, and the claim false in the last. An accepted run
    /// marks the claim broken; the answer is its length. Refused, in this order, with what `refusal` tells, with `NoSuchClaim`,
    /// `WrongSize`, `NotAState`, `NotInitial`, `NotASuccessor`, `TrueInLast`; then the unit stays as it was.
    pub fn refute(&mut self, number: u8, bytes: &[u8]) -> Result<u32, Refusal>
        ensures answer { answer_of result
            ≡ (refute (model_of (D.Drawing.meaning self.old.drawing) self.old.state) number bytes.now).answer }
        ensures accepted { IsOk result
            ↔ Breaks (model_of (D.Drawing.meaning self.old.drawing) self.old.state) number bytes.now }
        ensures unit { model_of (D.Drawing.meaning self.new.drawing) self.new.state
            ≡ (refute (model_of (D.Drawing.meaning self.old.drawing) self.old.state) number bytes.now).unit }
        ensures drawing { self.new.drawing ≡ self.old.drawing }
        ensures allowed { Allows (model_of (D.Drawing.meaning self.old.drawing) self.old.state)
            (refute_call number bytes.now) (reply_of number_reply (answer_of result))
            (model_of (D.Drawing.meaning self.new.drawing) self.new.state) }
    {
        self.state.refute(&self.drawing, number, bytes)
    }
}
