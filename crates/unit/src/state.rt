//! What a unit keeps beside its drawing, from call to call.
ghost use Rattle.std.specs.Prelude.{◌≡◌, true, length};
ghost use Rattle.unit.specs.Phases.{sized};
ghost use Rattle.units.specs.Units.{verdict_with};

use crate::claims::{Claim, Claims, Mark};
use crate::listing::states_in;
use crate::phase::Phase;
use evidence::{judge_certificate, judge_run};
use model::{Drawing, State};
use sealing::{judge, order_of};
use units::Refusal;

/// The state of a unit: the number that it was sealed with, how many rounds were opened, what is wrong with it, whether it was
/// joined with more claims than it can carry, its phase and its claims; and the atoms in the order in which the outcomes of a
/// round are gone through. That it was joined with too many claims is kept whatever else is wrong with it. The order is an
/// array, since 0 is kept at all its places where the unit is unfit.
#[derive(Drop)]
pub struct UnitState {
    number: u32,
    rounds: u32,
    verdict: Option<Refusal>,
    crowded: bool,
    phase: Phase,
    claims: Claims,
    order: [u8; 16],
    ghost whole_states: { sized phase ≡ true },
    ghost whole_order: { length order ≡ 16 },
}

/// A call, as far as the phase of a unit decides whether it is let through.
#[derive(Clone, Copy)]
pub enum Call {
    Claim,
    Certify,
    Refute,
}

// What is wrong with a drawing, or with bringing more than eight claims to it.
fn verdict_with<D: Drawing>(drawing: &D, crowded: bool) -> Option<Refusal>
    ensures { result ≡ verdict_with (D.Drawing.meaning drawing.now) crowded }
{
    judge(drawing).or_else(|| crowded.then(|| Refusal::TooManyClaims))
}

impl UnitState {
    ghost use Rattle.unit.specs.Claims.{claim_of, claims_of, written_claims};
    ghost use Rattle.unit.specs.Invariants.{ClaimsSee, UnitInvariant, order_kept};
    ghost use Rattle.unit.specs.Calls.{ClaimJudged, answer_of, certificate_judged, let_through, phase_refusal, run_judged};
    ghost use Rattle.sealing.specs.Orders.{AtomsInOrder};
    ghost use Rattle.unit.specs.Phases.{phase_of};
    ghost use Rattle.unit.specs.States.{SameButClaims, model_of, new_unit};
    ghost use Rattle.units.specs.Units.{certify, claim, holds, refute, verdict_of};

    /// The state of a unit that is made anew of a drawing and of the claims brought to it, which are left out where it is unfit.
    /// It is idle.
    pub fn new<D: Drawing>(
        drawing: &D,
        number: u32,
        rounds: u32,
        crowded: bool,
        claims: Claims,
    ) -> UnitState
        ensures model { model_of (D.Drawing.meaning drawing.now) result
            ≡ new_unit (D.Drawing.meaning drawing.now) number rounds crowded (claims_of claims) }
        ensures judged { result.verdict ≡ verdict_with (D.Drawing.meaning drawing.now) crowded }
        ensures ordered { result.order ≡ order_kept result.verdict (D.Drawing.meaning drawing.now).outline }
        ensures in_order { result.verdict ≡ None → AtomsInOrder (D.Drawing.meaning drawing.now).outline result.order }
        ensures claims_see { ClaimsSee (D.Drawing.meaning drawing.now) claims
            → ClaimsSee (D.Drawing.meaning drawing.now) result.claims }
    {
        let verdict = verdict_with(drawing, crowded);
        let (claims, order) = match verdict {
            None => (claims, order_of(drawing)),
            Some(_) => (Claims::none(), [0; 16]),
        };
        UnitState {
            number,
            rounds,
            verdict,
            crowded,
            phase: Phase::Idle,
            claims,
            order,
        }
    }

    /// What is wrong with the unit, if anything.
    pub fn verdict(&self) -> Option<Refusal>
        ensures { result ≡ self.now.verdict }
    {
        self.verdict
    }

    /// The number that the unit was sealed with.
    pub fn number(&self) -> u32
        ensures { result ≡ self.now.number }
    {
        self.number
    }

    // Refused with the verdict, where the unit is unfit.
    fn fit(&self) -> Result<(), Refusal>
        ensures { result ≡ let_through self.now.verdict }
    {
        self.verdict.map_or(Ok(()), Err)
    }

    // Which calls each phase lets through, whatever they carry: a claim is made on an idle unit alone, evidence is judged in any phase.
    fn allow(&self, call: Call) -> Result<(), Refusal>
        ensures { result ≡ let_through (phase_refusal call (phase_of self.now.phase)) }
    {
        match (&self.phase, call) {
            (Phase::Idle, Call::Claim) => Ok(()),
            (Phase::Standing { .. } | Phase::InRound { .. }, Call::Claim) => Err(Refusal::NotIdle),
            (_, Call::Certify | Call::Refute) => Ok(()),
        }
    }

    // The claim that the bytes make on the unit.
    fn claim_on<D: Drawing>(&self, drawing: &D, bytes: &[u8]) -> Result<Claim, Refusal>
        requires { self.now.verdict ≡ verdict_of (model_of (D.Drawing.meaning drawing.now) self.now) }
        ensures { ClaimJudged (model_of (D.Drawing.meaning drawing.now) self.now) bytes.now result }
    {
        self.fit()?;
        self.allow(Call::Claim)?;
        if self.claims.is_full() {
            return Err(Refusal::NoRoomForClaim);
        }
        Claim::on(drawing, bytes).ok_or(Refusal::WrongClaim)
    }

    /// Makes a claim on the unit, with its mark open, and answers its number.
    pub fn claim<D: Drawing>(&mut self, drawing: &D, bytes: &[u8]) -> Result<u8, Refusal>
        requires { self.old.verdict ≡ verdict_of (model_of (D.Drawing.meaning drawing.now) self.old) }
        ensures answer { answer_of result ≡ (claim (model_of (D.Drawing.meaning drawing.now) self.old) bytes.now).answer }
        ensures unit { model_of (D.Drawing.meaning drawing.now) self.new
            ≡ (claim (model_of (D.Drawing.meaning drawing.now) self.old) bytes.now).unit }
        ensures others { SameButClaims self.old self.new }
        ensures claims_see { ClaimsSee (D.Drawing.meaning drawing.now) self.old.claims
            → ClaimsSee (D.Drawing.meaning drawing.now) self.new.claims }
    {
        let claim = self.claim_on(drawing, bytes)?;
        Ok(self.claims.add(claim))
    }

    // The count that the states, as a certificate, are answered with.
    fn certificate_count<D: Drawing>(
        &self,
        drawing: &D,
        number: u8,
        bytes: &[u8],
    ) -> Result<u32, Refusal>
        requires { UnitInvariant (D.Drawing.meaning drawing.now) self.now }
        ensures { result ≡ certificate_judged (model_of (D.Drawing.meaning drawing.now) self.now) number bytes.now }
    {
        self.fit()?;
        self.allow(Call::Certify)?;
        let claim = self.claims.get(number).ok_or(Refusal::NoSuchClaim)?;
        let states = states_in(bytes).ok_or(Refusal::WrongSize)?;
        judge_certificate(
            drawing,
            &self.order,
            states,
            |state: State| -> bool
                ensures { result ≡ holds (claim_of claim.entry.now) state }
            { claim.holds(state) },
        )
    }

    // The length of the states as a run that breaks the claim.
    fn run_length<D: Drawing>(&self, drawing: &D, number: u8, bytes: &[u8]) -> Result<u32, Refusal>
        requires { UnitInvariant (D.Drawing.meaning drawing.now) self.now }
        ensures { result ≡ run_judged (model_of (D.Drawing.meaning drawing.now) self.now) number bytes.now }
    {
        self.fit()?;
        self.allow(Call::Refute)?;
        let claim = self.claims.get(number).ok_or(Refusal::NoSuchClaim)?;
        let states = states_in(bytes).ok_or(Refusal::WrongSize)?;
        judge_run(
            drawing,
            states,
            |state: State| -> bool
                ensures { result ≡ holds (claim_of claim.entry.now) state }
            { claim.holds(state) },
        )
    }

    /// Judges states as a certificate for the claim with this number, marks it held, and answers the count.
    pub fn certify<D: Drawing>(
        &mut self,
        drawing: &D,
        number: u8,
        bytes: &[u8],
    ) -> Result<u32, Refusal>
        requires { UnitInvariant (D.Drawing.meaning drawing.now) self.old }
        ensures answer { answer_of result ≡ (certify (model_of (D.Drawing.meaning drawing.now) self.old) number bytes.now).answer }
        ensures unit { model_of (D.Drawing.meaning drawing.now) self.new
            ≡ (certify (model_of (D.Drawing.meaning drawing.now) self.old) number bytes.now).unit }
        ensures others { SameButClaims self.old self.new }
        ensures written { written_claims self.new.claims ≡ written_claims self.old.claims }
    {
        let count = self.certificate_count(drawing, number, bytes)?;
        self.claims.mark(number, Mark::Held);
        Ok(count)
    }

    /// Judges states as a run that breaks the claim with this number, marks it broken, and answers the run's length.
    pub fn refute<D: Drawing>(
        &mut self,
        drawing: &D,
        number: u8,
        bytes: &[u8],
    ) -> Result<u32, Refusal>
        requires { UnitInvariant (D.Drawing.meaning drawing.now) self.old }
        ensures answer { answer_of result ≡ (refute (model_of (D.Drawing.meaning drawing.now) self.old) number bytes.now).answer }
        ensures unit { model_of (D.Drawing.meaning drawing.now) self.new
            ≡ (refute (model_of (D.Drawing.meaning drawing.now) self.old) number bytes.now).unit }
        ensures others { SameButClaims self.old self.new }
        ensures written { written_claims self.new.claims ≡ written_claims self.old.claims }
    {
        let length = self.run_length(drawing, number, bytes)?;
        self.claims.mark(number, Mark::Broken);
        Ok(length)
    }
}
