//! What units are and what they promise: definitions and their theory; and what calls on units refuse. Each function of this file
//! does nothing, and exists so that its contract names a theorem: the gate then asks for the proof.
#![tactic(auto)]

ghost use Rattle.units.specs.Promises.{CertificatesAreJudgedRightly, RunsAreJudgedRightly, AcceptedCertificatesHold, AcceptedRunsBreak, EvidenceExistsForEveryTest, TheCountIsUnique, ChoicesDependOnWhatTheySee, EveryUnitFromTheSiteIsSound};
ghost use Rattle.units.specs.Rounds.{RoundsEndOnlyInOutcomes, RoundsReachEveryOutcome};

mod refusal;

pub use refusal::Refusal;

pub fn certificates_are_judged_rightly()
    ensures { CertificatesAreJudgedRightly }
{}

pub fn runs_are_judged_rightly()
    ensures { RunsAreJudgedRightly }
{}

pub fn accepted_certificates_hold()
    ensures { AcceptedCertificatesHold }
{}

pub fn accepted_runs_break()
    ensures { AcceptedRunsBreak }
{}

pub fn evidence_exists_for_every_test()
    ensures { EvidenceExistsForEveryTest }
{}

pub fn the_count_is_unique()
    ensures { TheCountIsUnique }
{}

pub fn choices_depend_on_what_they_see()
    ensures { ChoicesDependOnWhatTheySee }
{}

pub fn every_unit_from_the_site_is_sound()
    ensures { EveryUnitFromTheSiteIsSound }
{}

pub fn rounds_end_only_in_outcomes()
    ensures { RoundsEndOnlyInOutcomes }
{}

pub fn rounds_reach_every_outcome()
    ensures { RoundsReachEveryOutcome }
{}
