//! The general theory of what a transition system reaches, and of counting by lists without repetition. Each function
//! does nothing and stands for a theorem, its contract, so that no check passes without the theorem's proof.
#![tactic(auto)]

ghost use Rattle.theory.specs.Statements.{CertificatesAreSound, FalsifyingRunsAreSound, RepeatsCanBeCut, CountsAreUnique, EvidenceAlwaysExists, SimulationsKeepRuns, EnumerationsAreExact};

pub fn certificates_are_sound()
    ensures { CertificatesAreSound }
{}

pub fn falsifying_runs_are_sound()
    ensures { FalsifyingRunsAreSound }
{}

pub fn repeats_can_be_cut()
    ensures { RepeatsCanBeCut }
{}

pub fn counts_are_unique()
    ensures { CountsAreUnique }
{}

pub fn evidence_always_exists()
    ensures { EvidenceAlwaysExists }
{}

pub fn simulations_keep_runs()
    ensures { SimulationsKeepRuns }
{}

pub fn enumerations_are_exact()
    ensures { EnumerationsAreExact }
{}
