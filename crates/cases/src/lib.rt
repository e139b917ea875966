//! Worked cases, proved on the definitions. Each function does nothing, and exists so that its contract names a theorem.
#![tactic(auto)]

ghost use Rattle.cases.specs.Statements.{WorkedCasesComeOut, TwoBytesAreNotTooMuch, BrokenOnAPartHeldOnTheJoin};

pub fn worked_cases_come_out()
    ensures { WorkedCasesComeOut }
{}

pub fn two_bytes_are_not_too_much()
    ensures { TwoBytesAreNotTooMuch }
{}

pub fn broken_need_not_survive_a_join()
    ensures { BrokenOnAPartHeldOnTheJoin }
{}
