//! Renaming, hiding and joining of modules, and what these keep. Each function does nothing and stands for a theorem, its
//! contract, so that no check passes without the theorem's proof.
#![tactic(auto)]

ghost use Rattle.composition.specs.Statements.{FaultsOfJoins, SoundExactlyWhereAllowed, JoinsHoldBothParts, StatesOfJoins, RoundsOfJoins, JoinsProjectToTheirParts, JoinsCommute, JoinsAssociate, RenamingPutsOneNameForAnother, RoundsOfRenamedModules, RenamingKeepsWhatIsReachable, RenamingBackUndoesRenaming, HidingKeepsRounds, HidingKeepsWhatIsReachable};

/// Which fault a join has, and where.
pub fn faults_of_joins()
    ensures { FaultsOfJoins }
{}

/// A rename, a hide or a join has no fault exactly where it is allowed.
pub fn sound_where_allowed()
    ensures { SoundExactlyWhereAllowed }
{}

/// A join has the variables and the atoms of both parts.
pub fn joins_hold_both()
    ensures { JoinsHoldBothParts }
{}

/// A join's states are those whose projections are states of the parts.
pub fn states_of_joins()
    ensures { StatesOfJoins }
{}

/// A join's rounds are rounds of both parts.
pub fn rounds_of_joins()
    ensures { RoundsOfJoins }
{}

/// A join's trajectories project to trajectories of its parts.
pub fn joins_project()
    ensures { JoinsProjectToTheirParts }
{}

/// A join in the other order answers alike, its atoms numbered the other way about.
pub fn joins_commute()
    ensures { JoinsCommute }
{}

/// Three modules joined in either grouping answer alike.
pub fn joins_associate()
    ensures { JoinsAssociate }
{}

/// Renaming puts one name for another in all that speaks of names, and nowhere else.
pub fn renaming_puts()
    ensures { RenamingPutsOneNameForAnother }
{}

/// A renamed module's rounds are the module's, with the two values exchanged.
pub fn rounds_of_renamed()
    ensures { RoundsOfRenamedModules }
{}

/// A renamed module's reachable states are the module's, with the two values exchanged.
pub fn renaming_keeps_reachable()
    ensures { RenamingKeepsWhatIsReachable }
{}

/// Renaming back undoes a rename.
pub fn renaming_back()
    ensures { RenamingBackUndoesRenaming }
{}

/// Hiding changes no round.
pub fn hiding_keeps_rounds()
    ensures { HidingKeepsRounds }
{}

/// Hiding changes no reachable state.
pub fn hiding_keeps_reachable()
    ensures { HidingKeepsWhatIsReachable }
{}
