//! Reactive modules, and how the modules of drawings answer to their definition. Each function does nothing and stands for a
//! theorem, its contract, so that no check passes without the theorem's proof.
#![tactic(auto)]

ghost use Rattle.reactive.specs.Statements.{FitExactlyWhenAModuleWithinLimits, DrawingsHaveFiniteTypes, LimitsAreJudgedRightly, TheCountIsOfOutcomes, StatesAreThePublishedOnes, JoinsAreCompositions, RenamesAreRenamings, HidesAreHidings, OperationsAreJudgedRightly, FitUnitsHaveAnOrder, FitUnitsCompleteEveryRound, FitUnitsHaveAnInitialState};
ghost use Rattle.reactive.specs.FitUnits.{UnitsAreFitExactlyWhenModulesWithinLimits};
ghost use Rattle.reactive.specs.Joins.{JoinsAreRefusedAsPublished};
ghost use Rattle.reactive.specs.Rounds.{RoundsEndAsTheModuleMay, RoundsLeadWhereverTheModuleMay};
ghost use Rattle.reactive.specs.Runs.{TrajectoriesAreThePublishedOnes, ReachableStatesCanBeListed};
ghost use Rattle.reactive.specs.Theorems.{CompatibleModulesCompose, CompositionsMoveAsBoth, RenamedModulesAreModules, HiddenModulesAreModules, EveryModuleHasAnOrder, EveryOrderLeadsTheSame, EveryRoundCanBeCompleted};
ghost use Rattle.reactive.specs.Piles.{JoinsAreMadeOfParts, RenamesAreMadeOfParts, HidesAreMadeOfParts};

// Theorems of reactive modules

/// The composition of compatible modules is a module.
pub fn compatible_modules_compose()
    ensures { CompatibleModulesCompose }
{}

/// The states, initial states and successors of a composition are those that both modules have.
pub fn compositions_move_as_both()
    ensures { CompositionsMoveAsBoth }
{}

/// With a variable renamed to a name that is none, a module is a module.
pub fn renamed_modules_are_modules()
    ensures { RenamedModulesAreModules }
{}

/// With a variable hidden, a module is a module.
pub fn hidden_modules_are_modules()
    ensures { HiddenModulesAreModules }
{}

/// The atoms of a module can be put into a consistent order.
pub fn every_module_has_an_order()
    ensures { EveryModuleHasAnOrder }
{}

/// A round leads to the same along every consistent order: where the actions together lead.
pub fn every_order_leads_the_same()
    ensures { EveryOrderLeadsTheSame }
{}

/// Every round of a module can be completed, whatever its external variables are given.
pub fn every_round_can_be_completed()
    ensures { EveryRoundCanBeCompleted }
{}

// Drawings and the modules that they mean

/// States, initial states, successors and trajectories of a drawing are those of its module.
pub fn states_are_the_published_ones()
    ensures { StatesAreThePublishedOnes }
{}

/// Trajectories of rows and trajectories of the module agree on the module's variables, and what is reachable is the same.
pub fn trajectories_are_the_published_ones()
    ensures { TrajectoriesAreThePublishedOnes }
{}

/// The reachable states of a drawing, as rows, can be listed.
pub fn reachable_states_can_be_listed()
    ensures { ReachableStatesCanBeListed }
{}

/// The count of a certificate is how many outcomes there are.
pub fn the_count_is_of_outcomes()
    ensures { TheCountIsOfOutcomes }
{}

/// Each variable of a drawing has some values, and finitely many.
pub fn drawings_have_finite_types()
    ensures { DrawingsHaveFiniteTypes }
{}

// Which drawings and units are fit

/// A drawing is fit exactly when nothing is wrong with it, its module is a reactive module, and it stays within the limits.
pub fn fit_units_are_modules()
    ensures { FitExactlyWhenAModuleWithinLimits }
{}

/// What sealing multiplies and compares with the limits is how many combinations an atom sees, and in how many ways a round can go.
pub fn limits_are_judged_rightly()
    ensures { LimitsAreJudgedRightly }
{}

/// When a unit is fit that is sealed, or made of others by a rename, a hide or a join, with the claims that are brought.
pub fn units_are_fit_exactly_when_modules_within_limits()
    ensures { UnitsAreFitExactlyWhenModulesWithinLimits }
{}

/// Which joins of modules are refused, and with what: the published conditions on composition.
pub fn joins_are_refused_as_published()
    ensures { JoinsAreRefusedAsPublished }
{}

/// A join, rename or hide without fault is fit exactly when the composed, renamed or hidden module is one within the limits.
pub fn operations_are_judged_rightly()
    ensures { OperationsAreJudgedRightly }
{}

/// The atoms of a fit drawing can be put into a consistent order.
pub fn fit_units_have_an_order()
    ensures { FitUnitsHaveAnOrder }
{}

/// A fit drawing never gets stuck.
pub fn fit_units_complete_every_round()
    ensures { FitUnitsCompleteEveryRound }
{}

/// A fit drawing has an initial state.
pub fn fit_units_have_an_initial_state()
    ensures { FitUnitsHaveAnInitialState }
{}

// Rounds of units

/// An end that is accepted leaves an initial state of the module, or a successor of the one that stood.
pub fn rounds_end_as_the_module_may()
    ensures { RoundsEndAsTheModuleMay }
{}

/// From a fit unit that may open a round, accepted calls lead to each state that may come next.
pub fn rounds_lead_wherever_the_module_may()
    ensures { RoundsLeadWhereverTheModuleMay }
{}

// Joins, renames and hides

/// The module of a join without fault is the composition of the modules of its parts.
pub fn joins_are_compositions()
    ensures { JoinsAreCompositions }
{}

/// The module of a rename without fault is the renamed module.
pub fn renames_are_renamings()
    ensures { RenamesAreRenamings }
{}

/// The module of a hide without fault is the module with the name hidden.
pub fn hides_are_hidings()
    ensures { HidesAreHidings }
{}

/// A join's initial states and successors are those of both parts, in either order and grouping.
pub fn joins_are_made_of_parts()
    ensures { JoinsAreMadeOfParts }
{}

/// A rename's initial states and successors are the module's with the values of the two names exchanged.
pub fn renames_are_made_of_parts()
    ensures { RenamesAreMadeOfParts }
{}

/// A hide's initial states and successors are the module's.
pub fn hides_are_made_of_parts()
    ensures { HidesAreMadeOfParts }
{}
