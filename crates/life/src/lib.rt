//! The rules of a unit's calls, the histories that they make, and the law that holds of every unit in any of them. Each function here
//! does nothing, and exists so that its contract names a theorem: the gate then asks for the proof.
#![tactic(auto)]

ghost use Rattle.life.specs.Promises.{TheRulesSayWhatCallsDo, TheRulesSayWhatPilesAre, HistoriesAreLives, EveryHistoryIsLawful, LivesAreLawful};

/// Each call by its definition answers and leaves what the rules allow, and they allow nothing else.
pub fn the_rules_say_what_calls_do()
    ensures { TheRulesSayWhatCallsDo }
{}

/// So it is with sealing, and with renaming, hiding and joining units.
pub fn the_rules_say_what_piles_are()
    ensures { TheRulesSayWhatPilesAre }
{}

/// The histories by the rules are those that the definitions make.
pub fn histories_are_lives()
    ensures { HistoriesAreLives }
{}

/// In any history, every unit is lawful: its marks are true of its published module, the states that stood are a trajectory of it, and
/// evidence can be had.
pub fn every_history_is_lawful()
    ensures { EveryHistoryIsLawful }
{}

/// What a type keeps of a unit, that it can have come from the site, gives a lawful life.
pub fn lives_are_lawful()
    ensures { LivesAreLawful }
{}
