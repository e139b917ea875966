//! Theorems on meanings. Each function does nothing and stands for a theorem, its contract, so that no check passes without the
//! theorem's proof.
ghost use Rattle.model.specs.Statements.{MeaningsAreOutlinesAndChoices};

/// What a drawing means is its outline and its choices.
pub fn meanings_are_outlines_and_choices()
    ensures { MeaningsAreOutlinesAndChoices }
{}
