//! What expressions are worth at old and new values. Each function makes its own evaluator: of values that it is passed it knows
//! that they are bytes. Both stay out of line: a question goes down a pile layer by layer, and would else keep room for them on the stack
//! at each.
ghost use Rattle.std.specs.Prelude.{◌≡◌};
ghost use Rattle.expression.specs.Evaluation.{evaluated_number, evaluated_truth, NumberEvaluated, TruthEvaluated};

use crate::evaluator::Evaluator;
use crate::operators::LEVELS;
use model::State;

/// What a right number is worth at these values; 0 if the bytes are no right number, whatever names are seen.
#[inline(never)]
pub fn number_value(bytes: &[u8], old: State, new: State) -> i16
    ensures evaluated { result ≡ evaluated_number bytes.now old new }
    ensures means { NumberEvaluated bytes.now old new result }
{
    let evaluator = Evaluator {
        bytes,
        old: &old,
        new: &new,
        levels: LEVELS,
    };
    evaluator.whole_number()
}

/// Whether a right truth holds at these values; false if the bytes are no right truth, whatever names are seen.
#[inline(never)]
pub fn truth_value(bytes: &[u8], old: State, new: State) -> bool
    ensures evaluated { result ≡ evaluated_truth bytes.now old new }
    ensures means { TruthEvaluated bytes.now old new result }
{
    let evaluator = Evaluator {
        bytes,
        old: &old,
        new: &new,
        levels: LEVELS,
    };
    evaluator.whole_truth()
}
