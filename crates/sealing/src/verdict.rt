//! The verdict: what the first check refuses that finds something, at the lowest name or atom. What an atom does at all values that
//! it sees is looked at only where they are few enough.
ghost use Rattle.std.specs.Prelude.{◌≡◌};
ghost use Rattle.units.specs.Sealing.{of_drawing, verdict};

use crate::circles::circle_refusal;
use crate::control::control_refusal;
use crate::failures::failure_refusal;
use crate::seen_values::sight_refusal;
use crate::width::width_refusal;
use model::{Drawing, Outline};
use units::Refusal;

// What is wrong with the drawing itself.
fn fault_refusal<D: Outline>(drawing: &D) -> Option<Refusal>
    ensures { result ≡ of_drawing (D.Outline.outline drawing.now).fault }
{
    drawing.fault().map(|fault| Refusal::FaultyDrawing(fault))
}

/// Why the drawing cannot be sealed as a fit unit: its own fault, or the first of the checks that refuses it; None where it is fit.
pub fn judge<D: Drawing>(drawing: &D) -> Option<Refusal>
    ensures { result ≡ verdict (D.Drawing.meaning drawing.now) }
{
    fault_refusal(drawing)
        .or_else(|| control_refusal(drawing))
        .or_else(|| circle_refusal(drawing))
        .or_else(|| sight_refusal(drawing))
        .or_else(|| failure_refusal(drawing))
        .or_else(|| width_refusal(drawing))
}
