//! At all values in range of what it sees, each atom has an open choice, and what an open one gives is in range.
ghost use Rattle.std.specs.Prelude.{◌≡◌, ℕ, ◌<◌, false};
ghost use Rattle.model.specs.Tests.{lowest};
ghost use Rattle.sealing.specs.Witnesses.{test_of};
ghost use Rattle.units.specs.Sealing.{in_some_round, gets_stuck, leaves_range, at_lowest, ◌else◌};
ghost use Rattle.units.specs.declared.refusal.Refusal.TheVariants.{GetsStuck, LeavesRange};

use crate::atom_in_round::first_witness;
use crate::query::Failure;
use model::{Drawing, Outline, lowest_below};
use units::Refusal;

// Does the atom fail so at some values in range of what it sees?
fn fails<D: Drawing>(drawing: &D, failure: Failure, atom: u8) -> bool
    ensures { result ≡ in_some_round (D.Drawing.meaning drawing.now) (test_of failure) atom }
{
    first_witness(drawing, failure, atom).is_some()
}

// The lowest atom that fails so at some values in range of what it sees.
fn lowest_failing<D: Drawing>(drawing: &D, failure: Failure) -> Option<u8>
    ensures { result ≡ lowest (in_some_round (D.Drawing.meaning drawing.now) (test_of failure))
        (D.Outline.outline drawing.now).atoms }
{
    lowest_below(drawing.atoms(), |atom| fails(drawing, failure, atom))
}

// The lowest atom that gets stuck, where none below the given one does.
fn lowest_stuck_from<D: Drawing>(drawing: &D, from: u8) -> Option<u8>
    requires { (k : ℕ) → k < from → gets_stuck (D.Drawing.meaning drawing.now) k ≡ false }
    ensures { result ≡ lowest (gets_stuck (D.Drawing.meaning drawing.now))
        (D.Outline.outline drawing.now).atoms }
{
    lowest_below(
        drawing.atoms(),
        |atom| atom >= from && fails(drawing, Failure::NothingOpen, atom),
    )
}

/// The refusal of the lowest atom that gets stuck, or else of the lowest that leaves its range. All values are gone through once
/// for both, but for those of the first atom that fails: no atom below it gets stuck.
pub fn failure_refusal<D: Drawing>(drawing: &D) -> Option<Refusal>
    ensures { result ≡ (at_lowest GetsStuck (lowest (gets_stuck (D.Drawing.meaning drawing.now))
        (D.Outline.outline drawing.now).atoms)
        else at_lowest LeavesRange (lowest (leaves_range (D.Drawing.meaning drawing.now))
        (D.Outline.outline drawing.now).atoms)) }
{
    let first = lowest_failing(drawing, Failure::Either)?;
    lowest_stuck_from(drawing, first)
        .map(|atom| Refusal::GetsStuck { atom })
        .or(Some(Refusal::LeavesRange { atom: first }))
}
