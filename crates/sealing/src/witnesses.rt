//! Values at which an atom fails, for words about a verdict. All values that the atom sees are gone through, so nothing is looked
//! for where they are too many.
ghost use Rattle.sealing.specs.Witnesses.{witness_where_few, WitnessWhereFew};
ghost use Rattle.sealing.specs.declared.query.Failure.TheVariants.{NothingOpen, GivesOutside};
ghost use Rattle.std.specs.Prelude.{◌≡◌};

use crate::atom_in_round::first_witness;
use crate::query::Failure;
use crate::seen_values::sees_too_much;
use crate::witness::Witness;
use model::{Drawing, Outline};

fn witness_where_few<D: Drawing>(drawing: &D, failure: Failure, atom: u8) -> Option<Witness>
    ensures first { result ≡ witness_where_few (D.Outline.outline drawing.now) (D.Drawing.meaning drawing.now)
        failure atom }
    ensures shown { WitnessWhereFew (D.Outline.outline drawing.now) (D.Drawing.meaning drawing.now)
        failure atom result }
{
    if sees_too_much(drawing, atom) {
        return None;
    }
    first_witness(drawing, failure, atom)
}

/// The first values in range of what the atom sees at which it has no open choice; None where it nowhere gets stuck, or where it
/// sees more than 65,536 values.
pub fn stuck_at<D: Drawing>(drawing: &D, atom: u8) -> Option<Witness>
    ensures first { result ≡ witness_where_few (D.Outline.outline drawing.now) (D.Drawing.meaning drawing.now)
        NothingOpen atom }
    ensures shown { WitnessWhereFew (D.Outline.outline drawing.now) (D.Drawing.meaning drawing.now)
        NothingOpen atom result }
{
    witness_where_few(drawing, Failure::NothingOpen, atom)
}

/// The first values in range of what the atom sees at which an open choice gives a value out of range; None where it nowhere does,
/// or where it sees more than 65,536 values.
pub fn outside_at<D: Drawing>(drawing: &D, atom: u8) -> Option<Witness>
    ensures first { result ≡ witness_where_few (D.Outline.outline drawing.now) (D.Drawing.meaning drawing.now)
        GivesOutside atom }
    ensures shown { WitnessWhereFew (D.Outline.outline drawing.now) (D.Drawing.meaning drawing.now)
        GivesOutside atom result }
{
    witness_where_few(drawing, Failure::GivesOutside, atom)
}
