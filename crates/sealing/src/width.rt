//! The width, the product of the external names' values and of each atom's larger choice count, is at most 1,048,576.
ghost use Rattle.std.specs.Prelude.{◌≡◌, min};
ghost use Rattle.sealing.specs.Factors.{external_values, larger_count};
ghost use Rattle.units.specs.Counting.{product};
ghost use Rattle.units.specs.Sealing.{too_wide, if_so};
ghost use Rattle.units.specs.declared.refusal.Refusal.TheVariants.{TooWide};

use crate::products::{product_below, times, values};
use model::{Drawing, Kind, Outline, Round};
use units::Refusal;

// How wide a drawing may be, and one more.
const MOST: u64 = 1_048_576;

const TOO_MANY: u64 = MOST + 1;

// The product of the external names' values, or one more than may be where it is more.
fn outer_width<D: Outline>(drawing: &D) -> u64
    ensures { result ≡ min (product (external_values (D.Outline.outline drawing.now)) 32) 1048577 }
{
    product_below(32, TOO_MANY, |name| {
        let external = drawing.kind(name) == Some(Kind::External);
        values(external, drawing.top(name))
    })
}

// The larger of the atom's two choice counts.
fn larger_count<D: Drawing>(drawing: &D, atom: u8) -> u64
    ensures { result ≡ larger_count (D.Drawing.meaning drawing.now) atom }
{
    let first = drawing.choices(Round::Initial, atom);
    let later = drawing.choices(Round::Update, atom);
    first.max(later) as u64
}

// The product of the atoms' larger choice counts, or one more than may be where it is more.
fn inner_width<D: Drawing>(drawing: &D) -> u64
    ensures { result ≡ min (product (larger_count (D.Drawing.meaning drawing.now)) (D.Outline.outline drawing.now).atoms) 1048577 }
{
    product_below(
        drawing.atoms(),
        TOO_MANY,
        |atom| larger_count(drawing, atom),
    )
}

// Is the width more than 1,048,576?
fn too_wide<D: Drawing>(drawing: &D) -> bool
    ensures { result ≡ too_wide (D.Drawing.meaning drawing.now) }
{
    times(outer_width(drawing), inner_width(drawing), TOO_MANY) > MOST
}

/// The refusal of a drawing whose width is more than 1,048,576.
pub fn width_refusal<D: Drawing>(drawing: &D) -> Option<Refusal>
    ensures { result ≡ if_so TooWide (too_wide (D.Drawing.meaning drawing.now)) }
{
    too_wide(drawing).then_some(Refusal::TooWide)
}
