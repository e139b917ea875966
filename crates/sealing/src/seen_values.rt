//! The values that an atom sees are at most 65,536; a name that it both reads and awaits counts twice.
ghost use Rattle.std.specs.Prelude.{◌≡◌};
ghost use Rattle.sealing.specs.Factors.{seen_values};
ghost use Rattle.model.specs.Tests.{lowest};
ghost use Rattle.units.specs.Sealing.{sees_too_much, at_lowest};
ghost use Rattle.units.specs.declared.refusal.Refusal.TheVariants.{SeesTooMuch};

use crate::products::{product_below, values};
use model::{Outline, lowest_below};
use units::Refusal;

// How many values an atom may see.
const MOST: u64 = 65_536;

// How many values the atom sees of one name. An atom goes by its number beside its drawing, here and in the questions of a drawing:
// a struct of both would be made for one call, and taken apart in each clause.
fn values_seen<D: Outline>(drawing: &D, atom: u8, name: u8) -> u64
    ensures { result ≡ seen_values (D.Outline.outline drawing.now) atom name }
{
    let top = drawing.top(name);
    values(drawing.reads(atom).has(name), top) * values(drawing.awaits(atom).has(name), top)
}

/// Does the atom see more than 65,536 values?
pub fn sees_too_much<D: Outline>(drawing: &D, atom: u8) -> bool
    ensures { result ≡ sees_too_much (D.Outline.outline drawing.now) atom }
{
    product_below(32, MOST + 1, |name| values_seen(drawing, atom, name)) > MOST
}

// The lowest atom that sees more than 65,536 values.
fn lowest_sees_too_much<D: Outline>(drawing: &D) -> Option<u8>
    ensures { result ≡ lowest (sees_too_much (D.Outline.outline drawing.now))
        (D.Outline.outline drawing.now).atoms }
{
    lowest_below(drawing.atoms(), |atom| sees_too_much(drawing, atom))
}

/// The refusal of the lowest atom that sees more than 65,536 values.
pub fn sight_refusal<D: Outline>(drawing: &D) -> Option<Refusal>
    ensures { result ≡ at_lowest SeesTooMuch (lowest (sees_too_much (D.Outline.outline drawing.now))
        (D.Outline.outline drawing.now).atoms) }
{
    lowest_sees_too_much(drawing).map(|atom| Refusal::SeesTooMuch { atom })
}
