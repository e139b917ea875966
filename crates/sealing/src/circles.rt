//! No atom awaits itself, directly or through others. The atoms that await a given one are gathered step by step:
//! first those that await it directly, then those that do so through at most one other, and so on.
ghost use Rattle.std.specs.Prelude.{◌≡◌, ℕ, ◌&&◌, nat_lt};
ghost use Rattle.sealing.specs.Awaits.{direct, leads_to, reaches};
ghost use Rattle.model.specs.Sets.{has};
ghost use Rattle.model.specs.Tests.{lowest};
ghost use Rattle.units.specs.Sealing.{circular, at_lowest};
ghost use Rattle.units.specs.declared.refusal.Refusal.TheVariants.{AwaitsItself};

use crate::await_table::AwaitTable;
use model::{Atoms, Drawing, Outline, any_below, lowest_below};
use units::Refusal;

// Does the atom await the goal, directly or through one of those behind?
fn leads_to(table: &AwaitTable, behind: &Atoms, goal: u8, atom: u8) -> bool
    ensures { result ≡ leads_to (direct table.now) table.now.atoms (has behind.now) goal atom }
{
    table.awaits(atom, goal)
        || any_below(
            table.atoms(),
            |other| table.awaits(atom, other) && behind.has(other),
        )
}

// The atoms that await the goal directly or through one of those behind.
fn one_more(table: &AwaitTable, behind: &Atoms, goal: u8) -> Atoms
    ensures { (a : ℕ) → has result a ≡ (nat_lt a table.now.atoms
        && leads_to (direct table.now) table.now.atoms (has behind.now) goal a) }
{
    Atoms::gather(|atom| atom < table.atoms() && leads_to(table, behind, goal, atom))
}

// The atoms that await the goal, directly or through others.
fn all_behind(table: &AwaitTable, goal: u8) -> Atoms
    ensures { (a : ℕ) → has result a ≡ (nat_lt a table.now.atoms
        && reaches (direct table.now) table.now.atoms table.now.atoms a goal) }
{
    let mut behind = one_more(table, &Atoms::none(), goal);
    for _others in 0..table.atoms() {
        behind = one_more(table, &behind, goal);
    }
    behind
}

fn is_circular(table: &AwaitTable, atom: u8) -> bool
    ensures { result ≡ (nat_lt atom table.now.atoms
        && reaches (direct table.now) table.now.atoms table.now.atoms atom atom) }
{
    all_behind(table, atom).has(atom)
}

// The lowest atom that awaits itself, directly or through others.
fn lowest_circular<D: Drawing>(drawing: &D) -> Option<u8>
    ensures { result ≡ lowest (circular (D.Outline.outline drawing.now))
        (D.Outline.outline drawing.now).atoms }
{
    let table = AwaitTable::of(drawing);
    lowest_below(table.atoms(), |atom| is_circular(&table, atom))
}

/// The refusal of the lowest atom that awaits itself, directly or through others.
pub fn circle_refusal<D: Drawing>(drawing: &D) -> Option<Refusal>
    ensures { result ≡ at_lowest AwaitsItself (lowest (circular (D.Outline.outline drawing.now))
        (D.Outline.outline drawing.now).atoms) }
{
    lowest_circular(drawing).map(|atom| Refusal::AwaitsItself { atom })
}
