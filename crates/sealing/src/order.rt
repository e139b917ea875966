//! The order is made place by place: the next atom is the lowest that is not placed yet, though all that it awaits are.
ghost use Rattle.std.specs.Prelude.{◌≡◌, length};
ghost use Rattle.sealing.specs.Awaits.{direct};
ghost use Rattle.model.specs.Sets.{has};
ghost use Rattle.model.specs.Tests.{lowest};
ghost use Rattle.sealing.specs.Orders.{InOrder, AtomsInOrder, NoneCircular, ZerosFrom, ready, NeverStuck};
ghost use Rattle.sealing.specs.Orders.{first_atoms, in_sixteen, atom_order};

use crate::await_table::AwaitTable;
use model::{Atoms, Drawing, any_below, lowest_below};

// Is the atom not placed yet, and does it await none that is not?
fn is_ready(table: &AwaitTable, placed: &Atoms, atom: u8) -> bool
    ensures { result ≡ ready (direct table.now) table.now.atoms (has placed.now) atom }
{
    !placed.has(atom)
        && !any_below(
            table.atoms(),
            |other| table.awaits(atom, other) && !placed.has(other),
        )
}

// The lowest atom that can be placed next.
fn next(table: &AwaitTable, placed: &Atoms) -> Option<u8>
    ensures { result ≡ lowest (ready (direct table.now) table.now.atoms (has placed.now))
        table.now.atoms }
{
    lowest_below(table.atoms(), |atom| is_ready(table, placed, atom))
}

// The atoms place by place, in an array of sixteen, as a unit keeps it. The places are counted: with `iter_mut().take(..)` the proof
// knows nothing of the array in the loop, which it returns there too.
fn order_by(table: &AwaitTable) -> [u8; 16]
    ensures long { length result ≡ 16 }
    ensures pinned { result ≡ in_sixteen (first_atoms (direct table.now) table.now.atoms table.now.atoms) }
    ensures ordered { NeverStuck (direct table.now) table.now.atoms →
        InOrder (direct table.now) table.now.atoms result }
    ensures rest { ZerosFrom table.now.atoms result }
{
    let mut order = [0; 16];
    let mut placed = Atoms::none();
    for place in 0..table.atoms() {
        let Some(atom) = next(table, &placed) else {
            return order;
        };
        order[place as usize] = atom;
        placed = placed.with(atom);
    }
    order
}

/// The drawing's atoms place by place, at each the lowest that awaits none but those before it; behind them stand zeros. Where no atom
/// awaits itself, directly or through others, all stand there, each after those that it awaits.
pub fn order_of<D: Drawing>(drawing: &D) -> [u8; 16]
    ensures long { length result ≡ 16 }
    ensures pinned { result ≡ atom_order (D.Drawing.meaning drawing.now).outline }
    ensures ordered { NoneCircular (D.Drawing.meaning drawing.now).outline →
        AtomsInOrder (D.Drawing.meaning drawing.now).outline result }
    ensures rest { ZerosFrom (D.Drawing.meaning drawing.now).outline.atoms result }
{
    order_by(&AwaitTable::of(drawing))
}
