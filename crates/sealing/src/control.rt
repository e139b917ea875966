//! Each private or interface name is controlled by exactly one atom.
ghost use Rattle.model.specs.Tests.{lowest};
ghost use Rattle.units.specs.Sealing.{controllers, badly_controlled, at_lowest};
ghost use Rattle.units.specs.declared.refusal.Refusal.TheVariants.{NotOneController};
ghost use Rattle.std.specs.Prelude.{◌≡◌};

use model::{Kind, Outline, count_below, lowest_below};
use units::Refusal;

// How many atoms control the name.
fn count_controllers<D: Outline>(drawing: &D, name: u8) -> u8
    ensures { result ≡ controllers (D.Outline.outline drawing.now) name }
{
    count_below(drawing.atoms(), |atom| drawing.controls(atom).has(name))
}

fn is_badly_controlled<D: Outline>(drawing: &D, name: u8) -> bool
    ensures { result ≡ badly_controlled (D.Outline.outline drawing.now) name }
{
    matches!(drawing.kind(name), Some(Kind::Private | Kind::Interface))
        && count_controllers(drawing, name) != 1
}

// The lowest private or interface name that not exactly one atom controls.
fn lowest_badly_controlled<D: Outline>(drawing: &D) -> Option<u8>
    ensures { result ≡ lowest (badly_controlled (D.Outline.outline drawing.now)) 32 }
{
    lowest_below(32, |name| is_badly_controlled(drawing, name))
}

/// The refusal of the lowest private or interface name that not exactly one atom controls.
pub fn control_refusal<D: Outline>(drawing: &D) -> Option<Refusal>
    ensures { result ≡ at_lowest NotOneController
        (lowest (badly_controlled (D.Outline.outline drawing.now)) 32) }
{
    lowest_badly_controlled(drawing).map(|name| Refusal::NotOneController { name })
}
