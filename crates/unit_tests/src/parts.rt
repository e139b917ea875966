//! The gate lists that the tests pile up and seal.
ghost use Rattle.std.specs.Prelude.{◌<◌, ◌≤◌, ℕ};

use gates::GateList;
use model::Drawing;
use samples::inverter;
use unit::Unit;
use units::Refusal;

// A list of so many NOT gates, with the input and the out of each by its number. The numbers are counted: tried as a zip of them
// with the records, where the proof no longer has that a number is below the count, which the closure needs.
fn inverters<F: Fn(u8) -> (u8, u8)>(count: u8, names: F) -> GateList
    requires few { count ≤ 15 }
    requires callable { (k : ℕ) → k < count → F.pre names k }
{
    let mut bytes = [255; 75];
    for gate in 0..count {
        let start = 5 * gate as usize;
        let (a, out) = names(gate);
        bytes[start..start + 5].copy_from_slice(&inverter(a, out));
    }
    GateList::open(&bytes[..5 * count as usize])
}

/// NOT gates in a ring over the names 1 to 14, and before them one that awaits the ring and is not on it.
pub fn ring_and_a_gate_before_it() -> GateList {
    inverters(15, |gate| (gate % 14 + 1, gate))
}

/// Seven NOT gates, each of which awaits the next, from the name first on; at the end of the chain the last one awaits name 31.
pub fn chain(first: u8, end: bool) -> GateList {
    let first = first % 25;
    inverters(7, |gate| {
        let input = if end && gate == 6 {
            31
        } else {
            first + gate + 1
        };
        (input, first + gate)
    })
}

/// Eight NOT gates of name 15 to every other name from first on.
pub fn eight_of_one_name(first: u8) -> GateList {
    let first = first % 32;
    inverters(8, |gate| (15, first + 2 * gate))
}

/// Is a unit of this drawing refused so, and are these its number, layer and place?
pub fn seals<D: Drawing + Drop>(
    drawing: D,
    refusal: Option<Refusal>,
    numbers: (u8, u8, u16),
) -> bool {
    let unit = Unit::seal(drawing, 7);
    unit.refusal() == refusal && unit.verdict() == numbers && unit.number() == 7
}

/// Is a unit of this drawing fit?
pub fn is_fit<D: Drawing + Drop>(drawing: D) -> bool {
    seals(drawing, None, (0, 0, 0))
}
