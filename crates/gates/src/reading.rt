//! Reading a gate list, record by record.
ghost use Rattle.std.specs.Prelude.{◌≡◌, ◌+◌, ◌*◌, ◌≤◌, ◌↔◌, length, IsTrue};
ghost use Rattle.gates.specs.Gates.{parts_of};
ghost use Rattle.gates.specs.Netlists.{netlist_from, same_out, same_own};
ghost use Rattle.gates.specs.Rows.{Clashes, Found, Grown, netlist_in};

use crate::gate::{Gate, Part};
use model::{Full, Row};

// Does an earlier record have the out of this one?
fn out_taken(bytes: &[u8], index: usize) -> bool
    requires { 5 * index + 5 ≤ length bytes.now }
    ensures { IsTrue result ↔ Found (same_out bytes.now index) (5 * index) }
{
    let out = bytes[5 * index + 3];
    bytes[..5 * index]
        .iter()
        .enumerate()
        .any(|(place, byte)| place % 5 == 3 && *byte == out)
}

// Does some other field of the list, earlier or later, have the own of this record?
fn own_shared(bytes: &[u8], index: usize) -> bool
    requires { 5 * index + 5 ≤ length bytes.now }
    ensures { IsTrue result ↔ Found (same_own bytes.now index) (length bytes.now) }
{
    let own_place = 5 * index + 4;
    let own = bytes[own_place];
    bytes.iter().enumerate().any(|(place, byte)| place % 5 != 0
        && place != own_place
        && *byte == own)
}

// Does an earlier record have the record's out, or is it a latch whose own name some other field has?
fn clashes(bytes: &[u8], index: usize, gate: Gate) -> bool
    requires { 5 * index + 5 ≤ length bytes.now }
    ensures { IsTrue result ↔ Clashes bytes.now index gate }
{
    out_taken(bytes, index) || matches!(gate, Gate::Latch { .. }) && own_shared(bytes, index)
}

// Adds the atoms of the gate, if there is room for all of them.
fn add(parts: &mut Row<Part, 16>, gate: Gate) -> Result<(), Full>
    ensures { Grown parts.old (parts_of gate) parts.new result }
{
    match gate {
        Gate::Not { a, out } => parts.push(Part::Inverter { a, out }),
        Gate::And { a, b, out } => parts.push(Part::Conjunction { a, b, out }),
        Gate::Latch {
            set,
            reset,
            out,
            own,
        } => {
            parts.push(Part::LatchOutput { out, own })?;
            parts.push(Part::LatchStore { set, reset, own })
        }
    }
}

/// The atoms of all records, or the first byte of the first record that breaks a rule: 0 where the length is no multiple of five.
pub fn read(bytes: &[u8]) -> Result<Row<Part, 16>, u16>
    ensures { netlist_in result ≡ netlist_from bytes.now }
{
    if bytes.len() % 5 != 0 {
        return Err(0);
    }
    let mut parts = Row::empty(Part::Inverter { a: 0, out: 0 });
    let mut index: usize = 0;
    let mut rest = bytes;
    while let [kind, a, b, out, own, later @ ..] = rest {
        let place = 5 * (index as u16);
        let Ok(gate) = Gate::try_from([*kind, *a, *b, *out, *own]) else {
            return Err(place);
        };
        if clashes(bytes, index, gate) || add(&mut parts, gate).is_err() {
            return Err(place);
        }
        rest = later;
        index += 1;
    }
    Ok(parts)
}
