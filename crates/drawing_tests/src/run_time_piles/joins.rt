//! Many parts joined in different ways.
ghost use Rattle.std.specs.Prelude.{◌+◌, ◌≤◌, IfOk};

use crate::run_time_piles::alike::alike;
use crate::run_time_piles::parts::*;
use any_drawing::AnyDrawing;
use model::{Drawing, Fault, Kind, Names, Outline, Round};
use std::alloc::{AllocError, Global};
use std::test::Fail;

#[test]
fn a_join_with_two_outs_of_one_name(rt: HostRuntime) -> Result<(), Fail> {
    let heap = rt.alloc();
    let pile = AnyDrawing::join(heap, not(heap, 0, 1)?, not(heap, 2, 1)?)?;
    assert!(rt; pile.fault() == Some(Fault::own(9, 1)));
    assert!(rt; pile.atoms() == 0 && pile.kind(1).is_none());
    Ok(())
}

// A table beside a gate list: the toggle, under another name, and a NOT of it.
#[test]
fn a_table_joined_to_a_gate_list(rt: HostRuntime) -> Result<(), Fail> {
    let heap = rt.alloc();
    let moved = AnyDrawing::rename(heap, toggle(heap)?, 0, 9)?;
    let pile = AnyDrawing::join(heap, not(heap, 9, 1)?, moved)?;
    let mut old = [0; 32];
    old[9] = 1;
    assert!(rt; pile.fault().is_none() && pile.atoms() == 2 && pile.layers() == 4);
    assert!(rt; pile.kind(9) == Some(Kind::Interface) && pile.reads(1).has(9));
    assert!(rt; pile.gives(Round::Update, 1, 0, 9, old, old) == 0);
    assert!(rt; pile.gives(Round::Update, 1, 0, 9, [0; 32], old) == 1);
    Ok(())
}

const SHARED_INPUT: u8 = 31;

// An AND of the shared input and name `k` at the next of fourteen names.
fn ring_gate(heap: Global, k: u8) -> Result<AnyDrawing, AllocError> {
    let next = if k < 13 { k + 1 } else { 0 };
    and(heap, k, SHARED_INPUT, next)
}

// Fourteen atoms in a ring, each of which awaits the one before and the shared input, joined from fourteen parts.
fn ring(heap: Global) -> Result<AnyDrawing, AllocError> {
    (1..14u8).try_fold(
        ring_gate(heap, 0)?,
        |pile, k| AnyDrawing::join(heap, pile, ring_gate(heap, k)?),
    )
}

fn both(one: u8, other: u8) -> Names {
    Names::none().with(one).with(other)
}

// Does atom k of the ring await name k and the shared input, and give the next name its value?
fn is_ring_gate(pile: &AnyDrawing, k: u8, next: u8) -> bool {
    let mut new = [1; 32];
    if k < 32 {
        new[k as usize] = 0;
    }
    pile.kind(k) == Some(Kind::Interface)
        && pile.awaits(k) == both(k, SHARED_INPUT)
        && pile.controls(k) == both(next, next)
        && pile.choices(Round::Update, k) == 3
        && pile.is_open(Round::Update, k, 0, [0; 32], new)
        && !pile.is_open(Round::Update, k, 1, [0; 32], new)
        && pile.gives(Round::Update, k, 0, next, [0; 32], new) == 0
        && pile.gives(Round::Update, k, 2, next, [0; 32], [1; 32]) == 1
}

fn is_ring(pile: &AnyDrawing) -> bool {
    (0..13u8).all(|k| is_ring_gate(pile, k, k + 1)) && is_ring_gate(pile, 13, 0)
}

#[test]
fn a_ring_joined_from_fourteen_parts(rt: HostRuntime) -> Result<(), Fail> {
    let pile = ring(rt.alloc())?;
    assert!(rt; pile.fault().is_none() && pile.atoms() == 14 && pile.layers() == 27);
    assert!(rt; pile.kind(SHARED_INPUT) == Some(Kind::External));
    assert!(rt; is_ring(&pile));
    Ok(())
}

// One of sixteen NOT gates of one input, each with an out of its own, two names from the next.
fn inverter(heap: Global, k: u8) -> Result<AnyDrawing, AllocError> {
    not(heap, SHARED_INPUT, 2 * (k % 16))
}

fn inverters_from_the_left(heap: Global) -> Result<AnyDrawing, AllocError> {
    (1..16u8).try_fold(
        inverter(heap, 0)?,
        |pile, k| AnyDrawing::join(heap, pile, inverter(heap, k)?),
    )
}

fn inverters_from_the_right(heap: Global) -> Result<AnyDrawing, AllocError> {
    (0..15u8).rev().try_fold(
        inverter(heap, 15)?,
        |pile, k| AnyDrawing::join(heap, inverter(heap, k)?, pile),
    )
}

// So many inverters from this one on, each half joined by itself first.
fn inverters_by_halves(heap: Global, first: u8, count: u8) -> Result<AnyDrawing, AllocError>
    requires { first + count ≤ 100 }
{
    if count <= 1 {
        return inverter(heap, first);
    }
    let half = count / 2;
    let left = inverters_by_halves(heap, first, half)?;
    let right = inverters_by_halves(heap, first + half, count - half)?;
    AnyDrawing::join(heap, left, right)
}

#[test]
fn sixteen_parts_joined_in_three_ways(rt: HostRuntime) -> Result<(), Fail> {
    let heap = rt.alloc();
    let left = inverters_from_the_left(heap)?;
    let right = inverters_from_the_right(heap)?;
    let balanced = inverters_by_halves(heap, 0, 16)?;
    assert!(rt; left.fault().is_none() && left.atoms() == 16 && left.layers() == 31);
    assert!(rt; left.kind(SHARED_INPUT) == Some(Kind::External));
    assert!(rt; alike(&left, &right), "from the left and from the right");
    assert!(rt; alike(&left, &balanced), "from the left and by halves");
    assert!(rt; !alike(&left, &empty(heap)?), "not like an empty one");
    Ok(())
}
