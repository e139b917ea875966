//! Faults at the bottom of deep piles. Layers are counted from the top one, 0, the whole left part first; past 255 is
//! told as 255.
use crate::run_time_piles::parts::*;
use any_drawing::AnyDrawing;
use model::{Fault, Outline};
use std::alloc::{AllocError, Global};
use std::test::Fail;

// What is put on a pile, again and again.
#[derive(Clone, Copy, Debug)]
enum Step {
    // a join with an empty drawing on its right
    JoinAsLeft,
    // a join with an empty drawing on its left
    JoinAsRight,
    // a rename of name 1 to name 2, and back again in turn
    Rename,
}

fn piled(
    heap: Global,
    bottom: AnyDrawing,
    step: Step,
    times: u16,
) -> Result<AnyDrawing, AllocError> {
    (0..times).try_fold(bottom, |pile, k| match step {
        Step::JoinAsLeft => AnyDrawing::join(heap, pile, empty(heap)?),
        Step::JoinAsRight => AnyDrawing::join(heap, empty(heap)?, pile),
        Step::Rename if k % 2 == 0 => AnyDrawing::rename(heap, pile, 1, 2),
        Step::Rename => AnyDrawing::rename(heap, pile, 2, 1),
    })
}

// By step and how often it is made on a faulty list: the fault's layer, and the number of layers.
const FAULTY_PILES: [(Step, u16, u8, u8); 21] = [
    (Step::JoinAsLeft, 2, 2, 5),
    (Step::JoinAsLeft, 10, 10, 21),
    (Step::JoinAsLeft, 127, 127, 255),
    (Step::JoinAsLeft, 254, 254, 255),
    (Step::JoinAsLeft, 255, 255, 255),
    (Step::JoinAsLeft, 256, 255, 255),
    (Step::JoinAsLeft, 300, 255, 255),
    (Step::JoinAsRight, 2, 4, 5),
    (Step::JoinAsRight, 10, 20, 21),
    (Step::JoinAsRight, 127, 254, 255),
    (Step::JoinAsRight, 128, 255, 255),
    (Step::JoinAsRight, 254, 255, 255),
    (Step::JoinAsRight, 255, 255, 255),
    (Step::JoinAsRight, 256, 255, 255),
    (Step::JoinAsRight, 300, 255, 255),
    (Step::Rename, 2, 2, 3),
    (Step::Rename, 10, 10, 11),
    (Step::Rename, 254, 254, 255),
    (Step::Rename, 255, 255, 255),
    (Step::Rename, 256, 255, 255),
    (Step::Rename, 300, 255, 255),
];

#[test]
fn layers_of_faults_in_deep_piles(rt: HostRuntime) -> Result<(), Fail> {
    let heap = rt.alloc();
    for (step, times, layer, layers) in FAULTY_PILES {
        let pile = piled(heap, faulty(heap)?, step, times)?;
        let fault = Fault {
            layer,
            ..Fault::own(18, 5)
        };
        assert!(rt; pile.fault() == Some(fault), "{step:?} {times}");
        assert!(rt;
            pile.layers() == layers && pile.atoms() == 0,
            "{step:?} {times}"
        );
    }
    Ok(())
}

// Nothing is wrong, and the one atom is found below all layers.
#[test]
fn an_atom_below_901_layers(rt: HostRuntime) -> Result<(), Fail> {
    let heap = rt.alloc();
    let pile = piled(heap, not(heap, 0, 1)?, Step::Rename, 301)?;
    let pile = piled(heap, pile, Step::JoinAsLeft, 300)?;
    let pile = piled(heap, pile, Step::JoinAsRight, 300)?;
    assert!(rt; pile.fault().is_none() && pile.layers() == 255 && pile.atoms() == 1);
    assert!(rt; pile.controls(0).has(2) && pile.awaits(0).has(0));
    Ok(())
}
