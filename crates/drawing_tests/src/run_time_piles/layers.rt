//! The shape of a pile, read by going through its nodes.
use crate::run_time_piles::parts::*;
use any_drawing::{AnyDrawing, Node};
use std::alloc::{AllocError, Global};
use std::test::Fail;

fn shape(heap: Global, pile: &AnyDrawing) -> Result<String, AllocError> {
    match pile.node() {
        Node::Table(_) => String::from_str(heap, "table"),
        Node::Gates(_) => String::from_str(heap, "gates"),
        Node::Join { left, right, .. } => {
            format!(in heap; "({} + {})", shape(heap, left)?, shape(heap, right)?)
        }
        Node::Rename { below, .. } => format!(in heap; "renamed {}", shape(heap, below)?),
        Node::Hide { below, .. } => format!(in heap; "hidden {}", shape(heap, below)?),
    }
}

#[test]
fn nodes_of_a_pile(rt: HostRuntime) -> Result<(), Fail> {
    let heap = rt.alloc();
    let left = AnyDrawing::rename(heap, not(heap, 0, 1)?, 1, 7)?;
    let right = AnyDrawing::hide(
        heap,
        AnyDrawing::join(heap, not(heap, 7, 2)?, toggle(heap)?)?,
        2,
    )?;
    let pile = AnyDrawing::join(heap, left, right)?;
    let text = shape(heap, &pile)?;
    assert!(rt; text.as_str() == "(renamed gates + hidden (gates + table))");
    Ok(())
}
