//! The layers of a drawing. A type cannot lead back to itself through the type parameter of a pile, whose bound has
//! a meaning, so the piles stand here once more, as layers.
ghost use Rattle.any_drawing.specs.Trees.{pile_of};
ghost use Rattle.any_drawing.specs.Whole.{Whole};
ghost use Rattle.std.specs.Prelude.{◌≡◌};

use gates::GateList;
use model::Fault;
use std::marker::Model;
use table::Table;

mod asking;
mod layer;

/// A tree of layers, each of which keeps what was judged of its parts when it was made.
#[cycle(tree)]
#[derive(Drop)]
pub struct AnyDrawing {
    pub(crate) node: Node,
}

/// A pile keeps its fault, and a join how many atoms its left part has, as they were when it was made. The fault stands beside the
/// parts, in no Result with them, since a faulty pile has them too and counts their layers. Whoever goes through a pile reads its
/// layers here.
#[cycle(tree)]
#[derive(Drop)]
pub enum Node {
    Table(Box<Table>),
    Gates(Box<GateList>),
    Join {
        left: Box<AnyDrawing>,
        right: Box<AnyDrawing>,
        fault: Option<Fault>,
        left_atoms: u8,
    },
    Rename {
        below: Box<AnyDrawing>,
        old: u8,
        new: u8,
        fault: Option<Fault>,
    },
    Hide {
        below: Box<AnyDrawing>,
        name: u8,
        fault: Option<Fault>,
    },
}

impl Model for AnyDrawing {
    ghost use Rattle.any_drawing.specs.PileCodes.{pile_code};
    ghost use Rattle.any_drawing.specs.Piles.{Pile, height};

    ghost Value = { Pile };

    ghost coded = { pile_code };

    ghost use Rattle.any_drawing.specs.Trees.{pile_of};
    ghost use Rattle.any_drawing.specs.Whole.{Whole};

    ghost view = { λ a. pile_of a.node };

    ghost invariant = { λ a. Whole a.node };

    ghost size = { height };

    ghost use Rattle.any_drawing.specs.Heights.{falls};

    ghost size_decreases = { λ a h. falls a.node };
}

impl AnyDrawing {
    /// The top layer, with what it keeps.
    pub fn node(&self) -> &Node
        ensures same { pile_of result.now ≡ self.now }
        ensures whole { Whole result.now }
    {
        &self.node
    }
}
