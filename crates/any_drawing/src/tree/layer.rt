//! The top layer of a tree, apart from the trees below it.
ghost use Rattle.any_drawing.specs.Layers.{IsTop};

use super::{AnyDrawing, Node};
use gates::GateList;
use model::Fault;
use piles::Exchange;
use table::Table;

/// A pile with a fault tells nothing of its parts, and else a rename has two names to exchange.
#[derive(Clone, Copy)]
pub enum Layer<'a> {
    Faulty(Fault),
    Table(&'a Table),
    Gates(&'a GateList),
    Join {
        left: &'a AnyDrawing,
        right: &'a AnyDrawing,
        // how many atoms the left part has
        count: u8,
    },
    Rename {
        below: &'a AnyDrawing,
        exchange: Exchange,
    },
    Hide {
        below: &'a AnyDrawing,
        name: u8,
    },
}

impl AnyDrawing {
    pub(crate) fn layer(&self) -> Layer<'_>
        ensures { IsTop self.now result }
    {
        match &self.node {
            Node::Table(table) => Layer::Table(table),
            Node::Gates(list) => Layer::Gates(list),
            Node::Join {
                fault: Some(fault),
                ..
            }
            | Node::Rename {
                fault: Some(fault),
                ..
            }
            | Node::Hide {
                fault: Some(fault),
                ..
            } => Layer::Faulty(*fault),
            Node::Join {
                left,
                right,
                left_atoms,
                ..
            } => Layer::Join {
                left,
                right,
                count: *left_atoms,
            },
            Node::Rename {
                below,
                old,
                new,
                ..
            } => Layer::Rename {
                below,
                exchange: Exchange::of(*old, *new).unwrap(),
            },
            Node::Hide { below, name, .. } => Layer::Hide { below, name: *name },
        }
    }
}
