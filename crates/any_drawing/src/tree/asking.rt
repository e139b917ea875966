//! What a tree of layers answers. What is wrong with it is known from the top layer on.
ghost use Rattle.any_drawing.specs.Piles.{pile_meaning, pile_outline};
ghost use Rattle.std.proofs.Common.{rules};

use super::layer::Layer;
use super::{AnyDrawing, Node};
use model::{Drawing, Fault, Kind, Names, Outline, Round, State};
use piles::{joined_kind, up_to_255};

impl Outline for AnyDrawing {
    ghost outline = { pile_outline };

    fn fault(&self) -> Option<Fault> {
        match self.layer() {
            Layer::Faulty(fault) => Some(fault),
            Layer::Table(table) => table.fault(),
            Layer::Gates(list) => list.fault(),
            Layer::Join { .. } | Layer::Rename { .. } | Layer::Hide { .. } => None,
        }
    }

    // A pile with a fault has layers too.
    fn layers(&self) -> u8 {
        match &self.node {
            Node::Table(table) => table.layers(),
            Node::Gates(list) => list.layers(),
            Node::Join { left, right, .. } => {
                up_to_255(1 + u16::from(left.layers()) + u16::from(right.layers()))
            }
            Node::Rename { below, .. } | Node::Hide { below, .. } => {
                up_to_255(1 + u16::from(below.layers()))
            }
        }
    }

    fn kind(&self, name: u8) -> Option<Kind> {
        match self.layer() {
            Layer::Faulty(_) => None,
            Layer::Table(table) => table.kind(name),
            Layer::Gates(list) => list.kind(name),
            Layer::Join { left, right, .. } => joined_kind(left.kind(name), right.kind(name)),
            Layer::Rename { below, exchange } => below.kind(exchange.name(name)),
            Layer::Hide { name: hidden, .. } if name == hidden => Some(Kind::Private),
            Layer::Hide { below, .. } => below.kind(name),
        }
    }

    fn top(&self, name: u8) -> u8 {
        match self.layer() {
            Layer::Faulty(_) => 0,
            Layer::Table(table) => table.top(name),
            Layer::Gates(list) => list.top(name),
            Layer::Join { left, .. } if left.kind(name).is_some() => left.top(name),
            Layer::Join { right, .. } => right.top(name),
            Layer::Rename { below, exchange } => below.top(exchange.name(name)),
            Layer::Hide { below, .. } => below.top(name),
        }
    }

    fn atoms(&self) -> u8 {
        match self.layer() {
            Layer::Faulty(_) => 0,
            Layer::Table(table) => table.atoms(),
            Layer::Gates(list) => list.atoms(),
            Layer::Join { right, count, .. } => count + right.atoms(),
            Layer::Rename { below, .. } | Layer::Hide { below, .. } => below.atoms(),
        }
    }

    fn controls(&self, atom: u8) -> Names {
        match self.layer() {
            Layer::Faulty(_) => Names::none(),
            Layer::Table(table) => table.controls(atom),
            Layer::Gates(list) => list.controls(atom),
            Layer::Join { left, count, .. } if atom < count => left.controls(atom),
            Layer::Join { right, count, .. } => right.controls(atom - count),
            Layer::Rename { below, exchange } => exchange.names(below.controls(atom)),
            Layer::Hide { below, .. } => below.controls(atom),
        }
    }

    fn reads(&self, atom: u8) -> Names {
        match self.layer() {
            Layer::Faulty(_) => Names::none(),
            Layer::Table(table) => table.reads(atom),
            Layer::Gates(list) => list.reads(atom),
            Layer::Join { left, count, .. } if atom < count => left.reads(atom),
            Layer::Join { right, count, .. } => right.reads(atom - count),
            Layer::Rename { below, exchange } => exchange.names(below.reads(atom)),
            Layer::Hide { below, .. } => below.reads(atom),
        }
    }

    fn awaits(&self, atom: u8) -> Names {
        match self.layer() {
            Layer::Faulty(_) => Names::none(),
            Layer::Table(table) => table.awaits(atom),
            Layer::Gates(list) => list.awaits(atom),
            Layer::Join { left, count, .. } if atom < count => left.awaits(atom),
            Layer::Join { right, count, .. } => right.awaits(atom - count),
            Layer::Rename { below, exchange } => exchange.names(below.awaits(atom)),
            Layer::Hide { below, .. } => below.awaits(atom),
        }
    }
}

impl Drawing for AnyDrawing {
    ghost meaning = { pile_meaning };

    ghost agree = { Prim.search rules };

    fn choices(&self, round: Round, atom: u8) -> u8 {
        match self.layer() {
            Layer::Faulty(_) => 0,
            Layer::Table(table) => table.choices(round, atom),
            Layer::Gates(list) => list.choices(round, atom),
            Layer::Join { left, count, .. } if atom < count => left.choices(round, atom),
            Layer::Join { right, count, .. } => right.choices(round, atom - count),
            Layer::Rename { below, .. } | Layer::Hide { below, .. } => below.choices(round, atom),
        }
    }

    // The drawing below a rename sees its own names: old and new values are told to it with the two names exchanged.
    fn is_open(&self, round: Round, atom: u8, choice: u8, old: State, new: State) -> bool {
        match self.layer() {
            Layer::Faulty(_) => false,
            Layer::Table(table) => table.is_open(round, atom, choice, old, new),
            Layer::Gates(list) => list.is_open(round, atom, choice, old, new),
            Layer::Join { left, count, .. } if atom < count => {
                left.is_open(round, atom, choice, old, new)
            }
            Layer::Join { right, count, .. } => {
                right.is_open(round, atom - count, choice, old, new)
            }
            Layer::Rename { below, exchange } => {
                let old_below = exchange.state(old);
                let new_below = exchange.state(new);
                below.is_open(round, atom, choice, old_below, new_below)
            }
            Layer::Hide { below, .. } => below.is_open(round, atom, choice, old, new),
        }
    }

    fn gives(&self, round: Round, atom: u8, choice: u8, name: u8, old: State, new: State) -> i16 {
        match self.layer() {
            Layer::Faulty(_) => 0,
            Layer::Table(table) => table.gives(round, atom, choice, name, old, new),
            Layer::Gates(list) => list.gives(round, atom, choice, name, old, new),
            Layer::Join { left, count, .. } if atom < count => {
                left.gives(round, atom, choice, name, old, new)
            }
            Layer::Join { right, count, .. } => {
                right.gives(round, atom - count, choice, name, old, new)
            }
            Layer::Rename { below, exchange } => {
                let name_below = exchange.name(name);
                let old_below = exchange.state(old);
                let new_below = exchange.state(new);
                below.gives(round, atom, choice, name_below, old_below, new_below)
            }
            Layer::Hide { below, .. } => below.gives(round, atom, choice, name, old, new),
        }
    }
}
