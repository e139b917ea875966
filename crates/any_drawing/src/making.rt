//! The ways to make a drawing. A fault still makes one, which tells it and has no variables and no atoms. Where memory
//! is wanting, the parts are let go.
ghost use Rattle.any_drawing.specs.Leaves.{MeansGates, MeansTable};
ghost use Rattle.any_drawing.specs.Meaning.{any_meaning};
ghost use Rattle.composition.specs.Meanings.{renamed, hidden, joined};
ghost use Rattle.reactive.specs.Piles.{JoinsParts, RenamesPart, HidesPart};
ghost use Rattle.std.specs.Prelude.{◌≡◌, IfOk, OnOk};

use crate::{AnyDrawing, Node};
use gates::GateList;
use model::Outline;
use piles::{hide_fault, join_fault, rename_fault};
use std::alloc::{AllocError, Global};
use table::Table;

impl AnyDrawing {
    /// The table that the bytes describe.
    pub fn table(heap: Global, bytes: &[u8]) -> Result<AnyDrawing, AllocError>
        ensures means { IfOk result (λ d. MeansTable bytes.now (any_meaning d)) }
    {
        let table = Box::new(heap, Table::open(bytes))?;
        Ok(AnyDrawing {
            node: Node::Table(table),
        })
    }

    /// The gate list that the bytes describe.
    pub fn gates(heap: Global, bytes: &[u8]) -> Result<AnyDrawing, AllocError>
        ensures means { IfOk result (λ d. MeansGates bytes.now (any_meaning d)) }
    {
        let list = Box::new(heap, GateList::open(bytes))?;
        Ok(AnyDrawing {
            node: Node::Gates(list),
        })
    }

    /// The two side by side. Atoms of the left part come first.
    pub fn join(heap: Global, left: AnyDrawing, right: AnyDrawing) -> Result<AnyDrawing, AllocError>
        ensures means { IfOk result (λ d. any_meaning d ≡ joined (any_meaning left) (any_meaning right)) }
        ensures parts { OnOk result (JoinsParts (any_meaning left) (any_meaning right)) }
    {
        let fault = join_fault(&left, &right);
        let left_atoms = left.atoms();
        let left = Box::new(heap, left)?;
        let right = Box::new(heap, right)?;
        let node = Node::Join {
            left,
            right,
            fault,
            left_atoms,
        };
        Ok(AnyDrawing { node })
    }

    /// The drawing with a new name for one of its variables.
    pub fn rename(
        heap: Global,
        below: AnyDrawing,
        old: u8,
        new: u8,
    ) -> Result<AnyDrawing, AllocError>
        ensures means { IfOk result (λ d. any_meaning d ≡ renamed (any_meaning below) old new) }
        ensures part { OnOk result (RenamesPart (any_meaning below) old new) }
    {
        let fault = rename_fault(&below, old, new);
        let below = Box::new(heap, below)?;
        let node = Node::Rename {
            below,
            old,
            new,
            fault,
        };
        Ok(AnyDrawing { node })
    }

    /// The drawing with one of its interface names made private.
    pub fn hide(heap: Global, below: AnyDrawing, name: u8) -> Result<AnyDrawing, AllocError>
        ensures means { IfOk result (λ d. any_meaning d ≡ hidden (any_meaning below) name) }
        ensures part { OnOk result (HidesPart (any_meaning below) name) }
    {
        let fault = hide_fault(&below, name);
        let below = Box::new(heap, below)?;
        let node = Node::Hide { below, name, fault };
        Ok(AnyDrawing { node })
    }
}
