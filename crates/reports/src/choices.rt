//! What the choices of an atom do, as the table says that has the atom.
use crate::assignment::Assignment;
use crate::infix::{Written, WrittenNumber, WrittenTruth};
use crate::listed::Listed;
use any_drawing::{AnyDrawing, Node};
use model::{Drawing, Outline, Round, State, value_of};
use piles::Exchange;
use std::alloc::{AllocError, Global};
use std::array;
use table::Table;

// The choices of an atom in one kind of round, in the table that has it, and what each name is called.
#[derive(Clone, Copy)]
struct Choices<'a> {
    table: &'a Table,
    round: Round,
    atom: u8,
    naming: State,
}

impl<'a> Choices<'a> {
    fn written(&self, bytes: &'a [u8]) -> Written<'a> {
        Written {
            bytes,
            naming: self.naming,
        }
    }

    // What the choice gives, names rising as the table has them, each told as it is called.
    fn given(
        &self,
        heap: Global,
        choice: u8,
    ) -> Result<Vec<Assignment<WrittenNumber<'a>>>, AllocError> {
        self.table
            .controls(self.atom)
            .iter()
            .map(|name| Assignment {
                name: value_of(self.naming, name),
                value: WrittenNumber(self.written(
                    self.table.number(self.round, self.atom, choice, name),
                )),
            })
            .collect(heap)
    }

    // A line for each choice, as `init 0: if true: name 4 := 0`.
    fn add_lines(&self, heap: Global, text: &mut String) -> Result<(), AllocError> {
        for choice in 0..self.table.choices(self.round, self.atom) {
            let guard = self.written(self.table.guard(self.round, self.atom, choice));
            let given = self.given(heap, choice)?;
            write!(
                text,
                "\n    {} {choice}: if {}: {}",
                self.round,
                WrittenTruth(guard),
                Listed::for_people(given.as_slice())
            )?;
        }
        Ok(())
    }
}

// What names are called below a rename, where the old name stands for the new one.
fn naming_below(naming: State, old: u8, new: u8) -> State {
    Exchange::of(old, new).map_or(naming, |exchange| exchange.state(naming))
}

// The table that has the atom and the atom's number there, none where a gate list has it. What each name is called at the top becomes
// what the table's names are called there. Nothing is told on the way down: a layer takes little of the stack, since piles are deep.
fn table_with<'a>(
    drawing: &'a AnyDrawing,
    atom: u8,
    naming: &mut State,
) -> Option<(&'a Table, u8)> {
    match drawing.node() {
        Node::Table(table) => Some((table, atom)),
        Node::Gates(_) => None,
        Node::Join {
            left,
            right,
            left_atoms,
            ..
        } => match atom.checked_sub(*left_atoms) {
            None => table_with(left, atom, naming),
            Some(atom) => table_with(right, atom, naming),
        },
        Node::Rename {
            below,
            old,
            new,
            ..
        } => {
            *naming = naming_below(*naming, *old, *new);
            table_with(below, atom, naming)
        }
        Node::Hide { below, .. } => table_with(below, atom, naming),
    }
}

/// A line for each choice of the atom, where a table has it: what guards it and what it gives. A gate says by its kind
/// what it does.
pub fn choice_lines(heap: Global, drawing: &AnyDrawing, atom: u8) -> Result<String, AllocError> {
    let mut text = String::new(heap);
    // At the top each name is called by itself.
    let mut naming = array::from_fn(|name| name as u8);
    let Some((table, atom)) = table_with(drawing, atom, &mut naming) else {
        return Ok(text);
    };
    for round in [Round::Initial, Round::Update] {
        let choices = Choices {
            table,
            round,
            atom,
            naming,
        };
        choices.add_lines(heap, &mut text)?;
    }
    Ok(text)
}
