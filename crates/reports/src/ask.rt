//! Questions after one choice of an atom.
use crate::assignment::Assignment;
use crate::listed::Listed;
use model::{Drawing, Question, State};
use std::alloc::{AllocError, Global};
use std::fmt;

/// What is told of one choice of an atom at two states: whether it is open, and what it gives to each name that its atom controls,
/// names rising.
#[derive(Drop)]
pub struct ChoiceReport {
    pub atom: u8,
    pub choice: u8,
    pub open: bool,
    pub given: Vec<Assignment<i16>>,
}

impl ChoiceReport {
    ghost use Rattle.reports.specs.Told.{TellsChoice};
    ghost use Rattle.std.specs.Prelude.{IfOk};

    /// The report on the choice that the question is after.
    pub fn new<D: Drawing>(
        heap: Global,
        drawing: &D,
        question: &Question<State>,
    ) -> Result<ChoiceReport, AllocError>
        ensures { IfOk result (TellsChoice (D.Outline.outline drawing.now) (D.Drawing.meaning drawing.now).acts
            question.now) }
    {
        let Question {
            round,
            atom,
            choice,
            old,
            new,
        } = *question;
        let open = drawing.is_open(round, atom, choice, old, new);
        let given = drawing
            .controls(atom)
            .iter()
            .map(|name| Assignment {
                name,
                value: drawing.gives(round, atom, choice, name, old, new),
            })
            .collect(heap)?;
        Ok(ChoiceReport {
            atom,
            choice,
            open,
            given,
        })
    }
}

impl fmt::Display for ChoiceReport {
    fn fmt<W: fmt::Write>(&self, f: &mut fmt::Formatter<W>) -> fmt::Result {
        f.write_str(if self.open { "open" } else { "closed" })?;
        for given in &self.given {
            write!(f, " {}", given.value)?;
        }
        write!(
            f,
            " -- atom {}, choice {}, {} {}",
            self.atom,
            self.choice,
            if self.open { "gives" } else { "would give" },
            Listed::for_people(self.given.as_slice())
        )
    }
}
