//! What a name of a script stands for.
ghost use Rattle.any_drawing.specs.Meaning.{any_meaning};
ghost use Rattle.script.specs.Answers.{TellsDrawing};
ghost use Rattle.std.specs.Prelude.{IfOk};

use crate::answer::Answer;
use any_drawing::{AnyDrawing, Node};
use model::{Outline, Question, State};
use reports::{ChoiceReport, DrawingReport, OutlineReport, VerdictReport};
use std::alloc::{AllocError, Global};
use unit::Unit;

/// A unit that a script has sealed. It is a struct of its own, since a definition cannot name a unit over any drawing without the
/// traits that the drawing's type has.
#[derive(Drop)]
pub struct BoundUnit {
    pub unit: Unit<AnyDrawing>,
}

impl BoundUnit {
    ghost use Rattle.script.specs.Answers.{TellsVerdict};
    ghost use Rattle.script.specs.Bindings.{unit_of};

    /// What is told of its verdict under this name.
    pub fn verdict(&self, heap: Global, name: &str) -> Result<Answer, AllocError>
        ensures { IfOk result (TellsVerdict name.now (unit_of self.now)) }
    {
        let name = String::from_str(heap, name)?;
        let report = VerdictReport::new(heap, name, self.unit.drawing(), self.unit.refusal())?;
        Ok(Answer::Verdict(report))
    }
}

/// A drawing or a unit. A unit is boxed, since it is much larger than a drawing. Both are parameters of the type: that it may go to
/// another thread, and be shared with one, is then proved once.
#[derive(Drop)]
pub enum Bound<D, U> {
    Drawing(D),
    SealedUnit(Box<U>),
}

/// What a name stands for.
pub type Binding = Bound<AnyDrawing, BoundUnit>;

// What the drawing is, in a word or two.
fn kind_of(drawing: &AnyDrawing) -> &'static str {
    match drawing.node() {
        Node::Table(_) => "table",
        Node::Gates(_) => "gate list",
        Node::Join { .. } => "join",
        Node::Rename { .. } => "renamed drawing",
        Node::Hide { .. } => "drawing with a hidden name",
    }
}

// What is told of a drawing that was made under this name.
fn drawing_report(heap: Global, name: &str, drawing: &AnyDrawing) -> Result<Answer, AllocError>
    ensures { IfOk result (TellsDrawing name.now (any_meaning drawing.now).outline) }
{
    Ok(Answer::Drawing(DrawingReport {
        name: String::from_str(heap, name)?,
        what: kind_of(drawing),
        fault: drawing.fault(),
    }))
}

impl Bound<AnyDrawing, BoundUnit> {
    ghost use Rattle.script.specs.Answers.{TellsBinding, TellsOutlineOf, TellsChoiceOf};
    ghost use Rattle.script.specs.Bindings.{meaning_of_binding};
    ghost use Rattle.std.specs.Prelude.{◌≡◌};

    /// What is answered when it is made under this name.
    pub fn report(&self, heap: Global, name: &str) -> Result<Answer, AllocError>
        ensures { IfOk result (TellsBinding name.now self.now) }
    {
        match self {
            Binding::Drawing(drawing) => drawing_report(heap, name, drawing),
            Binding::SealedUnit(bound) => bound.verdict(heap, name),
        }
    }

    // The drawing that it is or that it seals.
    fn drawing(&self) -> &AnyDrawing
        ensures { any_meaning result.now ≡ meaning_of_binding self.now }
    {
        match self {
            Binding::Drawing(drawing) => drawing,
            Binding::SealedUnit(bound) => bound.unit.drawing(),
        }
    }

    /// What is answered to `outline`: of a unit, the outline of its drawing.
    pub fn outline(&self, heap: Global) -> Result<Answer, AllocError>
        ensures { IfOk result (TellsOutlineOf (meaning_of_binding self.now)) }
    {
        Ok(Answer::Outline(OutlineReport::with_choices(heap, self.drawing())?))
    }

    /// What is answered to `ask`: of a unit, after a choice of its drawing.
    pub fn choice(&self, heap: Global, question: &Question<State>) -> Result<Answer, AllocError>
        ensures { IfOk result (TellsChoiceOf (meaning_of_binding self.now) question.now) }
    {
        Ok(Answer::Choice(ChoiceReport::new(heap, self.drawing(), question)?))
    }
}
