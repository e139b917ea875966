//! A script as it is obeyed, line by line.
ghost use Rattle.script.specs.declared.mistake.Mistake.TheVariants.{NotText, NoMemory};
ghost use Rattle.script.specs.Refusals.{IsNoState};
ghost use Rattle.script.specs.Sessions.{IsQuestion, IsNoQuestion, IsStateOf};
ghost use Rattle.std.specs.Prelude.{◌≡◌, ◌⊎◌, IsUtf8, MatchResult};

use crate::answer::Answer;
use crate::binding::{Binding, BoundUnit};
use crate::bindings::Bindings;
use crate::command::{Command, parse};
use crate::mistake::Mistake;
use crate::source::{ByteSource, FileBytes, state_of};
use any_drawing::AnyDrawing;
use model::{Question, State};
use std::alloc::Global;
use unit::Unit;

/// A script under way: what its names stand for.
#[derive(Drop)]
pub struct Session {
    bindings: Bindings,
    heap: Global,
}

fn text_of(line: &[u8]) -> Result<&str, Mistake>
    ensures { MatchResult result (λ s. s.now ≡ line.now)
        (λ e. (e ≡ NotText) × (IsUtf8 line.now → ⊥)) }
{
    std::str::from_utf8(line).map_err(|_| Mistake::NotText)
}

// The state that the source holds.
fn state_in<F: FileBytes>(files: &F, source: ByteSource) -> Result<State, Mistake>
    ensures { MatchResult result (IsStateOf source) (λ e. IsNoState source e ⊎ (e ≡ NoMemory)) }
{
    state_of(source.load(files)?.as_slice())
}

// The question at the states that its sources hold.
fn question_of<F: FileBytes>(
    files: &F,
    asked: Question<ByteSource>,
) -> Result<Question<State>, Mistake>
    ensures { MatchResult result (IsQuestion asked) (IsNoQuestion asked) }
{
    Ok(Question {
        round: asked.round,
        atom: asked.atom,
        choice: asked.choice,
        old: state_in(files, asked.old)?,
        new: state_in(files, asked.new)?,
    })
}

impl Session {
    ghost use Rattle.script.specs.declared.command.Command.TheVariants.{New, Table, Gates, Join, Rename, Hide, Seal, Verdict, Outline, Ask};
    ghost use Rattle.script.specs.Answers.{TellsBinding};
    ghost use Rattle.script.specs.Bindings.{IsEmpty, Binds, SameBindings};
    ghost use Rattle.script.specs.Sessions.{Obeys, RefusesCommand, Runs};
    ghost use Rattle.std.specs.Prelude.{string_bytes};

    /// No name stands for anything yet.
    pub fn new(heap: Global) -> Session
        ensures { IsEmpty result.bindings }
    {
        Session {
            heap,
            bindings: Bindings::new(heap),
        }
    }

    /// Does what a line asks for, and tells what to answer, if anything. A line that is refused alters nothing,
    /// unless memory ran out over it.
    pub fn run<F: FileBytes>(&mut self, files: &F, line: &[u8]) -> Result<Option<Answer>, Mistake>
        ensures { Runs line.now self.old.bindings self.new.bindings result }
    {
        let text = text_of(line)?;
        let Some(command) = parse(self.heap, text)? else {
            return Ok(None);
        };
        Ok(Some(self.obey(files, command)?))
    }

    // Does what the command asks for.
    fn obey<F: FileBytes>(&mut self, files: &F, command: Command) -> Result<Answer, Mistake>
        ensures { MatchResult result (Obeys command self.old.bindings self.new.bindings)
            (RefusesCommand command self.old.bindings self.new.bindings) }
    {
        match command {
            Command::New => self.forget(),
            Command::Table { name, bytes } => self.table(files, name, bytes),
            Command::Gates { name, bytes } => self.gates(files, name, bytes),
            Command::Join { name, left, right } => self.join(name, left, right),
            Command::Rename {
                name,
                below,
                old,
                new,
            } => self.rename(name, below, old, new),
            Command::Hide {
                name,
                below,
                hidden,
            } => self.hide(name, below, hidden),
            Command::Seal {
                name,
                drawing,
                number,
            } => self.seal(name, drawing, number),
            Command::Verdict { name } => self.verdict(name),
            Command::Outline { name } => self.outline(name),
            Command::Ask { name, asked } => self.ask(files, name, asked),
        }
    }

    fn forget(&mut self) -> Result<Answer, Mistake>
        ensures { MatchResult result (Obeys New self.old.bindings self.new.bindings)
            (RefusesCommand New self.old.bindings self.new.bindings) }
    {
        self.bindings.clear();
        Ok(Answer::Forgotten)
    }

    // Tells what was made, and lets the name stand for it.
    fn keep(&mut self, name: String, binding: Binding) -> Result<Answer, Mistake>
        ensures { MatchResult result
            (λ a. Binds self.old.bindings self.new.bindings (string_bytes name) binding
            × TellsBinding (string_bytes name) binding a)
            (λ e. (e ≡ NoMemory) × SameBindings self.old.bindings self.new.bindings) }
    {
        let answer = binding.report(self.heap, name.as_str())?;
        self.bindings.bind(name, binding)?;
        Ok(answer)
    }

    fn table<F: FileBytes>(
        &mut self,
        files: &F,
        name: String,
        bytes: ByteSource,
    ) -> Result<Answer, Mistake>
        ensures { MatchResult result (Obeys (Table name bytes) self.old.bindings self.new.bindings)
            (RefusesCommand (Table name bytes) self.old.bindings self.new.bindings) }
    {
        let table = AnyDrawing::table(self.heap, bytes.load(files)?.as_slice())?;
        self.keep(name, Binding::Drawing(table))
    }

    fn gates<F: FileBytes>(
        &mut self,
        files: &F,
        name: String,
        bytes: ByteSource,
    ) -> Result<Answer, Mistake>
        ensures { MatchResult result (Obeys (Gates name bytes) self.old.bindings self.new.bindings)
            (RefusesCommand (Gates name bytes) self.old.bindings self.new.bindings) }
    {
        let list = AnyDrawing::gates(self.heap, bytes.load(files)?.as_slice())?;
        self.keep(name, Binding::Drawing(list))
    }

    fn join(&mut self, name: String, left: String, right: String) -> Result<Answer, Mistake>
        ensures { MatchResult result (Obeys (Join name left right) self.old.bindings self.new.bindings)
            (RefusesCommand (Join name left right) self.old.bindings self.new.bindings) }
    {
        let (left, right) = self.bindings.take_two(left.as_str(), right.as_str())?;
        let joined = AnyDrawing::join(self.heap, left, right)?;
        self.keep(name, Binding::Drawing(joined))
    }

    // Renaming, hiding and sealing have one course. One function over the step would be longer: the closures that rename and hide
    // need clauses of their own.
    fn rename(&mut self, name: String, below: String, old: u8, new: u8) -> Result<Answer, Mistake>
        ensures { MatchResult result (Obeys (Rename name below old new) self.old.bindings self.new.bindings)
            (RefusesCommand (Rename name below old new) self.old.bindings self.new.bindings) }
    {
        let below = self.bindings.take(below.as_str())?;
        let renamed = AnyDrawing::rename(self.heap, below, old, new)?;
        self.keep(name, Binding::Drawing(renamed))
    }

    fn hide(&mut self, name: String, below: String, hidden: u8) -> Result<Answer, Mistake>
        ensures { MatchResult result (Obeys (Hide name below hidden) self.old.bindings self.new.bindings)
            (RefusesCommand (Hide name below hidden) self.old.bindings self.new.bindings) }
    {
        let below = self.bindings.take(below.as_str())?;
        let drawn = AnyDrawing::hide(self.heap, below, hidden)?;
        self.keep(name, Binding::Drawing(drawn))
    }

    fn seal(&mut self, name: String, drawing: String, number: u32) -> Result<Answer, Mistake>
        ensures { MatchResult result (Obeys (Seal name drawing number) self.old.bindings self.new.bindings)
            (RefusesCommand (Seal name drawing number) self.old.bindings self.new.bindings) }
    {
        let drawn = self.bindings.take(drawing.as_str())?;
        let sealed = Box::new(
            self.heap,
            BoundUnit {
                unit: Unit::seal(drawn, number),
            },
        )?;
        self.keep(name, Binding::SealedUnit(sealed))
    }

    fn verdict(&mut self, name: String) -> Result<Answer, Mistake>
        ensures { MatchResult result (Obeys (Verdict name) self.old.bindings self.new.bindings)
            (RefusesCommand (Verdict name) self.old.bindings self.new.bindings) }
    {
        let bound = self.bindings.unit(name.as_str())?;
        Ok(bound.verdict(self.heap, name.as_str())?)
    }

    fn outline(&mut self, name: String) -> Result<Answer, Mistake>
        ensures { MatchResult result (Obeys (Outline name) self.old.bindings self.new.bindings)
            (RefusesCommand (Outline name) self.old.bindings self.new.bindings) }
    {
        let binding = self.bindings.get(name.as_str())?;
        let answer = binding.outline(self.heap)?;
        Ok(answer)
    }

    fn ask<F: FileBytes>(
        &mut self,
        files: &F,
        name: String,
        asked: Question<ByteSource>,
    ) -> Result<Answer, Mistake>
        ensures { MatchResult result (Obeys (Ask name asked) self.old.bindings self.new.bindings)
            (RefusesCommand (Ask name asked) self.old.bindings self.new.bindings) }
    {
        let question = question_of(files, asked)?;
        let binding = self.bindings.get(name.as_str())?;
        let answer = binding.choice(self.heap, &question)?;
        Ok(answer)
    }
}
