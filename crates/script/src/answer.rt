//! What a line of a script is answered.
use reports::{ChoiceReport, DrawingReport, OutlineReport, VerdictReport};
use std::fmt;

/// What a line is answered, to be printed: numbers or fixed words for programs first, and words for people after ` -- `.
#[derive(Drop)]
pub enum Answer {
    /// No name stands for anything any more.
    Forgotten,
    /// A drawing was made.
    Drawing(DrawingReport<'static>),
    /// A unit was sealed, or asked for its verdict.
    Verdict(VerdictReport),
    /// A drawing was asked for its outline.
    Outline(OutlineReport),
    /// A drawing was asked after a choice.
    Choice(ChoiceReport),
}

impl fmt::Display for Answer {
    fn fmt<W: fmt::Write>(&self, f: &mut fmt::Formatter<W>) -> fmt::Result {
        match self {
            Answer::Forgotten => f.write_str("new -- all that was made is forgotten"),
            Answer::Drawing(report) => write!(f, "{report}"),
            Answer::Verdict(report) => write!(f, "{report}"),
            Answer::Outline(report) => write!(f, "{report}"),
            Answer::Choice(report) => write!(f, "{report}"),
        }
    }
}
