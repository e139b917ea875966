//! Scripts: the words of a line, the command that they spell, and the session that obeys it.
#![tactic(auto)]

mod answer;
mod binding;
mod bindings;
mod command;
mod hex_digits;
mod mistake;
mod number;
mod session;
mod source;
mod states;
mod verb;

pub use answer::Answer;
pub use command::{Command, parse};
pub use hex_digits::bytes_of_hex;
pub use mistake::Mistake;
pub use session::Session;
pub use source::{ByteSource, FileBytes, state_of};
