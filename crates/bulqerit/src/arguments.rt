//! The command line.
use clap::{Arg, ArgMatches, Command};
use std::alloc::{AllocError, Global};

// What stands below the options in the help.
const LANGUAGE: &str = "Lines of a script:
  new                               forget everything made so far
  table D BYTES                     open a byte table under the name D
  gates D BYTES                     open a gate list under the name D
  join NEW A B                      join two drawings, which are used up
  rename NEW A OLD NEWNAME          put one name for another in a drawing, which is used up
  hide NEW A NAME                   make an interface name private in a drawing, which is used up
  seal U A NUMBER                   seal a drawing as a unit, and tell its verdict
  verdict U                         tell the verdict on a unit
  outline D                         tell the outline of a drawing or a unit
  ask D ROUND ATOM CHOICE OLD NEW   ask after one choice of an atom, at two states

BYTES are hex digits, - for none, or @PATH for those of a file; states may be written 0=1,7=2 too.

Example:
  echo 'gates d 0000FF01FF' | bulqerit
";

/// A script's path, which may be left out.
pub fn arguments<'a>(heap: Global) -> Result<Command<'a>, AllocError> {
    let script = Arg::new(heap, "script")
        .value_name("SCRIPT")
        .help("The script's path; - or nothing for standard input");
    Command::new(heap, "bulqerit")
        .version("0.1")
        .about("Runs a script over drawings of reactive modules and sealed units")
        .after_help(LANGUAGE)
        .arg(script)
}

/// The path of the script; None for standard input.
pub fn script_of<'a>(matches: &ArgMatches<'a>) -> Option<&'a str> {
    matches.get_str("script").filter(|path| *path != "-")
}
