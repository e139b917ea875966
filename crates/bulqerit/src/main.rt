//! Runs a script over tables, gate lists, piles and units: reads it line by line, and prints an answer for each line that asks for
//! something. docs/script.md has the language.
#![tactic(auto)]

mod arguments;
mod console;

use arguments::{arguments, script_of};
use std::env;
use std::process::ExitCode;

// A wrong use ends with status 2; help and the version are no wrong use.
fn status_of(error: &clap::Error) -> ExitCode {
    if error.use_stderr() {
        ExitCode::from(2)
    } else {
        ExitCode::SUCCESS
    }
}

// Runs the script that the words of the command line name.
fn run(rt: &HostRuntime) -> anyhow::Result<ExitCode> {
    let heap = rt.alloc();
    let words: Vec<String> = env::args(rt)?.collect(heap)?;
    match arguments(heap)?.try_get_matches_from(words.as_slice()) {
        Ok(matches) => console::run_script(rt, script_of(&matches)),
        Err(error) => {
            error.print(rt)?;
            Ok(status_of(&error))
        }
    }
}

fn main(rt: HostRuntime) -> ExitCode {
    match run(&rt) {
        Ok(status) => status,
        Err(e) => {
            let _ = eprintln!(rt; "error: the script cannot be run: {e}");
            ExitCode::FAILURE
        }
    }
}
