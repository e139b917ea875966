//! Runs a script: reads it, and prints an answer for each line that asks for something.
ghost use Rattle.script.specs.declared.mistake.Mistake.TheVariants.{Unreadable, NoMemory};
ghost use Rattle.std.specs.Prelude.{◌≡◌, ◌⊎◌};

use script::{FileBytes, Mistake, Session};
use std::fs::File;
use std::io::{BufRead, BufReader};
use std::process::ExitCode;
use std::{fs, io};

// The files of the system.
#[derive(Drop)]
struct Disk<'a> {
    rt: &'a HostRuntime,
}

// What a file is refused for that could not be read for this reason. No `From`: this is so of the files that a script names alone.
fn reading_mistake(kind: io::ErrorKind) -> Mistake
    ensures { (result ≡ Unreadable) ⊎ (result ≡ NoMemory) }
{
    match kind {
        io::ErrorKind::OutOfMemory => Mistake::NoMemory,
        _ => Mistake::Unreadable,
    }
}

impl FileBytes for Disk<'_> {
    fn read(&self, path: &str) -> Result<Vec<u8>, Mistake> {
        fs::read(self.rt, path).map_err(|e| reading_mistake(e.kind()))
    }
}

// Runs the lines in turn, and tells whether all were right.
fn run_lines<S: BufRead + Drop>(rt: &HostRuntime, script: S) -> io::Result<bool> {
    let heap = rt.alloc();
    let disk = Disk { rt };
    let mut session = Session::new(heap);
    let mut all_right = true;
    for (number, line) in (1u64..).zip(script.split(heap, b'\n')) {
        match session.run(&disk, line?.as_slice()) {
            Ok(Some(answer)) => println!(rt; "{answer}")?,
            Ok(None) => {}
            Err(mistake) => {
                println!(rt; "error: line {number}: {mistake}")?;
                all_right = false;
            }
        }
    }
    Ok(all_right)
}

/// Runs the script at the path, or standard input where there is none. The status is 1 where a line was refused.
pub fn run_script(rt: &HostRuntime, path: Option<&str>) -> anyhow::Result<ExitCode> {
    let all_right = match path {
        Some(path) => {
            let file = File::open(rt, path)?;
            run_lines(rt, BufReader::new(rt.alloc(), file)?)?
        }
        None => run_lines(rt, BufReader::new(rt.alloc(), rt.stdin())?)?,
    };
    Ok(if all_right {
        ExitCode::SUCCESS
    } else {
        ExitCode::FAILURE
    })
}
