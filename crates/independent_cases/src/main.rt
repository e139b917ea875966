//! Runs the script on standard input, and prints of each answer the numbers before the words for people. The stored script
//! and what it must print were made by tools/independent.py, which shares no code with the library.
#![tactic(auto)]

use script::{FileBytes, Mistake, Session};
use std::io;
use std::io::{BufRead, BufReader};

// No file is named by the script.
#[derive(Drop)]
struct NoFiles;

impl FileBytes for NoFiles {
    fn read(&self, _path: &str) -> Result<Vec<u8>, Mistake> {
        Err(Mistake::Unreadable)
    }
}

fn numbers(answer: &str) -> &str {
    answer
        .split_once(" -- ")
        .map_or(answer, |(numbers, _)| numbers)
}

fn main(rt: HostRuntime) -> io::Result<()> {
    let heap = rt.alloc();
    let mut session = Session::new(heap);
    for line in BufReader::new(heap, rt.stdin())?.split(heap, b'\n') {
        match session.run(&NoFiles, line?.as_slice()) {
            Ok(Some(answer)) => {
                let text = answer.to_string(heap)?;
                println!(rt; "{}", numbers(text.as_str()))?
            }
            Ok(None) => {}
            Err(mistake) => println!(rt; "error: {mistake}")?,
        }
    }
    Ok(())
}
