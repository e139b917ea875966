//! How the tests run a line.
use script::{FileBytes, Mistake, Session};
use std::alloc::{AllocError, Global};
use std::process::Abort;

/// The only file is `zeros`, a state of zeros.
#[derive(Drop)]
struct OneFile {
    heap: Global,
}

impl FileBytes for OneFile {
    fn read(&self, path: &str) -> Result<Vec<u8>, Mistake> {
        if path != "zeros" {
            return Err(Mistake::Unreadable);
        }
        Ok([0u8; 32].to_vec(self.heap)?)
    }
}

pub fn new_session(heap: Global) -> Session {
    Session::new(heap)
}

/// What the line is answered, or an empty text.
pub fn answer(heap: Global, session: &mut Session, line: &str) -> Result<String, Mistake> {
    match session.run(&OneFile { heap }, line.as_bytes())? {
        Some(answer) => Ok(answer.to_string(heap)?),
        None => Ok(String::new(heap)),
    }
}

/// The mistake that the line is refused for, if it is.
pub fn mistake(heap: Global, session: &mut Session, line: &[u8]) -> Option<Mistake> {
    session.run(&OneFile { heap }, line).err()
}

/// Each line is answered by the text beside it.
pub fn check_answers(
    rt: &impl Abort,
    heap: Global,
    session: &mut Session,
    lines: &[(&str, &str)],
) -> Result<(), Mistake> {
    for (line, text) in lines {
        assert_eq!(rt; answer(heap, session, line)?.as_str(), *text, "{line}");
    }
    Ok(())
}

/// Each line is refused, for the mistake beside it.
pub fn check_refused(
    rt: &impl Abort,
    heap: Global,
    session: &mut Session,
    lines: &[(&str, Mistake)],
) {
    for (line, why) in lines {
        assert_eq!(rt;
            mistake(heap, session, line.as_bytes()),
            Some(*why),
            "{line}"
        );
    }
}
