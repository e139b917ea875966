//! Long expressions, put together from parts, and what is seen of names.
use expression::Seen;
use model::Names;
use std::alloc::Global;
use std::test::Fail;

pub fn nothing_seen() -> Seen {
    Seen {
        old: Names::none(),
        new: Names::none(),
    }
}

/// Each of the parts so many times, one after the other.
pub fn repeated(alloc: Global, parts: &[(&[u8], usize)]) -> Result<Vec<u8>, Fail> {
    let mut bytes = Vec::new(alloc);
    for (part, times) in parts {
        let row = part.repeat(alloc, *times)?;
        bytes.extend_from_slice(row.as_slice())?;
    }
    Ok(bytes)
}
