// Files in memory, and a shelf of them that fails.

use fx_io::{MemShelf, Stored};
use std::alloc::{AllocError, Global};

// The files of these names and texts.
pub(crate) fn stored_files(
    alloc: Global,
    files: &[(&str, &str)],
) -> Result<Vec<Stored>, AllocError> {
    let mut stored = Vec::new(alloc);
    for (name, text) in files {
        let name = String::from_str(alloc, name)?;
        let bytes = Vec::from_slice(alloc, text.as_bytes())?;
        stored.push(Stored::new(name, bytes))?;
    }
    Ok(stored)
}

// A shelf of these files, whose call of this number fails.
pub(crate) fn failing_shelf(
    alloc: Global,
    files: &[(&str, &str)],
    failing: u64,
) -> Result<MemShelf, AllocError> {
    let files = stored_files(alloc, files)?;
    Ok(MemShelf::new(alloc, files, vec![in alloc; failing]?))
}
