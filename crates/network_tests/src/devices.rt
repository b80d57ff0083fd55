// `fx_io`: files in memory and on disk, and devices that fail at chosen calls.

use crate::stored_files::{failing_shelf, stored_files};
use fx_io::{
    FileShelf, ReadAllFault, Shelf, ShelfFault, Sink, SinkFault, StdSink, SteadyShelf, read_all,
};
use std::alloc::{AllocError, Global};
use std::test::Fail;

// A full file, one that is a byte longer, and one that the first hides.
const FILES: [(&str, &str); 3] = [("full", "four"), ("over", "fives"), ("full", "hidden")];

// The names of files that are read up to four bytes, the call of the shelf that fails, and what is read, with the fault if
// there is one. A start is call 0, its reads are 1 and 2.
const READS: [(&str, u64, &[u8], Option<ReadAllFault>); 5] = [
    ("full", 3, b"four", None),
    ("over", 3, b"", Some(ReadAllFault::TooLong)),
    ("absent", 3, b"", Some(ReadAllFault::ReadFault)),
    ("full", 0, b"", Some(ReadAllFault::ReadFault)),
    ("full", 2, b"", Some(ReadAllFault::ReadFault)),
];

// What is read of a file in memory.
fn read(
    alloc: Global,
    name: &str,
    failing: u64,
) -> Result<(Vec<u8>, Option<ReadAllFault>), AllocError> {
    let mut shelf = failing_shelf(alloc, &FILES, failing)?;
    match read_all(alloc, &mut shelf, name, 4) {
        Ok(bytes) => Ok((bytes, None)),
        Err(fault) => Ok((Vec::new(alloc), Some(fault))),
    }
}

// What is read of a file by a shelf that doesn't fail.
fn read_steadily(alloc: Global) -> Result<Vec<u8>, Fail> {
    let mut shelf = SteadyShelf::new(alloc, stored_files(alloc, &FILES)?);
    Ok(read_all(alloc, &mut shelf, "full", 4)?)
}

#[test]
fn reads_files_in_memory(rt: HostRuntime) -> Result<(), Fail> {
    for (name, failing, bytes, fault) in READS {
        let found = read(rt.alloc(), name, failing)?;
        assert_eq!(rt; (found.0.as_slice(), found.1), (bytes, fault));
    }
    assert_eq!(rt; read_steadily(rt.alloc())?.as_slice(), b"four".as_slice());
    Ok(())
}

// The stored run of the program reads two files with bytes in them.
#[test]
fn reads_real_files(rt: HostRuntime) -> Result<(), Fail> {
    let alloc = rt.alloc();
    let mut shelf = FileShelf::new(rt.clone()?, alloc);
    assert!(rt; read_all(alloc, &mut shelf, "/dev/null", 6)?.is_empty());
    assert_eq!(rt; shelf.start("no such file"), Err(ShelfFault::Failed));
    Ok(())
}

// What a writer has of three pieces.
fn written(alloc: Global) -> Result<Vec<u8>, SinkFault> {
    let mut kept: Vec<u8> = Vec::new(alloc);
    let mut sink = StdSink::new(&mut kept);
    sink.write(b"12,")?;
    sink.write(b"")?;
    sink.write(b"34\n")?;
    drop(sink);
    Ok(kept)
}

#[test]
fn writes_to_a_writer(rt: HostRuntime) -> Result<(), Fail> {
    assert_eq!(rt; written(rt.alloc())?.as_slice(), b"12,34\n".as_slice());
    Ok(())
}
