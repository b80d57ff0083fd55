// `bench_core`: command lines over files in memory, at devices that fail. What the program answers over files on disk is
// in the end-to-end suite.
use crate::stored_files::failing_shelf;
use bench_core::{Words, bench};
use fx_io::{MemSink, SteadySink};
use std::alloc::{AllocError, Global};
use std::test::Fail;

const NET: &str =
    "net 1\nin a s16 0 1000\nin b s16.4 -160 160\nwire c s16 = Mfx_ConvertP2_s16_s16 b\nwire s s16 = Mfx_Add_s16s16_s16 a c\nout s\n";

const CERT: &str =
    "cert 1\npart a 0 1000 0\npart b -160 160 0\npart c -10 10 65536\npart s -10 1010 65536\n";

// The files by their names.
const FILES: [(&str, &str); 4] = [
    ("net", NET),
    ("cert", CERT),
    ("rows", "a,b\n5,-1\n1000,160\n"),
    ("short", "a,b\n1,0\n2\n"),
];

// A call that never comes.
const NONE: u64 = u64::MAX;

// The command lines that are tried.
#[derive(Clone, Copy)]
enum Line {
    CheckCert,
    RunRows,
    RunShort,
}

// Command lines, the call of the shelf and the one of the sink that fail; the status, what is printed and what is said. A
// start is call 0, its reads 1 and 2; the second file is started by call 3. Of a write that fails, half is written.
const ANSWERS: [(Line, u64, u64, u8, &str, &str); 7] = [
    (Line::CheckCert, NONE, NONE, 0, "accepted\n", ""),
    (
        Line::RunShort,
        NONE,
        NONE,
        4,
        "s\n1\n",
        "row 2: bad width\n",
    ),
    (Line::CheckCert, 0, NONE, 2, "", "cannot read net\n"),
    (Line::CheckCert, 3, NONE, 2, "", "cannot read cert\n"),
    (Line::RunRows, 3, NONE, 2, "", "cannot read rows\n"),
    (Line::CheckCert, NONE, 0, 7, "acce", "cannot write\n"),
    (Line::RunRows, NONE, 0, 7, "s", "cannot write\n"),
];

fn words_of(alloc: Global, line: Line) -> Result<Words, AllocError> {
    let (command, file) = match line {
        Line::CheckCert => ("check", "cert"),
        Line::RunRows => ("run", "rows"),
        Line::RunShort => ("run", "short"),
    };
    let mut words = Words::new(alloc);
    words.add(command)?;
    words.add("net")?;
    words.add(file)?;
    Ok(words)
}

fn sink_of(alloc: Global, failing: u64) -> Result<MemSink, AllocError> {
    Ok(MemSink::new(alloc, vec![in alloc; failing]?))
}

// The status of a command line, what was printed and what was said. It promises nothing, so that no test carries the
// clauses of the call.
fn answered(
    alloc: Global,
    line: Line,
    unread: u64,
    unwritten: u64,
) -> Result<(u8, MemSink, SteadySink), AllocError> {
    let words = words_of(alloc, line)?;
    let mut shelf = failing_shelf(alloc, &FILES, unread)?;
    let mut out = sink_of(alloc, unwritten)?;
    let mut err = SteadySink::new(alloc);
    let status = bench(alloc, &words, &mut shelf, &mut out, &mut err);
    Ok((status, out, err))
}

#[test]
fn answers_command_lines(rt: HostRuntime) -> Result<(), Fail> {
    for (line, unread, unwritten, status, out, err) in ANSWERS {
        let (found, printed, said) = answered(rt.alloc(), line, unread, unwritten)?;
        let given = (found, printed.written(), said.written());
        assert_eq!(rt; given, (status, out.as_bytes(), err.as_bytes()));
    }
    Ok(())
}
