// The program `bench`: hands the words, the files and the standard streams to the top call, and ends
// with its status.
#![tactic(auto)]

use bench_core::{Words, bench};
use fx_io::{FileShelf, StdSink};
use std::alloc::AllocError;
use std::env;
use std::io::ErrorKind;
use std::process::ExitCode;

// The status where there is no memory for the words, as the top call has it.
const OUT_OF_MEMORY: u8 = 8;

// The words behind the program's name. Where one isn't text there are none, which asks for no command.
fn words(rt: &HostRuntime) -> Result<Words, AllocError> {
    let mut words = Words::new(rt.alloc());
    match env::args(rt) {
        Ok(args) => {
            for word in args.skip(1) {
                words.add(word.as_str())?;
            }
        }
        Err(error) => {
            if error.kind() == ErrorKind::OutOfMemory {
                return Err(AllocError);
            }
        }
    }
    Ok(words)
}

fn main(rt: HostRuntime) -> ExitCode {
    let Ok(words) = words(&rt) else {
        return ExitCode::from(OUT_OF_MEMORY);
    };
    let alloc = rt.alloc();
    let mut out = StdSink::new(rt.stdout());
    let mut err = StdSink::new(rt.stderr());
    let mut shelf = FileShelf::new(rt, alloc);
    ExitCode::from(bench(alloc, &words, &mut shelf, &mut out, &mut err))
}
