// Shelves and sinks over the real outside: the trusted edge.
ghost use Rattle.std.specs.Prelude.{◌≡◌, ◌≢◌, ℕ, ◌<◌, ◌≤◌, [], length, take, None, IfSome, Some, IfNone, IfOk, OnOk};
ghost use Rattle.std.specs.Bool.{OnFalse, OnTrue};
ghost use Rattle.std.specs.Io.{ReadsAtMost};
ghost use Rattle.std.specs.Io.KnownBytes.{Appends, Consumes, IsAtEnd, ReadConsumes};
ghost use Rattle.fx_io.specs.Causes.{HasCause, HasSinkCause, Rose};
ghost use Rattle.fx_io.specs.Outside.{WritesPiece};

use super::names::Names;
use super::outside::{Shelf, ShelfFault, Sink, SinkFault};
use std::alloc::Global;
use std::fs;
use std::io::{ErrorKind, Read, Write};
use std::marker::Model;
use std::rt::Files;

/// A shelf of the real files, by their paths. It tells nothing of their content.
#[derive(Drop)]
pub struct FileShelf<R: Files + Drop> {
    rt: R,
    alloc: Global,
    file: Option<R::File>,
    names: Names,
    faults: u64,
}

impl<R: Files + Drop> Model for FileShelf<R> {
    ghost use Rattle.std.specs.Prelude.{[], Some};
    ghost use Rattle.std.specs.Option.{option_map_or};
    ghost use Rattle.fx_io.specs.States.{FileState};

    ghost Value = { FileState };

    ghost view = { λ s. record {
      coming = option_map_or (λ file. R.File.remaining file) s.file (Some []);
      faults = s.faults;
      named = s.names.named;
      failed = s.names.failed;
    } };
}

impl<R: Files + Drop> FileShelf<R> {
    /// The files that `rt` reaches, none of them started. It takes no memory.
    pub fn new(rt: R, alloc: Global) -> FileShelf<R>
        ensures coming { result.coming ≡ Some [] }
        ensures faults { result.faults ≡ 0 }
        ensures named { result.named ≡ [] }
        ensures failed { result.failed ≡ [] }
    {
        FileShelf {
            rt,
            alloc,
            file: None,
            names: Names::new(alloc),
            faults: 0,
        }
    }
}

impl<R: Files + Drop> Shelf for FileShelf<R> {
    ghost files = { λ _. None };

    ghost left = { λ _. None };

    ghost faults = { λ s. s.faults };

    ghost named = { λ s. s.named };

    ghost failed = { λ s. s.failed };

    fn start(&mut self, name: &str) -> Result<(), ShelfFault> {
        self.file = None;
        match String::from_str(self.alloc, name) {
            Ok(copy) => self.names.set(copy),
            Err(_) => return Err(ShelfFault::OutOfMemory),
        }
        match fs::open(&self.rt, name) {
            Ok(file) => {
                self.file = Some(file);
                Ok(())
            }
            Err(_) => {
                self.faults = self.faults.saturating_add(1);
                self.names.fail();
                Err(ShelfFault::Failed)
            }
        }
    }

    fn read(&mut self, into: &mut [u8]) -> Result<usize, ShelfFault>
        ensures bound { ReadsAtMost result into.new }
        ensures bytes { ReadConsumes None None result into.new }
        ensures cause { HasCause self.old.faults self.new.faults self.new.named self.old.failed
            self.new.failed result }
        ensures name { self.new.named ≡ self.old.named }

        // It gives what the file gives, 0 only at its end, and fails in no other way than by a fault.
        ensures given { IfOk result
            (λ n. Consumes self.old.coming self.new.coming (take n into.new)) }
        ensures end { IfOk result (λ n. n ≡ 0 → 0 < length into.old → IsAtEnd self.new.coming) }
        ensures memory { result ≢ Err ShelfFault.OutOfMemory }
    {
        let Some(file) = &mut self.file else {
            return Ok(0);
        };
        match read_some(file, into, &mut self.faults) {
            Some(count) => Ok(count),
            None => {
                self.names.fail();
                Err(ShelfFault::Failed)
            }
        }
    }

    ghost told = { λ _ t. t };
}

/// A sink over a real writer. It tells nothing of what the writer holds.
#[derive(Drop)]
pub struct StdSink<W: Write + Drop> {
    writer: W,
    faults: u64,
}

impl<W: Write + Drop> Model for StdSink<W> {
    ghost use Rattle.fx_io.specs.States.{StdSinkState};

    ghost Value = { StdSinkState };

    ghost view = { λ s. record { held = W.contents s.writer; faults = s.faults } };
}

impl<W: Write + Drop> StdSink<W> {
    /// The writer, with no fault so far. It takes no memory.
    pub fn new(writer: W) -> StdSink<W>
        ensures held { result.held ≡ W.contents writer }
        ensures faults { result.faults ≡ 0 }
    {
        StdSink { writer, faults: 0 }
    }
}

impl<W: Write + Drop> Sink for StdSink<W> {
    ghost written = { λ _. None };

    ghost faults = { λ s. s.faults };

    fn write(&mut self, piece: &[u8]) -> Result<(), SinkFault>
        ensures bytes { WritesPiece None None piece.now result }
        ensures cause { HasSinkCause self.old.faults self.new.faults result }

        // The writer took the whole piece, and it fails in no other way than by a fault.
        ensures held { OnOk result (Appends self.old.held self.new.held piece.now) }
        ensures memory { result ≢ Err SinkFault.OutOfMemory }
    {
        if write_whole(&mut self.writer, piece, &mut self.faults) {
            Ok(())
        } else {
            Err(SinkFault::Failed)
        }
    }
}

// One read, begun again where it was interrupted. Each error counts. None: it failed.
fn read_some<F: Read>(file: &mut F, into: &mut [u8], faults: &mut u64) -> Option<usize>
    ensures bound { IfSome result (λ n. n ≤ length into.new) }
    ensures bytes { IfSome result
        (λ n. Consumes (F.remaining file.old) (F.remaining file.new) (take n into.new)) }
    ensures end { IfSome result
        (λ n. n ≡ 0 → 0 < length into.new → IsAtEnd (F.remaining file.new)) }
    ensures count { faults.old ≤ faults.new }
    ensures failed { IfNone result (Rose faults.old faults.new) }
{
    for _ in 0..u64::MAX {
        match file.read(into) {
            Ok(count) => return Some(count),
            Err(error) => {
                *faults = faults.saturating_add(1);
                if error.kind() != ErrorKind::Interrupted {
                    return None;
                }
            }
        }
    }
    *faults = faults.saturating_add(1);
    None
}

// Writes the whole piece, as many writes as that takes. Each error counts, and so does a write
// that takes nothing.
fn write_whole<W: Write>(writer: &mut W, piece: &[u8], faults: &mut u64) -> bool
    ensures count { faults.old ≤ faults.new }
    ensures failed { OnFalse result (Rose faults.old faults.new) }
    ensures whole { OnTrue result
        (Appends (W.contents writer.old) (W.contents writer.new) piece.now) }
{
    let mut rest = piece;
    for _ in 0..u64::MAX {
        if rest.is_empty() {
            break;
        }
        match writer.write(rest) {
            Ok(count) if count > 0 => rest = &rest[count..],
            Err(error) if error.kind() == ErrorKind::Interrupted => {
                *faults = faults.saturating_add(1);
            }
            _ => {
                *faults = faults.saturating_add(1);
                return false;
            }
        }
    }
    if rest.is_empty() && writer.flush().is_ok() {
        return true;
    }
    *faults = faults.saturating_add(1);
    false
}
