// A shelf and a sink in memory that fail at chosen calls.
ghost use Rattle.std.specs.Prelude.{◌≡◌, ◌+◌, ◌-◌, ◌/◌, ◌^◌, ◌≤◌, ◌≢◌, ◌||◌, not, min, [], ◌++◌, length, take, Some, OnOk, OnErr, IfOk, IsErr, IsTrue};
ghost use Rattle.std.specs.Io.{ReadsAtMost};
ghost use Rattle.std.specs.Io.KnownBytes.{IsAtEnd, ReadConsumes};
ghost use Rattle.fx_io.specs.Causes.{HasCause, HasSinkCause, Rose};
ghost use Rattle.fx_io.specs.Outside.{has_file, is_listed, FailsWhere, IsStarted, SetsName, WritesPiece};

use super::names::Names;
use super::outside::{Shelf, ShelfFault, Sink, SinkFault};
use super::stock::Stock;
use super::stored::Stored;
use std::alloc::Global;
use std::marker::Model;

/// A shelf over files in memory, on which chosen calls fail. A file that isn't there fails too.
#[derive(Drop)]
pub struct MemShelf {
    stock: Stock,
    names: Names,
    calls: Calls,
    faults: u64,
    alloc: Global,
}

impl Model for MemShelf {
    ghost use Rattle.fx_io.specs.States.{MemState};

    ghost Value = { MemState };

    ghost view = { λ s. record {
      files = s.stock.files;
      left = s.stock.left;
      faults = s.faults;
      named = s.names.named;
      failed = s.names.failed;
      failing = s.calls.failing.items;
      calls = s.calls.next;
    } };
}

impl MemShelf {
    /// These files, of which the first of a name counts, and none started. Starts and reads
    /// together are numbered from 0, and those listed in `failing` fail. It takes no memory.
    pub fn new(alloc: Global, files: Vec<Stored>, failing: Vec<u64>) -> MemShelf
        ensures files { result.files ≡ files.items }
        ensures left { result.left ≡ [] }
        ensures faults { result.faults ≡ 0 }
        ensures named { result.named ≡ [] }
        ensures failed { result.failed ≡ [] }
        ensures failing { result.failing ≡ failing.items }
        ensures calls { result.calls ≡ 0 }
    {
        MemShelf {
            stock: Stock::new(files),
            names: Names::new(alloc),
            calls: Calls::new(failing),
            faults: 0,
            alloc,
        }
    }

    // Counts a fault on the name in use.
    fn fail(&mut self) -> ShelfFault
        ensures fault { result ≡ ShelfFault.Failed }
        ensures faults { Rose self.old.faults self.new.faults }
        ensures count { self.old.faults ≤ self.new.faults }
        ensures failed { self.new.failed ≡ self.old.named }
        ensures named { self.new.named ≡ self.old.named }
        ensures files { self.new.files ≡ self.old.files }
        ensures left { self.new.left ≡ self.old.left }
        ensures failing { self.new.failing ≡ self.old.failing }
        ensures calls { self.new.calls ≡ self.old.calls }
    {
        self.faults = self.faults.saturating_add(1);
        self.names.fail();
        ShelfFault::Failed
    }
}

impl Shelf for MemShelf {
    ghost files = { λ s. Some s.files };

    ghost left = { λ s. Some s.left };

    ghost faults = { λ s. s.faults };

    ghost named = { λ s. s.named };

    ghost failed = { λ s. s.failed };

    fn start(&mut self, name: &str) -> Result<(), ShelfFault>
        ensures started { OnOk result (IsStarted (Some self.old.files) name.now (Some self.new.left)) }
        ensures stopped { OnErr result (IsAtEnd (Some self.new.left)) }
        ensures cause { HasCause self.old.faults self.new.faults self.new.named self.old.failed
            self.new.failed result }
        ensures name { SetsName name.now self.old.named self.new.named result }
        ensures files { Some self.new.files ≡ Some self.old.files }

        // It fails where its number is listed or the name isn't there, and only there.
        ensures fails { FailsWhere (is_listed self.old.failing self.old.calls
            || not (has_file self.old.files name.now)) result }
        ensures calls { self.new.calls ≡ min (self.old.calls + 1) (2 ^ 64 - 1) }
        ensures failing { self.new.failing ≡ self.old.failing }
    {
        let fails = self.calls.does_next_fail();
        self.stock.close();
        match String::from_str(self.alloc, name) {
            Ok(copy) => self.names.set(copy),
            Err(_) => return Err(ShelfFault::OutOfMemory),
        }
        if !fails && self.stock.open(name) {
            return Ok(());
        }
        Err(self.fail())
    }

    fn read(&mut self, into: &mut [u8]) -> Result<usize, ShelfFault>
        ensures bound { ReadsAtMost result into.new }
        ensures bytes { ReadConsumes (Some self.old.left) (Some self.new.left) result into.new }
        ensures cause { HasCause self.old.faults self.new.faults self.new.named self.old.failed
            self.new.failed result }
        ensures name { self.new.named ≡ self.old.named }
        ensures files { Some self.new.files ≡ Some self.old.files }

        // It fails where its number is listed, and else gives as many bytes as are left and fit.
        ensures fails { FailsWhere (is_listed self.old.failing self.old.calls) result }
        ensures memory { result ≢ Err ShelfFault.OutOfMemory }
        ensures count { IfOk result (λ n. n ≡ min (length self.old.left) (length into.old)) }
        ensures calls { self.new.calls ≡ min (self.old.calls + 1) (2 ^ 64 - 1) }
        ensures failing { self.new.failing ≡ self.old.failing }
    {
        if self.calls.does_next_fail() {
            return Err(self.fail());
        }
        Ok(self.stock.read(into))
    }

    ghost told = { λ _ t. t };
}

/// A sink in memory, on which chosen writes fail.
#[derive(Drop)]
pub struct MemSink {
    kept: Vec<u8>,
    calls: Calls,
    faults: u64,
}

impl Model for MemSink {
    ghost use Rattle.fx_io.specs.States.{MemSinkState};

    ghost Value = { MemSinkState };

    ghost view = { λ s. record {
      written = s.kept.items;
      faults = s.faults;
      failing = s.calls.failing.items;
      calls = s.calls.next;
    } };
}

impl MemSink {
    /// Nothing written yet. The writes are numbered from 0; one that is listed in `failing`
    /// appends the first half of its piece, rounded down, and fails. It takes no memory.
    pub fn new(alloc: Global, failing: Vec<u64>) -> MemSink
        ensures written { result.written ≡ [] }
        ensures faults { result.faults ≡ 0 }
        ensures failing { result.failing ≡ failing.items }
        ensures calls { result.calls ≡ 0 }
    {
        MemSink {
            kept: Vec::new(alloc),
            calls: Calls::new(failing),
            faults: 0,
        }
    }

    /// All bytes that were written.
    pub fn written(&self) -> &[u8]
        ensures { result.now ≡ self.now.written }
    {
        self.kept.as_slice()
    }
}

impl Sink for MemSink {
    ghost written = { λ s. Some s.written };

    ghost faults = { λ s. s.faults };

    fn write(&mut self, piece: &[u8]) -> Result<(), SinkFault>
        ensures bytes { WritesPiece (Some self.old.written) (Some self.new.written) piece.now result }
        ensures cause { HasSinkCause self.old.faults self.new.faults result }

        // A write that is listed fails, with half of its piece appended.
        ensures listed { IsTrue (is_listed self.old.failing self.old.calls) → IsErr result }
        ensures only { result ≡ Err SinkFault.Failed →
            IsTrue (is_listed self.old.failing self.old.calls) }
        ensures half { result ≡ Err SinkFault.Failed →
            self.new.written ≡ self.old.written ++ take (length piece.now / 2) piece.now }
        ensures calls { self.new.calls ≡ min (self.old.calls + 1) (2 ^ 64 - 1) }
        ensures failing { self.new.failing ≡ self.old.failing }
    {
        if self.calls.does_next_fail() {
            match self.kept.extend_from_slice(&piece[..piece.len() / 2]) {
                Ok(()) => {}
                Err(_) => return Err(SinkFault::OutOfMemory),
            }
            self.faults = self.faults.saturating_add(1);
            return Err(SinkFault::Failed);
        }
        match self.kept.extend_from_slice(piece) {
            Ok(()) => Ok(()),
            Err(_) => Err(SinkFault::OutOfMemory),
        }
    }
}

/// Calls that are numbered from 0, of which those listed fail.
#[derive(Drop)]
struct Calls {
    failing: Vec<u64>,
    next: u64,
}

impl Calls {
    fn new(failing: Vec<u64>) -> Calls
        ensures failing { result.failing ≡ failing }
        ensures next { result.next ≡ 0 }
    {
        Calls { failing, next: 0 }
    }

    // Counts a call, and says whether it is one that fails.
    fn does_next_fail(&mut self) -> bool
        ensures fails { result ≡ is_listed self.old.failing.items self.old.next }
        ensures next { self.new.next ≡ min (self.old.next + 1) (2 ^ 64 - 1) }
        ensures failing { self.new.failing ≡ self.old.failing }
    {
        let call = self.next;
        self.next = call.saturating_add(1);
        self.failing.contains(&call)
    }
}
