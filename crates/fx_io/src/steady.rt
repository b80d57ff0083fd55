// A shelf and a sink in memory that never fail.
ghost use Rattle.std.specs.Prelude.{◌≡◌, ℕ, ◌<◌, [], ◌++◌, length, min, None, Some, IfOk};
ghost use Rattle.std.specs.Io.{ReadsAtMost};
ghost use Rattle.std.specs.Io.KnownBytes.{ReadConsumes};
ghost use Rattle.fx_io.specs.Causes.{HasCause};

use super::outside::{Shelf, ShelfFault, Sink, SinkFault};
use super::stock::Stock;
use super::stored::Stored;
use std::alloc::Global;
use std::marker::Model;

/// A shelf over files in memory that never fails. A file that isn't there starts as an empty one.
#[derive(Drop)]
pub struct SteadyShelf {
    stock: Stock,
    name: String,
    alloc: Global,
}

impl Model for SteadyShelf {
    ghost use Rattle.std.specs.Prelude.{string_bytes};
    ghost use Rattle.fx_io.specs.States.{SteadyState};

    ghost Value = { SteadyState };

    ghost view = { λ s. record {
      files = s.stock.files;
      left = s.stock.left;
      named = string_bytes s.name;
    } };
}

impl SteadyShelf {
    /// These files, of which the first of a name counts, and none started. It takes no memory.
    pub fn new(alloc: Global, files: Vec<Stored>) -> SteadyShelf
        ensures files { result.files ≡ files.items }
        ensures left { result.left ≡ [] }
        ensures named { result.named ≡ [] }
    {
        SteadyShelf {
            stock: Stock::new(files),
            name: String::new(alloc),
            alloc,
        }
    }
}

impl Shelf for SteadyShelf {
    ghost files = { λ s. Some s.files };

    ghost left = { λ s. Some s.left };

    ghost faults = { λ _. 0 };

    ghost named = { λ s. s.named };

    ghost failed = { λ _. [] };

    fn start(&mut self, name: &str) -> Result<(), ShelfFault> {
        self.stock.close();
        self.name = String::from_str(self.alloc, name)?;
        let _is_there = self.stock.open(name);
        Ok(())
    }

    fn read(&mut self, into: &mut [u8]) -> Result<usize, ShelfFault>
        ensures bound { ReadsAtMost result into.new }
        ensures bytes { ReadConsumes (Some self.old.left) (Some self.new.left) result into.new }
        ensures cause { HasCause 0 0 self.new.named [] [] result }
        ensures name { self.new.named ≡ self.old.named }
        ensures files { Some self.new.files ≡ Some self.old.files }

        // It gives as many bytes as are left and fit.
        ensures count { result ≡ Ok (min (length self.old.left) (length into.old)) }
    {
        Ok(self.stock.read(into))
    }

    ghost told = { λ _ t. t };
}

/// A sink in memory that never fails.
#[derive(Drop)]
pub struct SteadySink {
    kept: Vec<u8>,
}

impl Model for SteadySink {
    ghost use Rattle.std.specs.Prelude.{ℕ, List};

    ghost Value = { List ℕ };

    ghost view = { λ s. s.kept.items };
}

impl SteadySink {
    /// Nothing written yet. It takes no memory.
    pub fn new(alloc: Global) -> SteadySink
        ensures { result ≡ [] }
    {
        SteadySink {
            kept: Vec::new(alloc),
        }
    }

    /// All bytes that were written.
    pub fn written(&self) -> &[u8]
        ensures { result.now ≡ self.now }
    {
        self.kept.as_slice()
    }
}

impl Sink for SteadySink {
    ghost written = { λ s. Some s };

    ghost faults = { λ _. 0 };

    fn write(&mut self, piece: &[u8]) -> Result<(), SinkFault> {
        self.kept.extend_from_slice(piece)?;
        Ok(())
    }
}
