// The two traits of the outside.
ghost use Rattle.std.specs.Prelude.{◌≡◌, ℕ, ◌+◌, ◌<◌, ◌≤◌, List, length, IsSome, OnOk, OnErr};
ghost use Rattle.std.specs.declared.option.Option.{Option};
ghost use Rattle.std.specs.Io.{ReadsAtMost};
ghost use Rattle.std.specs.Io.KnownBytes.{IsAtEnd, ReadConsumes};
ghost use Rattle.fx_io.specs.Causes.{HasCause, HasSinkCause};
ghost use Rattle.fx_io.specs.Outside.{IsStarted, SetsName, WritesPiece};

use std::alloc::AllocError;

/// Why a call of a [`Shelf`] gave nothing.
#[derive(Clone, Copy, Debug, PartialEq, Eq)]
pub enum ShelfFault {
    /// The outside failed: the count of faults rose in this call.
    Failed,
    /// Memory ran out.
    OutOfMemory,
}

impl From<AllocError> for ShelfFault {
    ghost use Rattle.std.specs.Prelude.{◌≡◌};
    ghost use Rattle.fx_io.specs.declared.outside.ShelfFault.{ShelfFault};

    ghost from_gives = { λ _ e. e ≡ ShelfFault.OutOfMemory };

    fn from(_error: AllocError) -> ShelfFault {
        ShelfFault::OutOfMemory
    }
}

/// Why a [`Sink`] took less than the piece.
#[derive(Clone, Copy, Debug, PartialEq, Eq)]
pub enum SinkFault {
    /// The outside failed: the count of faults rose in this call.
    Failed,
    /// Memory ran out.
    OutOfMemory,
}

impl From<AllocError> for SinkFault {
    ghost use Rattle.std.specs.Prelude.{◌≡◌};
    ghost use Rattle.fx_io.specs.declared.outside.SinkFault.{SinkFault};

    ghost from_gives = { λ _ e. e ≡ SinkFault.OutOfMemory };

    fn from(_error: AllocError) -> SinkFault {
        SinkFault::OutOfMemory
    }
}

/// Named files that are read one after another, from the front.
pub trait Shelf {
    // The files by name, where they are known. The first of a name counts; they never change.
    ghost files: { Self → Option (List (List ℕ × List ℕ)) };

    // The bytes of the started file that are still to come, where they are known.
    ghost left: { Self → Option (List ℕ) };

    // How many faults came so far, up to 2^64 - 1.
    ghost faults: { Self → ℕ };

    // The name of the last start that answered Ok or `Failed`.
    ghost named: { Self → List ℕ };

    // The name in use when the last `Failed` came.
    ghost failed: { Self → List ℕ };

    /// Gives up the file that was started before, and starts the named one at its first byte.
    /// At an error no file is started, and nothing is left to read.
    fn start(&mut self, name: &str) -> Result<(), ShelfFault>
        ensures started { OnOk result (IsStarted (files self.old) name.now (left self.new)) }
        ensures stopped { OnErr result (IsAtEnd (left self.new)) }
        ensures cause { HasCause (faults self.old) (faults self.new) (named self.new)
            (failed self.old) (failed self.new) result }
        ensures name { SetsName name.now (named self.old) (named self.new) result }
        ensures files { files self.new ≡ files self.old };

    /// Reads the next bytes of the started file into the front of `into`, and says how many.
    /// It gives 0 exactly where nothing is left. At an error nothing was taken.
    fn read(&mut self, into: &mut [u8]) -> Result<usize, ShelfFault>
        requires { 0 < length into.old }
        ensures bound { ReadsAtMost result into.new }
        ensures bytes { ReadConsumes (left self.old) (left self.new) result into.new }
        ensures cause { HasCause (faults self.old) (faults self.new) (named self.new)
            (failed self.old) (failed self.new) result }
        ensures name { named self.new ≡ named self.old }
        ensures files { files self.new ≡ files self.old };

    ghost told: { (shelf : Self) → IsSome (files shelf) → IsSome (left shelf) };
}

/// What takes bytes, one piece after another.
pub trait Sink {
    // All bytes that were written so far, where they are known.
    ghost written: { Self → Option (List ℕ) };

    // How many faults came so far, up to 2^64 - 1.
    ghost faults: { Self → ℕ };

    /// Appends the piece. At an error a part from the front of the piece was appended.
    fn write(&mut self, piece: &[u8]) -> Result<(), SinkFault>
        ensures bytes { WritesPiece (written self.old) (written self.new) piece.now result }
        ensures cause { HasSinkCause (faults self.old) (faults self.new) result };
}
