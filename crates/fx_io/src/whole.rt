// A whole file in memory.
ghost use Rattle.std.specs.Prelude.{◌≡◌, ℕ, ◌+◌, ◌^◌, ◌<◌, ◌≤◌, ◌++◌, length, take, vec_items, vec_len, IfOk, OnOk};
ghost use Rattle.std.specs.Io.KnownBytes.{ReadConsumes};
ghost use Rattle.fx_io.specs.Causes.{HasCause};
ghost use Rattle.fx_io.specs.Whole.{HasReadCause, IsReadOut, IsReadUpTo, ReadsAll};

use super::outside::{Shelf, ShelfFault};
use std::alloc::{AllocError, Global};

// The most bytes that are asked for in one read.
const PIECE: usize = 0x1_0000;

/// Why a file was not read whole.
#[derive(Clone, Copy, Debug, PartialEq, Eq)]
pub enum ReadAllFault {
    /// The shelf failed on this file: its count of faults rose in this call.
    ReadFault,
    /// The file has more bytes than the limit.
    TooLong,
    /// Memory ran out.
    OutOfMemory,
}

impl From<ShelfFault> for ReadAllFault {
    ghost use Rattle.std.specs.Prelude.{◌≡◌};
    ghost use Rattle.fx_io.specs.Whole.{fault_of};

    ghost from_gives = { λ fault e. e ≡ fault_of fault };

    fn from(fault: ShelfFault) -> ReadAllFault {
        match fault {
            ShelfFault::Failed => ReadAllFault::ReadFault,
            ShelfFault::OutOfMemory => ReadAllFault::OutOfMemory,
        }
    }
}

impl From<AllocError> for ReadAllFault {
    ghost use Rattle.std.specs.Prelude.{◌≡◌};
    ghost use Rattle.fx_io.specs.declared.whole.ReadAllFault.{ReadAllFault};

    ghost from_gives = { λ _ e. e ≡ ReadAllFault.OutOfMemory };

    fn from(_error: AllocError) -> ReadAllFault {
        ReadAllFault::OutOfMemory
    }
}

/// All bytes of the named file, of which there may be at most `limit`. It reads no further than
/// one byte past the limit.
pub fn read_all<S: Shelf>(
    alloc: Global,
    shelf: &mut S,
    name: &str,
    limit: usize,
) -> Result<Vec<u8>, ReadAllFault>
    requires { limit ≤ 2 ^ 32 }
    ensures answered { ReadsAll vec_items (S.files shelf.old) name.now limit result }
    ensures finishes { OnOk result (IsReadOut (S.files shelf.old) (S.left shelf.new)) }
    ensures stops { result ≡ Err ReadAllFault.TooLong →
        IsReadUpTo (S.files shelf.old) name.now (limit + 1) (S.left shelf.new) }
    ensures cause { HasReadCause (S.faults shelf.old) (S.faults shelf.new) name.now
        (S.failed shelf.old) (S.failed shelf.new) result }
    ensures files { S.files shelf.new ≡ S.files shelf.old }
{
    shelf.start(name)?;
    let mut bytes = Vec::new(alloc);
    let mut piece = vec![in alloc; 0u8; PIECE.min(limit + 1)]?;
    while bytes.len() <= limit {
        let wanted = piece.len().min(limit + 1 - bytes.len());
        if read_piece(shelf, &mut piece[..wanted], &mut bytes)? == 0 {
            return Ok(bytes);
        }
    }
    Err(ReadAllFault::TooLong)
}

// Appends what one read gives, by way of `piece`, and says how many bytes that was.
fn read_piece<S: Shelf>(
    shelf: &mut S,
    piece: &mut [u8],
    bytes: &mut Vec<u8>,
) -> Result<usize, ShelfFault>
    requires { 0 < length piece.old }
    ensures bound { IfOk result (λ n. n ≤ length piece.new) }
    ensures len { IfOk result (λ n. vec_len bytes.new ≡ vec_len bytes.old + n) }
    ensures taken { OnOk result
        (ReadConsumes (S.left shelf.old) (S.left shelf.new) result piece.new) }
    ensures appended { IfOk result
        (λ n. bytes.new.items ≡ bytes.old.items ++ take n piece.new) }
    ensures cause { HasCause (S.faults shelf.old) (S.faults shelf.new) (S.named shelf.new)
        (S.failed shelf.old) (S.failed shelf.new) result }
    ensures name { S.named shelf.new ≡ S.named shelf.old }
    ensures files { S.files shelf.new ≡ S.files shelf.old }
{
    let count = shelf.read(piece)?;
    bytes.extend_from_slice(&piece[..count])?;
    Ok(count)
}
