// Routines on single bits and on ranges of them.

ghost use Rattle.std.specs.Prelude.{◌≡◌, true, pos};
ghost use Rattle.bfx_bits.specs.Bits.{is_set};
ghost use Rattle.bfx_bits.specs.Routines.{bit_value, takes_type, truth};

use crate::patterns::{
    filled, lowest, pattern_of, place, put, range, shifted_left, shifted_right, word,
};
use fx_core::FxInt;
use fx_routines::BitOp;

/// `w` with bit `p` set. A `p` past the width has no effect.
pub fn set_bit<W: FxInt>(w: W, p: u8) -> W
    requires taken { takes_type BitOp.SetBit W.TY ≡ true }
    ensures { W.wide result ≡ bit_value BitOp.SetBit W.TY (W.wide w) (pos p) (pos 0) (pos 0) }
{
    put_bit(w, p, true)
}

/// `w` with bit `p` cleared. A `p` past the width has no effect.
pub fn clr_bit<W: FxInt>(w: W, p: u8) -> W
    requires taken { takes_type BitOp.ClrBit W.TY ≡ true }
    ensures { W.wide result ≡ bit_value BitOp.ClrBit W.TY (W.wide w) (pos p) (pos 0) (pos 0) }
{
    put_bit(w, p, false)
}

/// Whether bit `p` of `w` is set. Past the width it isn't.
pub fn get_bit<W: FxInt>(w: W, p: u8) -> bool
    requires taken { takes_type BitOp.GetBit W.TY ≡ true }
    ensures { truth result ≡ bit_value BitOp.GetBit W.TY (W.wide w) (pos p) (pos 0) (pos 0) }
{
    shifted_right(pattern_of(w), u32::from(p)) & 1 == 1
}

/// `w` with the status `s` as bit `p`. A `p` past the width has no effect.
pub fn put_bit<W: FxInt>(w: W, p: u8, s: bool) -> W
    requires taken { takes_type BitOp.PutBit W.TY ≡ true }
    ensures { W.wide result ≡ bit_value BitOp.PutBit W.TY (W.wide w) (pos p) (truth s) (pos 0) }
{
    put(w, filled(s), place::<W>(p))
}

/// `w` with bit `q` of `source` as bit `p`. Past the width, `p` has no effect, and bit `q` is 0.
pub fn copy_bit<W: FxInt>(w: W, p: u8, source: W, q: u8) -> W
    requires taken { takes_type BitOp.CopyBit W.TY ≡ true }
    ensures { W.wide result ≡ bit_value BitOp.CopyBit W.TY (W.wide w) (pos p) (W.wide source) (pos q) }
{
    put_bit(w, p, get_bit(source, q))
}

/// `w` with the status `s` as each of the `len` bits from `start` up.
pub fn set_bits<W: FxInt>(w: W, start: u8, len: u8, s: bool) -> W
    requires taken { takes_type BitOp.SetBits W.TY ≡ true }
    ensures { W.wide result ≡ bit_value BitOp.SetBits W.TY (W.wide w) (pos start) (pos len) (truth s) }
{
    put(w, filled(s), range::<W>(start, len))
}

/// The `len` bits of `w` from `start` up, as the lowest bits of the answer. The others are 0.
pub fn get_bits<W: FxInt>(w: W, start: u8, len: u8) -> W
    requires taken { takes_type BitOp.GetBits W.TY ≡ true }
    ensures { W.wide result ≡ bit_value BitOp.GetBits W.TY (W.wide w) (pos start) (pos len) (pos 0) }
{
    let moved = shifted_right(pattern_of(w), u32::from(start));
    word(moved & lowest::<W>(u32::from(len)))
}

/// `w` with the lowest `len` bits of `pattern` as its bits from `start` up.
pub fn put_bits<W: FxInt>(w: W, start: u8, len: u8, pattern: W) -> W
    requires taken { takes_type BitOp.PutBits W.TY ≡ true }
    ensures { W.wide result ≡ bit_value BitOp.PutBits W.TY (W.wide w) (pos start) (pos len) (W.wide pattern) }
{
    let moved = shifted_left(pattern_of(pattern), u32::from(start));
    put(w, moved, range::<W>(start, len))
}
