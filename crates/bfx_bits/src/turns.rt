// Rotations and shifts.

ghost use Rattle.std.specs.Prelude.{◌≡◌, true, pos};
ghost use Rattle.bfx_bits.specs.Routines.{bit_value, near_count, takes_type};

use crate::patterns::{ones, pattern_of, rotated, shifted_left, shifted_right, width, word};
use fx_core::{FxInt, Mode, shift_round};
use fx_routines::BitOp;
use num_traits::clamp;

/// `w` rotated to the left by `n` modulo the width.
pub fn rot_bit_lt<W: FxInt>(w: W, n: u8) -> W
    requires taken { takes_type BitOp.RotBitLt W.TY ≡ true }
    ensures { W.wide result ≡ bit_value BitOp.RotBitLt W.TY (W.wide w) (pos n) (pos 0) (pos 0) }
{
    let bits = width::<W>();
    word(rotated(pattern_of(w), bits, u32::from(n) % bits))
}

/// `w` rotated to the right by `n` modulo the width.
pub fn rot_bit_rt<W: FxInt>(w: W, n: u8) -> W
    requires taken { takes_type BitOp.RotBitRt W.TY ≡ true }
    ensures { W.wide result ≡ bit_value BitOp.RotBitRt W.TY (W.wide w) (pos n) (pos 0) (pos 0) }
{
    let bits = width::<W>();
    word(rotated(pattern_of(w), bits, bits - u32::from(n) % bits))
}

/// `w * 2^n`, rounded down and saturated, for a count `n` of either sign.
pub fn shift_bit_sat<W: FxInt>(w: W, n: i8) -> W
    requires taken { takes_type BitOp.ShiftBitSat W.TY ≡ true }
    ensures { W.wide result ≡ bit_value BitOp.ShiftBitSat W.TY (W.wide w) n (pos 0) (pos 0) }
{
    W::from_wide(shift_round(w.to_wide(), near_count(n), Mode::Floor))
}

// A count past 31 places to either side saturates a word, or leaves as little of it, as one of 31.
fn near_count(n: i8) -> i32
    ensures { result ≡ near_count n }
{
    clamp(i32::from(n), -31, 31)
}

/// `w` shifted to the left by `n`. Zeros come in, and what leaves is lost.
pub fn shift_bit_lt<W: FxInt>(w: W, n: u8) -> W
    requires taken { takes_type BitOp.ShiftBitLt W.TY ≡ true }
    ensures { W.wide result ≡ bit_value BitOp.ShiftBitLt W.TY (W.wide w) (pos n) (pos 0) (pos 0) }
{
    word(shifted_left(pattern_of(w), u32::from(n)) & ones(width::<W>()))
}

/// `w` shifted to the right by `n`. Zeros come in, and what leaves is lost.
pub fn shift_bit_rt<W: FxInt>(w: W, n: u8) -> W
    requires taken { takes_type BitOp.ShiftBitRt W.TY ≡ true }
    ensures { W.wide result ≡ bit_value BitOp.ShiftBitRt W.TY (W.wide w) (pos n) (pos 0) (pos 0) }
{
    word(shifted_right(pattern_of(w), u32::from(n)))
}
