// Routines by a mask, and those on all bits.

ghost use Rattle.std.specs.Prelude.{◌≡◌, true, pos};
ghost use Rattle.bfx_bits.specs.Routines.{bit_value, takes_type, truth};

use crate::patterns::{ones, pattern_of, put, width, word};
use fx_core::FxInt;
use fx_routines::BitOp;

/// `w` with the mask's bits set.
#[tactic(auto, using(crate::proofs::MaskFacts::set_mask_is))]
pub fn set_bit_mask<W: FxInt>(w: W, mask: W) -> W
    requires taken { takes_type BitOp.SetBitMask W.TY ≡ true }
    ensures { W.wide result ≡ bit_value BitOp.SetBitMask W.TY (W.wide w) (W.wide mask) (pos 0) (pos 0) }
{
    word(pattern_of(w) | pattern_of(mask))
}

/// `w` with the mask's bits cleared.
#[tactic(auto, using(crate::proofs::MaskFacts::clear_mask_is))]
pub fn clr_bit_mask<W: FxInt>(w: W, mask: W) -> W
    requires taken { takes_type BitOp.ClrBitMask W.TY ≡ true }
    ensures { W.wide result ≡ bit_value BitOp.ClrBitMask W.TY (W.wide w) (W.wide mask) (pos 0) (pos 0) }
{
    word(pattern_of(w) & !pattern_of(mask))
}

/// `w` with the mask's bits inverted.
#[tactic(auto, using(crate::proofs::MaskFacts::toggle_mask_is))]
pub fn toggle_bit_mask<W: FxInt>(w: W, mask: W) -> W
    requires taken { takes_type BitOp.ToggleBitMask W.TY ≡ true }
    ensures { W.wide result ≡ bit_value BitOp.ToggleBitMask W.TY (W.wide w) (W.wide mask) (pos 0) (pos 0) }
{
    word(pattern_of(w) ^ pattern_of(mask))
}

/// `w` with the bits of `pattern` at the places of the mask's.
pub fn put_bits_mask<W: FxInt>(w: W, pattern: W, mask: W) -> W
    requires taken { takes_type BitOp.PutBitsMask W.TY ≡ true }
    ensures { W.wide result ≡ bit_value BitOp.PutBitsMask W.TY (W.wide w) (W.wide pattern) (W.wide mask) (pos 0) }
{
    put(w, pattern_of(pattern), pattern_of(mask))
}

/// `w` with all bits inverted.
pub fn toggle_bits<W: FxInt>(w: W) -> W
    requires taken { takes_type BitOp.ToggleBits W.TY ≡ true }
    ensures { W.wide result ≡ bit_value BitOp.ToggleBits W.TY (W.wide w) (pos 0) (pos 0) (pos 0) }
{
    word(pattern_of(w) ^ ones(width::<W>()))
}

/// Whether all of the mask's bits are set in `w`.
#[tactic(auto, using(crate::proofs::MaskFacts::all_set_is))]
pub fn tst_bit_mask<W: FxInt>(w: W, mask: W) -> bool
    requires taken { takes_type BitOp.TstBitMask W.TY ≡ true }
    ensures { truth result ≡ bit_value BitOp.TstBitMask W.TY (W.wide w) (W.wide mask) (pos 0) (pos 0) }
{
    let mask = pattern_of(mask);
    pattern_of(w) & mask == mask
}

/// Whether at least one of the mask's bits is set in `w`.
#[tactic(auto, using(crate::proofs::MaskFacts::some_set_is))]
pub fn tst_bit_ln_mask<W: FxInt>(w: W, mask: W) -> bool
    requires taken { takes_type BitOp.TstBitLnMask W.TY ≡ true }
    ensures { truth result ≡ bit_value BitOp.TstBitLnMask W.TY (W.wide w) (W.wide mask) (pos 0) (pos 0) }
{
    pattern_of(w) & pattern_of(mask) != 0
}

/// Whether the number of set bits is even.
#[tactic(auto, using(crate::proofs::MaskFacts::parity_is))]
pub fn tst_parity_even<W: FxInt>(w: W) -> bool
    requires taken { takes_type BitOp.TstParityEven W.TY ≡ true }
    ensures { truth result ≡ bit_value BitOp.TstParityEven W.TY (W.wide w) (pos 0) (pos 0) (pos 0) }
{
    pattern_of(w).count_ones() % 2 == 0
}
