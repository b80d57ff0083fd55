// The bits of a word of an unsigned type as a native word of 32 bits, whose bits past the width are 0.

ghost use Rattle.std.specs.Prelude.{◌≡◌, ℕ, Bool, pos, false, true, not, nat_lt, ◌==◌, ◌+◌, ◌%◌, ◌/◌, ◌<◌, ◌≤◌, ◌^◌, ◌-◌, if◌then◌else◌};
ghost use Rattle.fx_core.specs.Types.{width_of};
ghost use Rattle.fx_routines.specs.Variants.{is_signed};
ghost use Rattle.bfx_bits.specs.Bits.{HasBits, IsPattern, bit_of, is_set, word_of};
ghost use Rattle.bfx_bits.specs.Routines.{is_within};

use fx_core::FxInt;
use num_traits::cast;

/// The bits of a word.
#[tactic(auto, using(crate::proofs::BitFacts::held_unsigned))]
pub(crate) fn pattern_of<W: FxInt>(word: W) -> u32
    requires unsigned { not (is_signed W.TY) ≡ true }
    ensures { IsPattern W.TY (W.wide word) result }
{
    cast(word.to_wide()).unwrap()
}

/// The word with these bits.
pub(crate) fn word<W: FxInt>(pattern: u32) -> W
    requires unsigned { not (is_signed W.TY) ≡ true }
    requires width { pattern < 2 ^ width_of W.TY }
    ensures { W.wide result ≡ pos pattern }
{
    W::from_wide(i128::from(pattern))
}

/// `w` with the pattern's bits at the places of the mask's.
#[tactic(auto, using(crate::proofs::MaskFacts::put_below))]
pub(crate) fn put<W: FxInt>(w: W, pattern: u32, mask: u32) -> W
    requires unsigned { not (is_signed W.TY) ≡ true }
    requires width { mask < 2 ^ width_of W.TY }
    ensures { W.wide result ≡ word_of W.TY (λ j. if is_set mask j then is_set pattern j else bit_of W.TY (W.wide w) j) }
{
    word(pattern_of(w) & !mask | pattern & mask)
}

/// How many bits a word has.
pub(crate) fn width<W: FxInt>() -> u32
    ensures { result ≡ width_of W.TY }
{
    W::TY.width()
}

/// All bits of this status.
pub(crate) fn filled(status: bool) -> u32
    ensures { HasBits 32 result (λ j. status) }
{
    if status { u32::MAX } else { 0 }
}

/// The lowest bits, as many as `count` says.
pub(crate) fn ones(count: u32) -> u32
    requires { count ≤ 32 }
    ensures { result ≡ 2 ^ count - 1 }
{
    if count == 0 {
        0
    } else {
        u32::MAX >> (32 - count)
    }
}

/// The bit at the place, and none where it is past the width.
pub(crate) fn place<W: FxInt>(p: u8) -> u32
    ensures bits { HasBits (width_of W.TY) result (λ j. j == p) }
    ensures width { result < 2 ^ width_of W.TY }
{
    if u32::from(p) < width::<W>() {
        1 << p
    } else {
        0
    }
}

/// As many of the lowest bits as `count` says, without those past the width.
pub(crate) fn lowest<W: FxInt>(count: u32) -> u32
    ensures bits { HasBits (width_of W.TY) result (λ j. nat_lt j count) }
    ensures width { result < 2 ^ width_of W.TY }
{
    ones(count.min(width::<W>()))
}

/// The bits of `len` places from `start` up, without those past the width.
pub(crate) fn range<W: FxInt>(start: u8, len: u8) -> u32
    ensures bits { HasBits (width_of W.TY) result (is_within start len) }
    ensures width { result < 2 ^ width_of W.TY }
{
    let start = u32::from(start);
    lowest::<W>(start + u32::from(len)) & !lowest::<W>(start)
}

/// The pattern shifted to the right.
pub(crate) fn shifted_right(pattern: u32, places: u32) -> u32
    ensures { result ≡ pattern / 2 ^ places }
{
    if places < 32 { pattern >> places } else { 0 }
}

/// The pattern shifted to the left.
pub(crate) fn shifted_left(pattern: u32, places: u32) -> u32
    ensures { HasBits 32 result (λ j. if nat_lt j places then false else is_set pattern (j - places)) }
{
    if places < 32 { pattern << places } else { 0 }
}

/// The pattern of `width` bits rotated to the left.
pub(crate) fn rotated(pattern: u32, width: u32, places: u32) -> u32
    requires pattern { pattern < 2 ^ width }
    requires places { places ≤ width }
    requires width { width ≤ 32 }
    ensures bits { HasBits width result (λ j. is_set pattern ((j + (width - places)) % width)) }
    ensures width { result < 2 ^ width }
{
    let turned = shifted_left(pattern, places) | shifted_right(pattern, width - places);
    turned & ones(width)
}
