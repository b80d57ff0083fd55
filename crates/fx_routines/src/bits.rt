// The operations on bits.

/// An operation on the bits of a word `w`. Bit 0 is the lowest; one past the word's width reads 0, and
/// writing it has no effect. A pattern and a mask are words of the type of `w`.
#[derive(Clone, Copy, Debug, PartialEq, Eq)]
pub enum BitOp {
    /// `w` with the bit set.
    SetBit,
    /// `w` with the bit cleared.
    ClrBit,
    /// The bit of `w`.
    GetBit,
    /// `w` with the status as its bit.
    PutBit,
    /// `w` with the status as each bit of a range.
    SetBits,
    /// The range of `w`, as its lowest bits.
    GetBits,
    /// `w` with the lowest bits of a pattern as the range.
    PutBits,
    /// `w` with the bit of another word as its bit.
    CopyBit,
    /// `w` with the mask's bits set.
    SetBitMask,
    /// `w` with the mask's bits cleared.
    ClrBitMask,
    /// `w` with the mask's bits inverted.
    ToggleBitMask,
    /// `w` with the pattern's bits at the places of the mask's.
    PutBitsMask,
    /// Whether all of the mask's bits are set in `w`.
    TstBitMask,
    /// Whether at least one of the mask's bits is set in `w`.
    TstBitLnMask,
    /// Whether the number of set bits is even.
    TstParityEven,
    /// `w` with all bits inverted.
    ToggleBits,
    /// `w` rotated to the left, by the count modulo the width.
    RotBitLt,
    /// `w` rotated to the right, by the count modulo the width.
    RotBitRt,
    /// `w` shifted to the left. Zeros come in, and what leaves is lost.
    ShiftBitLt,
    /// `w` shifted to the right. Zeros come in, and what leaves is lost.
    ShiftBitRt,
    /// `w * 2^count`, rounded down and saturated, for a count of either sign.
    ShiftBitSat,
}
