// Ranges of numbers in 128 bits, and the ends of the range of bounds.

ghost use Rattle.std.specs.Prelude.{◌≡◌, pos, ◌<◌, ◌^◌, ◌&&◌, if◌then◌else◌, int_le, unsigned_abs};
ghost use Rattle.std.specs.Int.{int_max, int_min};
ghost use Rattle.part_rules.specs.Entries.{IsSmall};

use crate::bounds::Bounds;
use crate::whole_numbers::{Whole, greater, lesser};

/// The numbers from `lo` to `hi`.
#[derive(Clone, Copy)]
pub struct Range {
    pub lo: i128,
    pub hi: i128,
}

impl Range {
    /// One number.
    pub fn at(value: Whole) -> Range
        ensures lo { result.lo ≡ value.number }
        ensures hi { result.hi ≡ value.number }
    {
        Range {
            lo: value.number,
            hi: value.number,
        }
    }

    /// The hull of both ranges.
    pub fn joined(self, other: Range) -> Range
        ensures lo { result.lo ≡ int_min self.lo other.lo }
        ensures hi { result.hi ≡ int_max self.hi other.hi }
    {
        Range {
            lo: lesser(self.lo, other.lo),
            hi: greater(self.hi, other.hi),
        }
    }

    /// The range of an absolute value from that at the corners: joined with 0 where what stands
    /// inside takes 0 or both signs there.
    pub fn turned(self, inside: Range) -> Range
        ensures lo { result.lo ≡ (if int_le inside.lo (pos 0) && int_le (pos 0) inside.hi then int_min self.lo (pos 0) else self.lo) }
        ensures hi { result.hi ≡ (if int_le inside.lo (pos 0) && int_le (pos 0) inside.hi then int_max self.hi (pos 0) else self.hi) }
    {
        if inside.lo <= 0 && 0 <= inside.hi {
            self.joined(Range::at(Whole::of_count(0)))
        } else {
            self
        }
    }
}

/// The range from one end of bounds to the other.
pub fn ends(b: Bounds) -> Range
    requires { IsSmall b }
    ensures lo { result.lo ≡ int_min b.lo b.hi }
    ensures hi { result.hi ≡ int_max b.lo b.hi }
{
    Range::at(low_end(b)).joined(Range::at(high_end(b)))
}

/// The least number of a range.
pub fn low_end(b: Bounds) -> Whole
    requires { IsSmall b }
    ensures value { result.number ≡ b.lo }
    ensures size { unsigned_abs result.number < 2 ^ 32 }
{
    Whole::of_count(b.lo)
}

/// The greatest number of a range.
pub fn high_end(b: Bounds) -> Whole
    requires { IsSmall b }
    ensures value { result.number ≡ b.hi }
    ensures size { unsigned_abs result.number < 2 ^ 32 }
{
    Whole::of_count(b.hi)
}
