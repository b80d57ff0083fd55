// Positions on an axis.

ghost use Rattle.std.specs.Prelude.{◌≡◌};
ghost use Rattle.ifx_search.specs.Positions.{word_of};

/// A position on an axis: the number of the point at or below it, and the way from there to the next
/// point in 1/65536.
#[derive(Clone, Copy, Debug, PartialEq, Eq)]
pub struct Dp {
    pub index: u16,
    pub ratio: u16,
}

impl Dp {
    /// The position as one raw count with 16 fractional bits: `index * 65536 + ratio`.
    pub fn word(self) -> i64
        ensures { result ≡ word_of self }
    {
        i64::from(self.index) * 65536 + i64::from(self.ratio)
    }
}
