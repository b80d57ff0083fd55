// The six word types: their ends, their widths, and the nearest number of one to any number.

ghost use Rattle.std.specs.Prelude.{◌≡◌, ◌↔◌, IsTrue};
ghost use Rattle.fx_core.specs.Types.{Holds, greatest_of, holds, least_of, saturated, width_of};

use num_traits::{cast, clamp};

/// A word type: an integer of 8, 16 or 32 bits, unsigned (`U`) or signed (`S`, two's complement).
#[derive(Clone, Copy, Debug, PartialEq, Eq)]
pub enum Ty {
    U8,
    S8,
    U16,
    S16,
    U32,
    S32,
}

impl Ty {
    /// The least number of the type: 0, or minus two to the power of one less than its width.
    pub fn least(self) -> i64
        ensures { result ≡ least_of self }
    {
        match self {
            Ty::U8 | Ty::U16 | Ty::U32 => 0,
            Ty::S8 => i64::from(i8::MIN),
            Ty::S16 => i64::from(i16::MIN),
            Ty::S32 => i64::from(i32::MIN),
        }
    }

    /// The greatest number of the type.
    pub fn greatest(self) -> i64
        ensures { result ≡ greatest_of self }
    {
        match self {
            Ty::U8 => i64::from(u8::MAX),
            Ty::S8 => i64::from(i8::MAX),
            Ty::U16 => i64::from(u16::MAX),
            Ty::S16 => i64::from(i16::MAX),
            Ty::U32 => i64::from(u32::MAX),
            Ty::S32 => i64::from(i32::MAX),
        }
    }

    /// How many bits a word of the type has.
    pub fn width(self) -> u32
        ensures { result ≡ width_of self }
    {
        match self {
            Ty::U8 | Ty::S8 => 8,
            Ty::U16 | Ty::S16 => 16,
            Ty::U32 | Ty::S32 => 32,
        }
    }

    /// Whether `v` is a number of the type.
    pub fn holds(self, v: i64) -> bool
        ensures test { result ≡ holds self v }
        ensures fact { IsTrue result ↔ Holds self v }
    {
        self.least() <= v && v <= self.greatest()
    }
}

/// The number of the type that is nearest to `v`: `v` itself where the type has it, and otherwise
/// the end on its side.
pub fn sat(t: Ty, v: i128) -> i64
    ensures { result ≡ saturated t v }
{
    let nearest = clamp(v, i128::from(t.least()), i128::from(t.greatest()));
    cast(nearest).unwrap()
}
