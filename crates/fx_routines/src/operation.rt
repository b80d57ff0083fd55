// The operations of arithmetic and of the forms with binary points, and the types of a routine.

ghost use Rattle.std.specs.Prelude.{◌≡◌, ◌↔◌, IfSome, IsSome};
ghost use Rattle.fx_core.specs.Types.{width_of};
ghost use Rattle.fx_routines.specs.Variants.{HasOneWidth, types};

use fx_core::Ty;
use std::marker::Model;

/// An operation of Mfx arithmetic, on raw counts. The arguments are `x`, `y`, `z` in their order;
/// each answer is rounded toward zero and saturated to the output's type.
#[derive(Clone, Copy, Debug, PartialEq, Eq)]
pub enum ArithOp {
    /// The sum `x + y`.
    Add,
    /// The difference `x - y`.
    Sub,
    /// The distance `|x - y|`.
    AbsDiff,
    /// The absolute value `|x|`.
    Abs,
    /// The product `x * y`.
    Mul,
    /// The quotient `x / y`.
    Div,
    /// What is left of `x` by the quotient `x / y` toward zero: it has the sign of `x`. 0 where `y`
    /// is 0.
    Mod,
    /// The product over a third, `x * y / z`.
    MulDiv,
    /// The product over two to the power of the shift, `x * y / 2^shift`.
    MulShRight,
    /// The quotient `x * 2^shift / y`.
    DivShLeft,
    /// `x` held between `y`, below, and `z`, above; `z` where `y` is above it.
    Limit,
    /// The lesser of `x` and `y`.
    Min,
    /// The greater of `x` and `y`.
    Max,
    /// `x` held to at most `z` away from the old value `y`.
    RateLimiter,
}

/// An operation of Mfx on numbers with binary points. `a`, `b` and `c` are the points of `x`, of `y`
/// and of the output; each answer is rounded toward zero and saturated to the output's type.
#[derive(Clone, Copy, Debug, PartialEq, Eq)]
pub enum ScaledOp {
    /// The number `x` at another point, `x * 2^(c-a)`.
    Convert,
    /// The sum `x * 2^(c-a) + y * 2^(c-b)`.
    Add,
    /// The difference `x * 2^(c-a) - y * 2^(c-b)`.
    Sub,
    /// The distance `|x * 2^(c-a) - y * 2^(c-b)|`.
    AbsDiff,
    /// The product `x * y * 2^(c-a-b)`.
    Mul,
    /// The quotient `x * 2^(c+b-a) / y`.
    Div,
}

/// The types in a routine's name: of its first input, its second input and its output. Where there
/// is no such input or output, the type of the first input stands for it.
#[derive(Clone, Copy, Debug, PartialEq, Eq)]
pub struct Types {
    pub x: Ty,
    pub y: Ty,
    pub o: Ty,
}

/// The types of a routine of arithmetic or of a form with binary points: `x` and `y` have one width.
#[derive(Clone, Copy, Debug, PartialEq, Eq)]
pub struct Variant {
    types: Types,
}

impl Model for Variant {
    ghost use Rattle.fx_routines.specs.declared.operation.Types.{Types};
    ghost use Rattle.fx_routines.specs.Variants.{HasOneWidth};

    ghost Value = { Types };

    ghost view = { λ v. v.types };

    ghost invariant = { λ v. HasOneWidth v.types };

    ghost inverse = { λ types. record { types = types } };
}

impl Variant {
    /// The variant of these types, and None exactly where the widths of `x` and `y` differ.
    pub fn new(x: Ty, y: Ty, o: Ty) -> Option<Variant>
        ensures one_width { IsSome result ↔ (width_of x ≡ width_of y) }
        ensures types { IfSome result (λ v. v ≡ types x y o) }
    {
        if x.width() == y.width() {
            Some(Variant::of(Types { x, y, o }))
        } else {
            None
        }
    }

    /// The variant of types whose `x` and `y` have one width.
    pub fn of(types: Types) -> Variant
        requires { HasOneWidth types }
        ensures { result ≡ types }
    {
        Variant { types }
    }

    /// Its types as those of a name.
    #[inline(always)]
    pub fn types(self) -> Types
        ensures value { result ≡ self }
        ensures one_width { HasOneWidth self }
    {
        self.types
    }

    /// The type of the first input.
    #[inline(always)]
    pub fn x(self) -> Ty
        ensures { result ≡ self.x }
    {
        self.types.x
    }

    /// The type of the second input.
    #[inline(always)]
    pub fn y(self) -> Ty
        ensures { result ≡ self.y }
    {
        self.types.y
    }

    /// The type of the output.
    #[inline(always)]
    pub fn o(self) -> Ty
        ensures { result ≡ self.o }
    {
        self.types.o
    }
}
