// `mfx_arith`: worked values of every operation, through the call by operation and types.

use fx_core::Ty;
use fx_routines::Types;
use mfx_arith::{ArithOp, Variant, call, takes};

// What an operation gives at the types of its inputs and its output, with its arguments and its shift, and what is
// wanted.
macro_rules! row {
    ($op:ident $x:ident $y:ident $o:ident ($a:expr, $b:expr, $c:expr, $sh:expr) = $wanted:expr) => {{
        let v = Variant::of(Types {
            x: Ty::$x,
            y: Ty::$y,
            o: Ty::$o,
        });
        (call(ArithOp::$op, v, $a, $b, $c, $sh), $wanted)
    }};
}

#[test]
fn sums_and_products(rt: HostRuntime) {
    for (found, wanted) in [
        row!(Add U8 U8 U8 (200, 100, 0, 0) = 255),
        row!(Add U8 U8 U16 (200, 100, 0, 0) = 300),
        row!(Sub U8 U8 U8 (3, 5, 0, 0) = 0),
        row!(Sub U8 U8 S8 (3, 5, 0, 0) = -2),
        row!(AbsDiff S8 S8 U8 (-128, 127, 0, 0) = 255),
        row!(Abs S16 S16 S16 (-32768, 0, 0, 0) = 32767),
        row!(Mul U32 U32 U32 (65536, 65535, 0, 0) = 4294901760),
        row!(Mul S8 S8 S8 (-128, 127, 0, 0) = -128),
    ] {
        assert_eq!(rt; found, wanted);
    }
}

#[test]
fn quotients(rt: HostRuntime) {
    for (found, wanted) in [
        row!(Div S16 S16 S16 (-32768, -1, 0, 0) = 32767),
        row!(Div S16 S16 S16 (-7, 2, 0, 0) = -3),
        row!(Div S16 S16 S16 (7, 0, 0, 0) = 32767),
        row!(Div S16 S16 S16 (-7, 0, 0, 0) = -32768),
        row!(Div S16 S16 S16 (0, 0, 0, 0) = 32767),
        row!(Mod S16 S16 S16 (-7, 2, 0, 0) = -1),
        row!(Mod S16 S16 S16 (7, 0, 0, 0) = 0),
        row!(MulDiv S32 S32 U32 (-2147483648, -2147483648, 2147483647, 0) = 2147483649),
        row!(MulDiv S32 S32 S32 (-2147483648, -2147483648, 2147483647, 0) = 2147483647),
        row!(MulShRight S16 S16 S16 (-7, 3, 0, 1) = -10),
        row!(DivShLeft U16 S16 S16 (7, -2, 0, 3) = -28),
    ] {
        assert_eq!(rt; found, wanted);
    }
}

#[test]
fn limits(rt: HostRuntime) {
    for (found, wanted) in [
        row!(Limit S8 S8 S8 (50, -10, 10, 0) = 10),
        row!(Min S32 S32 S32 (-5, 3, 0, 0) = -5),
        row!(Max S32 S32 S32 (-5, 3, 0, 0) = 3),
        row!(RateLimiter S16 S16 S16 (1000, -200, 300, 0) = 100),
        row!(RateLimiter U8 U8 U8 (0, 100, 3, 0) = 97),
    ] {
        assert_eq!(rt; found, wanted);
    }
}

#[test]
fn variants(rt: HostRuntime) {
    assert!(rt; Variant::new(Ty::U8, Ty::S16, Ty::U8).is_none());
    assert!(rt; Variant::new(Ty::S32, Ty::S16, Ty::S32).is_none());
    let types = Types {
        x: Ty::U8,
        y: Ty::S8,
        o: Ty::S32,
    };
    assert_eq!(rt;
        Variant::new(types.x, types.y, types.o).map(Variant::types),
        Some(types)
    );
    let pair = Variant::of(types);
    let same = Variant::of(Types { y: Ty::U8, ..types });
    assert!(rt;
        takes(ArithOp::Add, pair) && !takes(ArithOp::Abs, pair) && !takes(ArithOp::Min, same)
    );
}
