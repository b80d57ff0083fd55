// `mfx_scaled`: worked values of every form, at points above and below one another.

use fx_core::Ty;
use fx_routines::{Types, Variant};
use mfx_scaled::{Points, ScaledOp, call};

// What a form gives at the types of its inputs and its output, with its arguments and its points, and what is wanted.
macro_rules! row {
    ($op:ident $x:ident $y:ident $o:ident ($x_raw:expr, $y_raw:expr) at $a:literal $b:literal $c:literal = $wanted:expr) => {{
        let v = Variant::of(Types {
            x: Ty::$x,
            y: Ty::$y,
            o: Ty::$o,
        });
        let points = Points {
            a: $a,
            b: $b,
            c: $c,
        };
        (call(ScaledOp::$op, v, $x_raw, $y_raw, points), $wanted)
    }};
}

#[test]
fn forms(rt: HostRuntime) {
    for (found, wanted) in [
        row!(Convert S16 S16 S16 (-16, 0) at 4 0 0 = -1),
        row!(Convert S16 S16 S16 (-17, i64::MAX) at 4 0 0 = -1),
        row!(Convert S16 S16 S32 (-32768, 0) at 0 0 15 = -1073741824),
        row!(Add S16 S16 S16 (3, 3) at 1 2 0 = 2),
        row!(Add S16 S16 S16 (3, 3) at 1 2 2 = 9),
        row!(Sub U32 U32 S32 (4294967295, 1) at 15 0 0 = 131070),
        row!(AbsDiff S16 S16 U16 (3, 3) at 2 1 2 = 3),
        row!(Mul U32 U32 U32 (4294967295, 4294967295) at 15 15 0 = 4294967295),
        row!(Mul S16 S16 S16 (-3, 10) at 1 2 1 = -7),
        row!(Div S16 S16 S16 (-100, 3) at 4 0 0 = -2),
        row!(Div S32 S32 S32 (-2147483648, -1) at 0 15 15 = 2147483647),
        row!(Div S16 S16 S16 (1, 0) at 4 0 0 = 32767),
        row!(Div S16 S16 S16 (-1, 0) at 4 0 0 = -32768),
    ] {
        assert_eq!(rt; found, wanted);
    }
}
