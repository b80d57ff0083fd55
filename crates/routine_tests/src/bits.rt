// `bfx_bits`: worked values through the call by operation and type.

use bfx_bits::{BitOp, call, takes};
use fx_core::Ty;

// What an operation gives at its type with its arguments, and what is wanted.
macro_rules! row {
    ($op:ident $ty:ident ($a:expr, $b:expr, $c:expr, $d:expr) = $wanted:expr) => {
        (call(BitOp::$op, Ty::$ty, $a, $b, $c, $d), $wanted)
    };
}

#[test]
fn words_of_bits(rt: HostRuntime) {
    for (found, wanted) in [
        row!(SetBit U8 (1, 9, 0, 0) = 1),
        row!(SetBits U32 (0, 28, 255, 1) = 4026531840),
        row!(GetBits U16 (46080, 10, 3, 0) = 5),
        row!(PutBits U8 (255, 2, 3, 2) = 235),
        row!(RotBitLt U8 (129, 1, 0, 0) = 3),
        row!(RotBitRt U32 (1, 33, 0, 0) = 2147483648),
        row!(TstBitLnMask U8 (4, 3, 0, 0) = 0),
        row!(TstParityEven U8 (3, 0, 0, 0) = 1),
    ] {
        assert_eq!(rt; found, wanted);
    }
}

#[test]
fn saturated_shifts(rt: HostRuntime) {
    for (found, wanted) in [
        row!(ShiftBitSat S8 (100, 1, 0, 0) = 127),
        row!(ShiftBitSat S8 (-100, 1, 0, 0) = -128),
        row!(ShiftBitSat S8 (-5, -1, 0, 0) = -3),
        row!(ShiftBitSat S8 (1, 127, 0, 0) = 127),
        row!(ShiftBitSat S32 (-2147483648, -128, 0, 0) = -1),
    ] {
        assert_eq!(rt; found, wanted);
    }
}

#[test]
fn types_of_bits(rt: HostRuntime) {
    assert!(rt; takes(BitOp::SetBit, Ty::U16) && !takes(BitOp::SetBit, Ty::S16));
    assert!(rt; takes(BitOp::ShiftBitSat, Ty::S32) && !takes(BitOp::ShiftBitSat, Ty::U32));
}
