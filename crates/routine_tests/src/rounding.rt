// `fx_core`: each native integer through the bound, and each function at values that were worked out by hand.

use fx_core::{FxInt, Mode, Ty, ceil_div, law_of_rounding, round, sat, shift_round};

// The number that is left of `v` in a word.
fn kept<W: FxInt>(v: i128) -> i128 {
    W::from_wide(v).to_wide()
}

#[test]
fn words_keep_the_nearest_number(rt: HostRuntime) {
    assert_eq!(rt;
        [
            kept::<u8>(300),
            kept::<i8>(-300),
            kept::<u16>(-1),
            kept::<i16>(40_000),
            kept::<u32>(1 << 40),
            kept::<i32>(-7),
        ],
        [255, -128, 0, 32_767, 4_294_967_295, -7]
    );
    assert_eq!(rt;
        [Ty::S16.least(), Ty::U32.greatest(), sat(Ty::U8, i128::MIN)],
        [-32_768, 4_294_967_295, 0]
    );
    assert!(rt; Ty::S32.width() == 32 && Ty::S8.holds(-128) && !Ty::U8.holds(256));
}

#[test]
fn quotients_round(rt: HostRuntime) {
    assert_eq!(rt;
        [
            round(-7, 2, Mode::Zero),
            round(-7, 2, Mode::Floor),
            round(-3, 2, Mode::Near),
            round(i128::MAX, i128::MAX, Mode::Near),
            shift_round(-5, -1, Mode::Near),
            shift_round(3, 4, Mode::Zero),
            ceil_div(7, 3),
            ceil_div(i128::MAX, 2),
        ],
        [-3, -4, -1, 1, -2, 48, 3, 1 << 126]
    );
    law_of_rounding();
}
