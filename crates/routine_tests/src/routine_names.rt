// `fx_routines`: names of all four libraries, and words that are no names. The end-to-end suite has more of both.

use fx_core::Ty;
use fx_routines::{
    ArithOp, BitOp, InterpolationOp, MapOp, Routine, ScaledOp, SwitchOp, Types, push_name,
    routine_named, takes,
};
use std::alloc::{AllocError, Global};
use std::test::Fail;

// Words, and what each names.
const WORDS: [(&[u8], Option<(Routine, Types)>); 8] = [
    (
        b"Mfx_MulDiv_s32u32u32_s8",
        Some((
            Routine::Arith(ArithOp::MulDiv),
            Types {
                x: Ty::S32,
                y: Ty::U32,
                o: Ty::S8,
            },
        )),
    ),
    (
        b"Mfx_ConvertP2_s16_s32",
        Some((
            Routine::Scaled(ScaledOp::Convert),
            Types {
                x: Ty::S16,
                y: Ty::S16,
                o: Ty::S32,
            },
        )),
    ),
    (
        b"Bfx_CopyBit_u32u8u32u8_u32",
        Some((
            Routine::Bit(BitOp::CopyBit),
            Types {
                x: Ty::U32,
                y: Ty::U32,
                o: Ty::U32,
            },
        )),
    ),
    (
        b"Ifx_IntIpoMap_u8s16_s8",
        Some((
            Routine::Interpolation(InterpolationOp::IntMap(MapOp::Ipo)),
            Types {
                x: Ty::U8,
                y: Ty::S16,
                o: Ty::S8,
            },
        )),
    ),
    (
        b"Efx_Debounce_bool_bool",
        Some((
            Routine::Switch(SwitchOp::Debounce),
            Types {
                x: Ty::U8,
                y: Ty::U8,
                o: Ty::U8,
            },
        )),
    ),
    (b"", None),
    (b"Mfx_Add_s16s16_s16x", None),
    (b"Efx_P_s16_s15", None),
];

// What a word names. It promises nothing, so that no test carries the clauses of the call.
fn named(word: &[u8]) -> Option<(Routine, Types)> {
    routine_named(word)
}

// The name of a routine, or nothing where it has no such types.
fn name_of(alloc: Global, routine: Routine, types: Types) -> Result<Vec<u8>, AllocError> {
    let mut name = Vec::new(alloc);
    if takes(routine, types) {
        push_name(&mut name, routine, types)?;
    }
    Ok(name)
}

#[test]
fn names_of_all_libraries(rt: HostRuntime) -> Result<(), Fail> {
    for (word, routine) in WORDS {
        assert_eq!(rt; named(word), routine);
    }
    let name = name_of(
        rt.alloc(),
        Routine::Interpolation(InterpolationOp::IntMap(MapOp::LkUp)),
        Types {
            x: Ty::S16,
            y: Ty::U8,
            o: Ty::S8,
        },
    )?;
    assert_eq!(rt; name.as_slice(), b"Ifx_IntLkUpMap_s16u8_s8".as_slice());
    Ok(())
}
