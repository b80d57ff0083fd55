// The table of the routines: what each is, the front of its names and their shape.

ghost use Rattle.std.specs.Prelude.{◌≡◌, ◌<◌, length};
ghost use Rattle.fx_routines.specs.Rows.{IsAt, front_of, routine_of, row_at, shape_of};

use crate::bits::BitOp;
use crate::control::{ControlOp, EdgeOp, FilterOp, HystOp, SwitchOp};
use crate::interpolation::{CurveOp, InterpolationOp, MapOp};
use crate::operation::{ArithOp, ScaledOp};
use crate::shape::Shape;

/// What a routine computes: its family, and the operation there.
#[derive(Clone, Copy, Debug, PartialEq, Eq)]
pub enum Routine {
    /// An operation of arithmetic on raw counts.
    Arith(ArithOp),
    /// An operation on numbers with binary points.
    Scaled(ScaledOp),
    /// An operation on the bits of a word.
    Bit(BitOp),
    /// An operation on an axis, a curve or a map.
    Interpolation(InterpolationOp),
    /// A filter.
    Filter(FilterOp),
    /// A controller.
    Control(ControlOp),
    /// A block that switches.
    Switch(SwitchOp),
}

/// A row of the table: a routine, the front of its names and their shape.
pub(crate) type Row = (Routine, &'static [u8], Shape);

/// How many rows the table has.
pub(crate) const ROWS: usize = 70;

/// The table of the names, with a row for each routine.
pub(crate) const TABLE: [Row; ROWS] = [
    (Routine::Arith(ArithOp::Add), b"Mfx_Add_", Shape::Pair),
    (Routine::Arith(ArithOp::Sub), b"Mfx_Sub_", Shape::Pair),
    (
        Routine::Arith(ArithOp::AbsDiff),
        b"Mfx_AbsDiff_",
        Shape::Pair,
    ),
    (Routine::Arith(ArithOp::Mul), b"Mfx_Mul_", Shape::Pair),
    (Routine::Arith(ArithOp::Div), b"Mfx_Div_", Shape::Pair),
    (Routine::Arith(ArithOp::Mod), b"Mfx_Mod_", Shape::Pair),
    (
        Routine::Arith(ArithOp::MulDiv),
        b"Mfx_MulDiv_",
        Shape::PairAndThird,
    ),
    (
        Routine::Arith(ArithOp::MulShRight),
        b"Mfx_MulShRight_",
        Shape::PairAndShift,
    ),
    (
        Routine::Arith(ArithOp::DivShLeft),
        b"Mfx_DivShLeft_",
        Shape::PairAndShift,
    ),
    (Routine::Arith(ArithOp::Abs), b"Mfx_Abs_", Shape::OneInput),
    (
        Routine::Arith(ArithOp::Limit),
        b"Mfx_Limit_",
        Shape::OneType,
    ),
    (Routine::Arith(ArithOp::Min), b"Mfx_Min_", Shape::OneType),
    (Routine::Arith(ArithOp::Max), b"Mfx_Max_", Shape::OneType),
    (
        Routine::Arith(ArithOp::RateLimiter),
        b"Mfx_RateLimiter_",
        Shape::OneType,
    ),
    (
        Routine::Scaled(ScaledOp::Convert),
        b"Mfx_ConvertP2_",
        Shape::OneInput,
    ),
    (Routine::Scaled(ScaledOp::Add), b"Mfx_AddP2_", Shape::Pair),
    (Routine::Scaled(ScaledOp::Sub), b"Mfx_SubP2_", Shape::Pair),
    (
        Routine::Scaled(ScaledOp::AbsDiff),
        b"Mfx_AbsDiffP2_",
        Shape::Pair,
    ),
    (Routine::Scaled(ScaledOp::Mul), b"Mfx_MulP2_", Shape::Pair),
    (Routine::Scaled(ScaledOp::Div), b"Mfx_DivP2_", Shape::Pair),
    (
        Routine::Bit(BitOp::SetBit),
        b"Bfx_SetBit_",
        Shape::BitsPlace,
    ),
    (
        Routine::Bit(BitOp::ClrBit),
        b"Bfx_ClrBit_",
        Shape::BitsPlace,
    ),
    (
        Routine::Bit(BitOp::GetBit),
        b"Bfx_GetBit_",
        Shape::BitsPlaceToBool,
    ),
    (
        Routine::Bit(BitOp::PutBit),
        b"Bfx_PutBit_",
        Shape::BitsPlaceBool,
    ),
    (
        Routine::Bit(BitOp::SetBits),
        b"Bfx_SetBits_",
        Shape::BitsRangeBool,
    ),
    (
        Routine::Bit(BitOp::GetBits),
        b"Bfx_GetBits_",
        Shape::BitsRange,
    ),
    (
        Routine::Bit(BitOp::PutBits),
        b"Bfx_PutBits_",
        Shape::BitsRangeBits,
    ),
    (
        Routine::Bit(BitOp::CopyBit),
        b"Bfx_CopyBit_",
        Shape::BitsPlaceTwice,
    ),
    (
        Routine::Bit(BitOp::SetBitMask),
        b"Bfx_SetBitMask_",
        Shape::BitsMask,
    ),
    (
        Routine::Bit(BitOp::ClrBitMask),
        b"Bfx_ClrBitMask_",
        Shape::BitsMask,
    ),
    (
        Routine::Bit(BitOp::ToggleBitMask),
        b"Bfx_ToggleBitMask_",
        Shape::BitsMask,
    ),
    (
        Routine::Bit(BitOp::PutBitsMask),
        b"Bfx_PutBitsMask_",
        Shape::BitsBitsMask,
    ),
    (
        Routine::Bit(BitOp::TstBitMask),
        b"Bfx_TstBitMask_",
        Shape::BitsMaskToBool,
    ),
    (
        Routine::Bit(BitOp::TstBitLnMask),
        b"Bfx_TstBitLnMask_",
        Shape::BitsMaskToBool,
    ),
    (
        Routine::Bit(BitOp::TstParityEven),
        b"Bfx_TstParityEven_",
        Shape::BitsToBool,
    ),
    (
        Routine::Bit(BitOp::ToggleBits),
        b"Bfx_ToggleBits_",
        Shape::Bits,
    ),
    (
        Routine::Bit(BitOp::RotBitLt),
        b"Bfx_RotBitLt_",
        Shape::BitsPlace,
    ),
    (
        Routine::Bit(BitOp::RotBitRt),
        b"Bfx_RotBitRt_",
        Shape::BitsPlace,
    ),
    (
        Routine::Bit(BitOp::ShiftBitLt),
        b"Bfx_ShiftBitLt_",
        Shape::BitsPlace,
    ),
    (
        Routine::Bit(BitOp::ShiftBitRt),
        b"Bfx_ShiftBitRt_",
        Shape::BitsPlace,
    ),
    (
        Routine::Bit(BitOp::ShiftBitSat),
        b"Bfx_ShiftBitSat_",
        Shape::SignedCount,
    ),
    (
        Routine::Interpolation(InterpolationOp::Search),
        b"Ifx_DPSearch_",
        Shape::Narrow,
    ),
    (
        Routine::Interpolation(InterpolationOp::Curve(CurveOp::Ipo)),
        b"Ifx_IpoCur_",
        Shape::Narrow,
    ),
    (
        Routine::Interpolation(InterpolationOp::Curve(CurveOp::LkUp)),
        b"Ifx_LkUpCur_",
        Shape::Narrow,
    ),
    (
        Routine::Interpolation(InterpolationOp::Map(MapOp::Ipo)),
        b"Ifx_IpoMap_",
        Shape::Narrow,
    ),
    (
        Routine::Interpolation(InterpolationOp::Map(MapOp::LkUp)),
        b"Ifx_LkUpMap_",
        Shape::Narrow,
    ),
    (
        Routine::Interpolation(InterpolationOp::Map(MapOp::LkUpBase)),
        b"Ifx_LkUpBaseMap_",
        Shape::Narrow,
    ),
    (
        Routine::Interpolation(InterpolationOp::IntCurve(CurveOp::Ipo)),
        b"Ifx_IntIpoCur_",
        Shape::NarrowInput,
    ),
    (
        Routine::Interpolation(InterpolationOp::IntCurve(CurveOp::LkUp)),
        b"Ifx_IntLkUpCur_",
        Shape::NarrowInput,
    ),
    (
        Routine::Interpolation(InterpolationOp::IntMap(MapOp::Ipo)),
        b"Ifx_IntIpoMap_",
        Shape::NarrowInputs,
    ),
    (
        Routine::Interpolation(InterpolationOp::IntMap(MapOp::LkUp)),
        b"Ifx_IntLkUpMap_",
        Shape::NarrowInputs,
    ),
    (
        Routine::Interpolation(InterpolationOp::IntMap(MapOp::LkUpBase)),
        b"Ifx_IntLkUpBaseMap_",
        Shape::NarrowInputs,
    ),
    (Routine::Filter(FilterOp::Gain), b"Efx_P_", Shape::OneInput),
    (Routine::Filter(FilterOp::Pt1), b"Efx_PT1_", Shape::OneInput),
    (
        Routine::Filter(FilterOp::Dt1Typ1),
        b"Efx_DT1Typ1_",
        Shape::OneInput,
    ),
    (
        Routine::Filter(FilterOp::Dt1Typ2),
        b"Efx_DT1Typ2_",
        Shape::OneInput,
    ),
    (
        Routine::Filter(FilterOp::Average),
        b"Efx_MovAvg_",
        Shape::OneInput,
    ),
    (
        Routine::Control(ControlOp::PiTyp1),
        b"Efx_PITyp1_",
        Shape::OneInput,
    ),
    (
        Routine::Control(ControlOp::PiTyp2),
        b"Efx_PITyp2_",
        Shape::OneInput,
    ),
    (
        Routine::Control(ControlOp::PiTyp1Lim),
        b"Efx_PITyp1Lim_",
        Shape::OneInput,
    ),
    (
        Routine::Control(ControlOp::PiTyp2Lim),
        b"Efx_PITyp2Lim_",
        Shape::OneInput,
    ),
    (
        Routine::Control(ControlOp::Ramp),
        b"Efx_Ramp_",
        Shape::OneInput,
    ),
    (
        Routine::Switch(SwitchOp::Hyst(HystOp::LeftRight)),
        b"Efx_HystLeftRight_",
        Shape::InputToBool,
    ),
    (
        Routine::Switch(SwitchOp::Hyst(HystOp::CenterHalfDelta)),
        b"Efx_HystCenterHalfDelta_",
        Shape::InputToBool,
    ),
    (
        Routine::Switch(SwitchOp::Hyst(HystOp::LeftDelta)),
        b"Efx_HystLeftDelta_",
        Shape::InputToBool,
    ),
    (
        Routine::Switch(SwitchOp::Hyst(HystOp::DeltaRight)),
        b"Efx_HystDeltaRight_",
        Shape::InputToBool,
    ),
    (
        Routine::Switch(SwitchOp::Debounce),
        b"Efx_Debounce_",
        Shape::BoolToBool,
    ),
    (
        Routine::Switch(SwitchOp::Edge(EdgeOp::Rising)),
        b"Efx_EdgeRising_",
        Shape::BoolToBool,
    ),
    (
        Routine::Switch(SwitchOp::Edge(EdgeOp::Falling)),
        b"Efx_EdgeFalling_",
        Shape::BoolToBool,
    ),
    (
        Routine::Switch(SwitchOp::Edge(EdgeOp::Both)),
        b"Efx_EdgeBoth_",
        Shape::BoolToBool,
    ),
];

/// The row at a place of the table.
pub(crate) fn row_at(place: usize) -> Row
    requires { place < 70 }
    ensures routine { result.0 ≡ routine_of (row_at place) }
    ensures front { result.1.now ≡ front_of (row_at place) }
    ensures shape { result.2 ≡ shape_of (row_at place) }
{
    row_in(&TABLE, place)
}

fn row_in(table: &[Row], place: usize) -> Row
    requires { place < length table.now }
    ensures { IsAt table.now place result }
{
    table[place]
}
