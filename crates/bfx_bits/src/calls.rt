// A routine by its operation and its type.

ghost use Rattle.std.specs.Prelude.{◌≡◌, ◌≤ℤ◌, pos, negsuc, true};
ghost use Rattle.fx_core.specs.Types.{Holds};
ghost use Rattle.fx_core.specs.declared.word_type.Ty.TheVariants.{U8, S8};
ghost use Rattle.bfx_bits.specs.Routines.{HasArguments, bit_value, takes_type, truth};

use crate::masks::{
    clr_bit_mask, put_bits_mask, set_bit_mask, toggle_bit_mask, toggle_bits, tst_bit_ln_mask,
    tst_bit_mask, tst_parity_even,
};
use crate::places::{clr_bit, copy_bit, get_bit, get_bits, put_bit, put_bits, set_bit, set_bits};
use crate::turns::{rot_bit_lt, rot_bit_rt, shift_bit_lt, shift_bit_rt, shift_bit_sat};
use fx_core::{FxInt, Ty};
use fx_routines::BitOp;
use num_traits::cast;

// What a routine is given.
#[derive(Clone, Copy)]
struct Given {
    a: i64,
    b: i64,
    c: i64,
    d: i64,
}

/// The routine of the operation `op` at the type `ty`, on its arguments `a` to `d` in their order. A
/// status is 1 or 0, as an argument and as an answer. Arguments that the routine doesn't have are
/// not looked at.
pub fn call(op: BitOp, ty: Ty, a: i64, b: i64, c: i64, d: i64) -> i64
    requires taken { takes_type op ty ≡ true }
    requires arguments { HasArguments op ty a b c d }
    ensures { result ≡ bit_value op ty a b c d }
{
    let given = Given { a, b, c, d };
    match ty {
        Ty::U8 => answer::<u8>(op, given),
        Ty::S8 => answer::<i8>(op, given),
        Ty::U16 => answer::<u16>(op, given),
        Ty::S16 => answer::<i16>(op, given),
        Ty::U32 => answer::<u32>(op, given),
        Ty::S32 => answer::<i32>(op, given),
    }
}

// The routine at its native type.
#[tactic(auto, unfolding(crate::specs::Routines::bit_value))]
fn answer<W: FxInt>(op: BitOp, given: Given) -> i64
    requires taken { takes_type op W.TY ≡ true }
    requires arguments { HasArguments op W.TY given.a given.b given.c given.d }
    ensures { result ≡ bit_value op W.TY given.a given.b given.c given.d }
{
    let Given { a, b, c, d } = given;
    match op {
        BitOp::SetBit => count(set_bit::<W>(word(a), byte(b))),
        BitOp::ClrBit => count(clr_bit::<W>(word(a), byte(b))),
        BitOp::GetBit => number(get_bit::<W>(word(a), byte(b))),
        BitOp::PutBit => count(put_bit::<W>(word(a), byte(b), status(c))),
        BitOp::SetBits => count(set_bits::<W>(word(a), byte(b), byte(c), status(d))),
        BitOp::GetBits => count(get_bits::<W>(word(a), byte(b), byte(c))),
        BitOp::PutBits => count(put_bits::<W>(word(a), byte(b), byte(c), word(d))),
        BitOp::CopyBit => count(copy_bit::<W>(word(a), byte(b), word(c), byte(d))),
        BitOp::SetBitMask => count(set_bit_mask::<W>(word(a), word(b))),
        BitOp::ClrBitMask => count(clr_bit_mask::<W>(word(a), word(b))),
        BitOp::ToggleBitMask => count(toggle_bit_mask::<W>(word(a), word(b))),
        BitOp::PutBitsMask => count(put_bits_mask::<W>(word(a), word(b), word(c))),
        BitOp::TstBitMask => number(tst_bit_mask::<W>(word(a), word(b))),
        BitOp::TstBitLnMask => number(tst_bit_ln_mask::<W>(word(a), word(b))),
        BitOp::TstParityEven => number(tst_parity_even::<W>(word(a))),
        BitOp::ToggleBits => count(toggle_bits::<W>(word(a))),
        BitOp::RotBitLt => count(rot_bit_lt::<W>(word(a), byte(b))),
        BitOp::RotBitRt => count(rot_bit_rt::<W>(word(a), byte(b))),
        BitOp::ShiftBitLt => count(shift_bit_lt::<W>(word(a), byte(b))),
        BitOp::ShiftBitRt => count(shift_bit_rt::<W>(word(a), byte(b))),
        BitOp::ShiftBitSat => count(shift_bit_sat::<W>(word(a), signed_byte(b))),
    }
}

// The word of a number of its type.
fn word<W: FxInt>(number: i64) -> W
    requires { Holds W.TY number }
    ensures { W.wide result ≡ number }
{
    W::from_wide(i128::from(number))
}

// The number that a word stands for.
fn count<W: FxInt>(word: W) -> i64
    ensures { result ≡ W.wide word }
{
    cast(word.to_wide()).unwrap()
}

fn byte(number: i64) -> u8
    requires { Holds U8 number }
    ensures { pos result ≡ number }
{
    cast(number).unwrap()
}

fn signed_byte(number: i64) -> i8
    requires { Holds S8 number }
    ensures { result ≡ number }
{
    cast(number).unwrap()
}

fn number(status: bool) -> i64
    ensures { result ≡ truth status }
{
    i64::from(status)
}

fn status(number: i64) -> bool
    requires low { pos 0 ≤ℤ number }
    requires high { number ≤ℤ pos 1 }
    ensures { truth result ≡ number }
{
    number == 1
}
