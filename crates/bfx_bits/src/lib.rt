// Bfx routines: the operations on the bits of a word, typed for native integers and by name for any
// type.
#![tactic(auto)]

mod calls;
mod masks;
mod patterns;
mod places;
mod taking;
mod turns;

pub use crate::calls::call;
pub use crate::masks::{
    clr_bit_mask, put_bits_mask, set_bit_mask, toggle_bit_mask, toggle_bits, tst_bit_ln_mask,
    tst_bit_mask, tst_parity_even,
};
pub use crate::places::{
    clr_bit, copy_bit, get_bit, get_bits, put_bit, put_bits, set_bit, set_bits,
};
pub use crate::taking::takes;
pub use crate::turns::{rot_bit_lt, rot_bit_rt, shift_bit_lt, shift_bit_rt, shift_bit_sat};
pub use fx_routines::BitOp;
