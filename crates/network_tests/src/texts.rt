// `net_text`: texts that are read and printed. The faults of others are told by the program in the end-to-end suite.

use crate::networks::network;
use net_text::print_net;
use std::alloc::Global;
use std::test::Fail;

// Texts, and the canonical ones that they are printed as.
const TEXTS: [(&[u8], &[u8]); 2] = [
    (
        b"\xEF\xBB\xBFnet 1 # a sum\r\n\nin x s16 0 4\nconst k s16.07 -3\nwire y s32 = Mfx_Add_s16s16_s32 x k\nwire z s16.12 = Mfx_ConvertP2_s32_s16 y\nin u u8 0 9\nwire v u8 = Mfx_MulShRight_u8u8u8_u8 u u 15\nwire w u16 = Mfx_Abs_s16_u16 x\nwire r s16 = Mfx_RateLimiter_s16 x k w\nout z\nout y\n",
        b"net 1\nin x s16 0 4\nconst k s16.7 -3\nwire y s32 = Mfx_Add_s16s16_s32 x k\nwire z s16.12 = Mfx_ConvertP2_s32_s16 y\nin u u8 0 9\nwire v u8 = Mfx_MulShRight_u8u8u8_u8 u u 15\nwire w u16 = Mfx_Abs_s16_u16 x\nwire r s16 = Mfx_RateLimiter_s16 x k w\nout z\nout y\n",
    ),
    (
        b"# a\nnet\t1\r\n\nin u u32.00 0 4294967295 # b\nconst t bool +1\nin p s16.15 -32768 -1\nconst k u32 +07\nwire m u32 = Mfx_MulDiv_u32u32u32_u32 u  k k\nwire h u32 = Mfx_MulShRight_u32u32u8_u32 m u 015\nwire q s16.07 = Mfx_AddP2_s16s16_s16 p p\nout t\nout q\nout h",
        b"net 1\nin u u32 0 4294967295\nconst t bool 1\nin p s16.15 -32768 -1\nconst k u32 7\nwire m u32 = Mfx_MulDiv_u32u32u32_u32 u k k\nwire h u32 = Mfx_MulShRight_u32u32u8_u32 m u 15\nwire q s16.7 = Mfx_AddP2_s16s16_s16 p p\nout t\nout q\nout h\n",
    ),
];

// A text as its network is printed.
fn printed(alloc: Global, text: &[u8]) -> Result<Vec<u8>, Fail> {
    let net = network(alloc, text)?;
    Ok(print_net(alloc, &net)?)
}

#[test]
fn prints_what_it_read(rt: HostRuntime) -> Result<(), Fail> {
    for (text, canonical) in TEXTS {
        assert_eq!(rt; printed(rt.alloc(), text)?.as_slice(), canonical);
    }
    Ok(())
}
