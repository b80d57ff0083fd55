// `cert_rules`: bounds that are exactly those of the rules, an entry for which a rule gives none, the parts that a rule
// reads, and lists that are no certificate. What is accepted and what isn't is in the end-to-end suite.
ghost use Rattle.std.specs.Prelude.{◌<◌, ◌^◌, length};

use crate::networks::network;
use cert_checker::first_disallowed;
use cert_rules::{BadBounds, Bounds, Certificate, allowed, argument, rule};
use net_model::{Network, PartNo};
use std::alloc::{AllocError, Global};
use std::test::Fail;

// The range and the error of a part.
type Numbers = (i64, i64, i64);

// A network of four inputs, two blocks of arithmetic and two with binary points, with an entry for each, which for a
// block is exactly what its rule gives.
const RULED: &[u8] =
    b"net 1\nin x s16 -3 5\nin y s16.1 1 2\nin n s16 7 9\nin d s16.1 -5 -2\nwire s s16 = Mfx_Sub_s16s16_s16 x y\nwire a s16 = Mfx_AbsDiff_s16s16_s16 x y\nwire b s16.1 = Mfx_SubP2_s16s16_s16 x y\nwire q s16.2 = Mfx_DivP2_s16s16_s16 n d\nout a\n";

const ENTRIES: [Numbers; 8] = [
    (-3, 5, 7),
    (1, 2, 9),
    (7, 9, 3),
    (-5, -2, 1),
    (-5, 4, 16),
    (0, 5, 16),
    (-8, 9, 23),
    (-36, -11, 65567),
];

// A quotient whose error is far above its cap, since its divisor's is one unit short of reaching 0.
const UNRULED: &[u8] =
    b"net 1\nin x u32 0 4294967295\nin y u32 0 4294967295\nin z u32 0 4294967295\nwire q u32 = Mfx_MulDiv_u32u32u32_u32 x y z\nout q\n";

const UNRULED_ENTRIES: [Numbers; 4] = [
    (0, 65535, 1099511627775),
    (0, 65535, 1099511627775),
    (16777216, 16777216, 1099511627775),
    (0, 0, 0),
];

fn bounds((lo, hi, err): Numbers) -> Bounds {
    Bounds { lo, hi, err }
}

fn entries(alloc: Global, numbers: &[Numbers]) -> Result<Vec<Bounds>, AllocError> {
    let mut entries = Vec::new(alloc);
    for entry in numbers {
        entries.push(bounds(*entry))?;
    }
    Ok(entries)
}

// What a part's rule gives, where there is an entry for each part and all are allowed.
fn rule_over(net: &Network, entries: &[Bounds], part: u32) -> Result<Option<Bounds>, Fail> {
    let parts = net.parts().len();
    if entries.len() == parts
        && (part as usize) < parts
        && first_disallowed(net, entries).is_none()
    {
        Ok(rule(net, PartNo(part), entries))
    } else {
        Err("an entry is missing or not allowed")?
    }
}

// What the rule of a part of the network gives over these entries.
fn ruled(
    alloc: Global,
    text: &[u8],
    numbers: &[Numbers],
    part: u32,
) -> Result<Option<Bounds>, Fail> {
    let net = network(alloc, text)?;
    let entries = entries(alloc, numbers)?;
    rule_over(&net, &entries, part)
}

#[test]
fn rules_give_exact_bounds(rt: HostRuntime) -> Result<(), Fail> {
    for part in 4..8u32 {
        let given = ruled(rt.alloc(), RULED, &ENTRIES, part)?;
        assert_eq!(rt; given, Some(bounds(ENTRIES[part as usize])));
    }
    assert_eq!(rt; ruled(rt.alloc(), UNRULED, &UNRULED_ENTRIES, 3)?, None);
    Ok(())
}

fn allows_of(net: &Network, part: u32, numbers: Numbers) -> Result<bool, Fail> {
    if (part as usize) < net.parts().len() {
        Ok(allowed(net, PartNo(part), bounds(numbers)))
    } else {
        Err("no such part")?
    }
}

// Whether bounds are allowed for the one wire of a network of a byte.
fn allows(alloc: Global, numbers: Numbers) -> Result<bool, Fail> {
    let net = network(alloc, b"net 1\nin x u8 0 9\nout x\n")?;
    allows_of(&net, 0, numbers)
}

#[test]
fn both_ends_lie_in_the_type(rt: HostRuntime) -> Result<(), Fail> {
    let cap = 1 << 40;
    for (numbers, wanted) in [
        ((0, 255, cap - 1), true),
        ((300, 5, 0), false),
        ((5, -1, 0), false),
        ((-1, 5, 0), false),
        ((5, 256, 0), false),
        ((0, 255, cap), false),
    ] {
        assert_eq!(rt; allows(rt.alloc(), numbers)?, wanted);
    }
    Ok(())
}

fn arguments_of(net: &Network, part: u32) -> Result<[Option<PartNo>; 2], Fail> {
    if (part as usize) < net.parts().len() {
        let part = PartNo(part);
        Ok([argument(net, part, 0), argument(net, part, 1)])
    } else {
        Err("no such part")?
    }
}

// The parts that the rule of a part reads, the first two.
fn arguments(alloc: Global, part: u32) -> Result<[Option<PartNo>; 2], Fail> {
    let net = network(alloc, RULED)?;
    arguments_of(&net, part)
}

#[test]
fn rules_read_parts(rt: HostRuntime) -> Result<(), Fail> {
    for (part, read) in [(0, [None; 2]), (7, [Some(PartNo(2)), Some(PartNo(3))])] {
        assert_eq!(rt; arguments(rt.alloc(), part)?, read);
    }
    Ok(())
}

// The place of the first of three entries that isn't proper, if there is one.
fn improper_at(alloc: Global, three: [Numbers; 3]) -> Result<Option<u32>, AllocError> {
    let [first, second, third] = three;
    let entries = vec![in alloc; bounds(first), bounds(second), bounds(third)]?;
    match Certificate::new(entries) {
        Ok(_) => Ok(None),
        Err(BadBounds { at }) => Ok(Some(at)),
    }
}

#[test]
fn improper_entries_are_told(rt: HostRuntime) -> Result<(), Fail> {
    let limit = 1 << 62;
    let good = (-limit, limit, limit);
    for (entry, wanted) in [
        ((3, 3, 0), None),
        ((4, 3, 0), Some(1)),
        ((3, 4, -1), Some(1)),
        ((3, limit + 1, 0), Some(1)),
        ((-limit - 1, 4, 0), Some(1)),
        ((3, 4, limit + 1), Some(1)),
    ] {
        let at = improper_at(rt.alloc(), [good, entry, entry])?;
        assert_eq!(rt; at, wanted);
    }
    Ok(())
}
