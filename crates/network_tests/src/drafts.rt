// `net_model`: a draft that makes a network, and drafts that don't.

use fx_core::Ty;
use mfx_arith::{ArithOp, Variant};
use mfx_scaled::ScaledOp;
use net_model::{
    Block, Draft, Item, Kind, Name, NetKind, NetRefusal, Network, PartNo, Role, Wire, WireNo,
};
use std::alloc::Global;
use std::test::Fail;

// What the cases change of a network of two inputs, the conversion of the second to the first one's binary point, and
// the sum of both.
#[derive(Clone, Copy)]
struct Sum {
    // The least value of the first input.
    lo: i64,
    // The name of the sum, the type of its second input and its second argument.
    name: [u8; 1],
    second: Ty,
    y: WireNo,
    // How often it is an output.
    out_count: usize,
}

const SUM: Sum = Sum {
    lo: 0,
    name: [b's'],
    second: Ty::S16,
    y: WireNo(2),
    out_count: 1,
};

// Changes of the network for which it is refused.
#[derive(Clone, Copy)]
enum Change {
    UsedName,
    OwnArgument,
    OtherType,
    EmptyRange,
    OutputTwice,
    NoOutput,
}

fn changed(change: Change) -> Sum {
    match change {
        Change::UsedName => Sum {
            name: [b'a'],
            ..SUM
        },
        Change::OwnArgument => Sum {
            y: WireNo(3),
            ..SUM
        },
        Change::OtherType => Sum {
            second: Ty::U16,
            ..SUM
        },
        Change::EmptyRange => Sum { lo: 1001, ..SUM },
        Change::OutputTwice => Sum {
            out_count: 2,
            ..SUM
        },
        Change::NoOutput => Sum {
            out_count: 0,
            ..SUM
        },
    }
}

// The types of a routine that gives an s16 and whose first input is one.
fn variant_with(second: Ty) -> Result<Variant, Fail> {
    Ok(Variant::new(Ty::S16, second, Ty::S16).ok_or(NetKind::TypeDiffers)?)
}

pub(crate) fn add_wire(
    wires: &mut Vec<Wire>,
    alloc: Global,
    name: &[u8],
    kind: Kind,
    item: Item,
) -> Result<(), Fail> {
    let name = Name::new(alloc, name)?;
    Ok(wires.push(Wire { name, kind, item })?)
}

fn draft_of(alloc: Global, sum: Sum) -> Result<Draft, Fail> {
    let mut wires = Vec::new(alloc);
    let a = Item::Input {
        lo: sum.lo,
        hi: 1000,
    };
    add_wire(&mut wires, alloc, b"a", Kind::Num(Ty::S16, 0), a)?;
    let b = Item::Input { lo: -160, hi: 160 };
    add_wire(&mut wires, alloc, b"b", Kind::Num(Ty::S16, 4), b)?;
    let c = Item::Block(Block::Scaled {
        op: ScaledOp::Convert,
        v: variant_with(Ty::S16)?,
        x: WireNo(1),
        y: WireNo(1),
    });
    add_wire(&mut wires, alloc, b"c", Kind::Num(Ty::S16, 0), c)?;
    let s = Item::Block(Block::Arith {
        op: ArithOp::Add,
        v: variant_with(sum.second)?,
        x: WireNo(0),
        y: sum.y,
        z: WireNo(0),
        sh: 0,
    });
    add_wire(&mut wires, alloc, &sum.name, Kind::Num(Ty::S16, 0), s)?;
    let outs = vec![in alloc; WireNo(3); sum.out_count]?;
    Ok(Draft {
        axes: Vec::new(alloc),
        tables: Vec::new(alloc),
        wires,
        outs,
    })
}

fn refusal_of(alloc: Global, sum: Sum) -> Result<Option<NetRefusal>, Fail> {
    match Network::new(alloc, draft_of(alloc, sum)?) {
        Ok(_) => Ok(None),
        Err(refusal) => Ok(Some(refusal)),
    }
}

// How many wires, parts, inputs and outputs a network has.
fn counts(net: &Network) -> [usize; 4] {
    [
        net.wires().len(),
        net.parts().len(),
        net.inputs().len(),
        net.outs().len(),
    ]
}

// The part of the third wire, if there is one.
fn third_part(net: &Network) -> Option<PartNo> {
    if net.wires().len() > 2 {
        net.part_of(WireNo(2), Role::Value)
    } else {
        None
    }
}

// What a network says of itself: its counts, the wires of two names, its third wire's part, and whether it is smooth.
type Facts = ([usize; 4], [Option<WireNo>; 2], Option<PartNo>, bool);

fn facts(net: &Network) -> Facts {
    let found = [net.find(b"c"), net.find(b"t")];
    (counts(net), found, third_part(net), net.smooth().is_ok())
}

fn facts_of(alloc: Global, sum: Sum) -> Result<Facts, Fail> {
    let net = Network::new(alloc, draft_of(alloc, sum)?)?;
    Ok(facts(&net))
}

#[test]
fn makes_a_network(rt: HostRuntime) -> Result<(), Fail> {
    let found = facts_of(rt.alloc(), SUM)?;
    let wanted = ([4, 4, 2, 1], [Some(WireNo(2)), None], Some(PartNo(2)), true);
    assert_eq!(rt; found, wanted);
    Ok(())
}

#[test]
fn refuses_drafts(rt: HostRuntime) -> Result<(), Fail> {
    for (change, wire, kind) in [
        (Change::UsedName, 3, NetKind::Repeated),
        (Change::OwnArgument, 3, NetKind::LaterWire),
        (Change::OtherType, 3, NetKind::TypeDiffers),
        (Change::EmptyRange, 0, NetKind::OutOfRange),
        (Change::OutputTwice, 4, NetKind::Repeated),
        (Change::NoOutput, 4, NetKind::Missing),
    ] {
        let refusal = refusal_of(rt.alloc(), changed(change))?;
        assert_eq!(rt; refusal, Some(NetRefusal::At { wire, kind }));
    }
    Ok(())
}
