// `net_model`: a draft with an axis and a table that makes a network, and such drafts that don't.

use crate::drafts::add_wire;
use fx_core::Ty;
use ifx_curves::{CurveOp, Table};
use ifx_search::Axis;
use net_model::{Block, Draft, Item, Kind, Name, NetKind, NetRefusal, Network, WireNo};
use std::alloc::Global;
use std::test::Fail;

// What the cases change of a network of one input, its position on an axis of three points, and a curve of three values
// there and over the axis.
#[derive(Clone, Copy)]
struct Curves {
    // The kind of the input.
    input: Kind,
    // How many values the table has.
    value_count: usize,
    // The name of the table.
    table: [u8; 1],
    // The curve at the position: its operation and the number of its table.
    op: CurveOp,
    curve_table: u32,
    // The axis of the position's wire.
    place: u32,
}

const CURVES: Curves = Curves {
    input: Kind::Num(Ty::S16, 0),
    value_count: 3,
    table: [b't'],
    op: CurveOp::Ipo,
    curve_table: 0,
    place: 0,
};

// Changes of the network for which it is refused.
#[derive(Clone, Copy)]
enum Change {
    Position,
    ShortTable,
    NameOfTheAxis,
    NameOfAWire,
    LookUp,
    NoTable,
    OtherAxis,
}

fn changed(change: Change) -> Curves {
    match change {
        Change::Position => Curves {
            input: Kind::Position(0),
            ..CURVES
        },
        Change::ShortTable => Curves {
            value_count: 2,
            ..CURVES
        },
        Change::NameOfTheAxis => Curves {
            table: [b'a'],
            ..CURVES
        },
        Change::NameOfAWire => Curves {
            table: [b'p'],
            ..CURVES
        },
        Change::LookUp => Curves {
            op: CurveOp::LkUp,
            ..CURVES
        },
        Change::NoTable => Curves {
            curve_table: 1,
            ..CURVES
        },
        Change::OtherAxis => Curves { place: 1, ..CURVES },
    }
}

fn add_lists(draft: &mut Draft, alloc: Global, curves: Curves) -> Result<(), Fail> {
    let axis = Axis::new(alloc, Ty::S16, &[0, 10, 30])?;
    draft.axes.push((Name::new(alloc, b"a")?, axis))?;
    let values = vec![in alloc; 50; curves.value_count]?;
    let table = Table::new(alloc, Ty::S16, &values)?;
    Ok(
        draft
            .tables
            .push((Name::new(alloc, &curves.table)?, table))?,
    )
}

fn add_wires(draft: &mut Draft, alloc: Global, curves: Curves) -> Result<(), Fail> {
    let number = Kind::Num(Ty::S16, 0);
    let x = Item::Input { lo: 0, hi: 30 };
    add_wire(&mut draft.wires, alloc, b"x", curves.input, x)?;
    let p = Item::Block(Block::Search {
        ty: Ty::S16,
        x: WireNo(0),
        axis: 0,
    });
    add_wire(
        &mut draft.wires,
        alloc,
        b"p",
        Kind::Position(curves.place),
        p,
    )?;
    let y = Item::Block(Block::Curve {
        op: curves.op,
        dp: WireNo(1),
        table: curves.curve_table,
    });
    add_wire(&mut draft.wires, alloc, b"y", number, y)?;
    let z = Item::Block(Block::IntCurve {
        op: CurveOp::Ipo,
        x: WireNo(0),
        axis: 0,
        table: 0,
    });
    add_wire(&mut draft.wires, alloc, b"z", number, z)
}

fn draft_of(alloc: Global, curves: Curves) -> Result<Draft, Fail> {
    let mut draft = Draft {
        axes: Vec::new(alloc),
        tables: Vec::new(alloc),
        wires: Vec::new(alloc),
        outs: vec![in alloc; WireNo(3); 1]?,
    };
    add_lists(&mut draft, alloc, curves)?;
    add_wires(&mut draft, alloc, curves)?;
    Ok(draft)
}

// How many axes, tables and wires a network has, or why there is none.
fn counts_of(alloc: Global, curves: Curves) -> Result<Result<[usize; 3], NetRefusal>, Fail> {
    match Network::new(alloc, draft_of(alloc, curves)?) {
        Ok(net) => Ok(Ok([net.axes().len(), net.tables().len(), net.wires().len()])),
        Err(refusal) => Ok(Err(refusal)),
    }
}

#[test]
fn makes_a_network_with_curves(rt: HostRuntime) -> Result<(), Fail> {
    let counts = counts_of(rt.alloc(), CURVES)?;
    assert_eq!(rt; counts, Ok([1, 1, 4]));
    Ok(())
}

#[test]
fn refuses_drafts_with_curves(rt: HostRuntime) -> Result<(), Fail> {
    for (change, wire, kind) in [
        (Change::Position, 0, NetKind::TypeDiffers),
        (Change::ShortTable, 2, NetKind::TypeDiffers),
        (Change::NameOfTheAxis, 4, NetKind::Repeated),
        (Change::NameOfAWire, 1, NetKind::Repeated),
        (Change::LookUp, 2, NetKind::NotBuilt),
        (Change::NoTable, 2, NetKind::TypeDiffers),
        (Change::OtherAxis, 1, NetKind::TypeDiffers),
    ] {
        let counts = counts_of(rt.alloc(), changed(change))?;
        assert_eq!(rt; counts, Err(NetRefusal::At { wire, kind }));
    }
    Ok(())
}
