// `ifx_curves`: worked values of tables, curves and slopes.

ghost use Rattle.std.specs.Prelude.{◌≡◌, length};
ghost use Rattle.fx_core.specs.declared.word_type.Ty.TheVariants.{S16};

use fx_core::Ty;
use ifx_curves::{CurveOp, Table, TableFault, call, call_int, greatest_slope, greatest_step};
use ifx_search::{Axis, search};
use std::alloc::Global;

// Why a table isn't made, where it isn't.
fn fault(made: Result<Table, TableFault>) -> Option<TableFault> {
    match made {
        Ok(_) => None,
        Err(fault) => Some(fault),
    }
}

// What a table of two values says of itself.
fn seen(table: &Table) -> (u32, Ty, [i64; 2])
    requires { length table.now.values ≡ 2 }
{
    (table.len(), table.ty(), [table.value(0), table.value(1)])
}

fn two_values_seen(alloc: Global) -> Option<(u32, Ty, [i64; 2])> {
    match Table::new(alloc, Ty::S8, &[-128, 127]) {
        Ok(table) => Some(seen(&table)),
        Err(_) => None,
    }
}

// The values of a curve at its start, just before the middle of its second segment, there and at its end.
fn at_positions(op: CurveOp, table: &Table) -> [i64; 4]
    requires { length table.now.values ≡ 3 }
{
    [
        call(op, table, 0),
        call(op, table, 98_303),
        call(op, table, 98_304),
        call(op, table, 131_072),
    ]
}

// The same with the values 0, 100, 50.
fn at_positions_of_three(alloc: Global, op: CurveOp) -> Option<[i64; 4]> {
    match Table::new(alloc, Ty::S16, &[0, 100, 50]) {
        Ok(table) => Some(at_positions(op, &table)),
        Err(_) => None,
    }
}

// The values of a curve at three inputs.
fn at_inputs(op: CurveOp, axis: &Axis, table: &Table) -> [i64; 3]
    requires ty { axis.now.ty ≡ S16 }
    requires lengths { length axis.now.points ≡ length table.now.values }
{
    [
        call_int(op, axis, table, -5),
        call_int(op, axis, table, 15),
        call_int(op, axis, table, 99),
    ]
}

fn at_inputs_over(alloc: Global, op: CurveOp, axis: &Axis) -> Option<[i64; 3]>
    requires ty { axis.now.ty ≡ S16 }
    requires points { length axis.now.points ≡ 3 }
{
    match Table::new(alloc, Ty::S16, &[0, 100, 50]) {
        Ok(table) => Some(at_inputs(op, axis, &table)),
        Err(_) => None,
    }
}

// The same on the axis 0, 10, 30 with the values 0, 100, 50.
fn at_inputs_of_three(alloc: Global, op: CurveOp) -> Option<[i64; 3]> {
    match Axis::new(alloc, Ty::S16, &[0, 10, 30]) {
        Ok(axis) => at_inputs_over(alloc, op, &axis),
        Err(_) => None,
    }
}

// A curve at 1 and, beside it, at the word of the position of 1.
fn both_ways(axis: &Axis, table: &Table) -> (i64, i64)
    requires ty { axis.now.ty ≡ S16 }
    requires points { length axis.now.points ≡ 2 }
    requires values { length table.now.values ≡ 2 }
{
    (
        call_int(CurveOp::Ipo, axis, table, 1),
        call(CurveOp::Ipo, table, 21_845),
    )
}

fn both_ways_over(alloc: Global, axis: &Axis) -> Option<(i64, i64)>
    requires ty { axis.now.ty ≡ S16 }
    requires points { length axis.now.points ≡ 2 }
{
    match Table::new(alloc, Ty::S16, &[0, 3]) {
        Ok(table) => Some(both_ways(axis, &table)),
        Err(_) => None,
    }
}

// The same on the axis 0, 3 with the values 0, 3, behind the position of 1.
fn a_third(alloc: Global) -> Option<(i64, Option<(i64, i64)>)> {
    match Axis::new(alloc, Ty::S16, &[0, 3]) {
        Ok(axis) => Some((search(&axis, 1).word(), both_ways_over(alloc, &axis))),
        Err(_) => None,
    }
}

// The greatest step and the greatest slope of a curve with these three values.
fn steepness(alloc: Global, axis: &Axis, values: [i64; 3]) -> Option<(i64, (i64, i64))>
    requires { length axis.now.points ≡ 3 }
{
    match Table::new(alloc, Ty::S16, &values) {
        Ok(table) => Some((greatest_step(&table), greatest_slope(axis, &table))),
        Err(_) => None,
    }
}

// The same over the axis 0, 10, 30.
fn steepness_of_three(alloc: Global, values: [i64; 3]) -> Option<(i64, (i64, i64))> {
    match Axis::new(alloc, Ty::S16, &[0, 10, 30]) {
        Ok(axis) => steepness(alloc, &axis, values),
        Err(_) => None,
    }
}

#[test]
fn tables(rt: HostRuntime) {
    assert_eq!(rt; two_values_seen(rt.alloc()), Some((2, Ty::S8, [-128, 127])));
}

#[test]
fn refused_values(rt: HostRuntime) {
    assert_eq!(rt;
        fault(Table::new(rt.alloc(), Ty::S8, &[1])),
        Some(TableFault::TooFew)
    );
    assert_eq!(rt;
        fault(Table::new(rt.alloc(), Ty::S8, &[1, 200])),
        Some(TableFault::OutOfType(1))
    );
}

#[test]
fn interpolated(rt: HostRuntime) {
    assert_eq!(rt;
        at_positions_of_three(rt.alloc(), CurveOp::Ipo),
        Some([0, 75, 75, 50])
    );
    assert_eq!(rt;
        at_inputs_of_three(rt.alloc(), CurveOp::Ipo),
        Some([0, 87, 50])
    );
}

#[test]
fn looked_up(rt: HostRuntime) {
    assert_eq!(rt;
        at_positions_of_three(rt.alloc(), CurveOp::LkUp),
        Some([0, 100, 50, 50])
    );
    assert_eq!(rt;
        at_inputs_of_three(rt.alloc(), CurveOp::LkUp),
        Some([0, 100, 50])
    );
}

// The integrated curve doesn't round the position in between.
#[test]
fn unrounded_position(rt: HostRuntime) {
    assert_eq!(rt; a_third(rt.alloc()), Some((21_845, Some((1, 0)))));
}

// A rise, a fall, and two slopes that are equal.
#[test]
fn slopes(rt: HostRuntime) {
    assert_eq!(rt;
        steepness_of_three(rt.alloc(), [0, 100, 50]),
        Some((100, (100, 10)))
    );
    assert_eq!(rt;
        steepness_of_three(rt.alloc(), [0, 50, -70]),
        Some((120, (120, 20)))
    );
    assert_eq!(rt;
        steepness_of_three(rt.alloc(), [0, 5, -5]),
        Some((10, (5, 10)))
    );
}
