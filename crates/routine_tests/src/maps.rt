// `ifx_maps`: worked values of maps and their slopes.

ghost use Rattle.std.specs.Prelude.{◌≡◌, length};
ghost use Rattle.fx_core.specs.declared.word_type.Ty.TheVariants.{S16};

use fx_core::Ty;
use ifx_maps::{MapFault, MapOp, MapTable, call, call_int, slope_x, slope_y, step_x, step_y};
use ifx_search::Axis;
use std::alloc::Global;

// Why a map isn't made, where it isn't.
fn fault(made: Result<MapTable, MapFault>) -> Option<MapFault> {
    match made {
        Ok(_) => None,
        Err(fault) => Some(fault),
    }
}

// What a map of two columns and three lines says of itself.
fn seen(m: &MapTable) -> (u32, u32, Ty, [i64; 3])
    requires columns { m.now.nx ≡ 2 }
    requires lines { m.now.ny ≡ 3 }
{
    (
        m.nx(),
        m.ny(),
        m.ty(),
        [m.value(0, 1), m.value(1, 0), m.value(1, 2)],
    )
}

fn six_values_seen(alloc: Global) -> Option<(u32, u32, Ty, [i64; 3])> {
    match MapTable::new(alloc, Ty::U8, 2, 3, &[1, 2, 3, 4, 5, 6]) {
        Ok(m) => Some(seen(&m)),
        Err(_) => None,
    }
}

// The values of a map between its points, at its end, and just below the end along x.
fn at_positions(op: MapOp, m: &MapTable) -> [i64; 3]
    requires columns { m.now.nx ≡ 2 }
    requires lines { m.now.ny ≡ 2 }
{
    [
        call(op, m, 32_768, 16_384),
        call(op, m, 65_536, 65_536),
        call(op, m, 65_535, 32_768),
    ]
}

// The same with the values 0, 40 and 100, 200.
fn at_positions_of_four(alloc: Global, op: MapOp) -> Option<[i64; 3]> {
    match MapTable::new(alloc, Ty::S16, 2, 2, &[0, 40, 100, 200]) {
        Ok(m) => Some(at_positions(op, &m)),
        Err(_) => None,
    }
}

// The values of a map at two pairs of inputs.
fn at_inputs(op: MapOp, ax: &Axis, ay: &Axis, m: &MapTable) -> [i64; 2]
    requires type_x { ax.now.ty ≡ S16 }
    requires type_y { ay.now.ty ≡ S16 }
    requires columns { length ax.now.points ≡ m.now.nx }
    requires lines { length ay.now.points ≡ m.now.ny }
{
    [
        call_int(op, ax, ay, m, 5, 5),
        call_int(op, ax, ay, m, -5, 99),
    ]
}

fn at_inputs_over(alloc: Global, op: MapOp, ax: &Axis, ay: &Axis) -> Option<[i64; 2]>
    requires type_x { ax.now.ty ≡ S16 }
    requires type_y { ay.now.ty ≡ S16 }
    requires points_x { length ax.now.points ≡ 2 }
    requires points_y { length ay.now.points ≡ 2 }
{
    match MapTable::new(alloc, Ty::S16, 2, 2, &[0, 40, 100, 200]) {
        Ok(m) => Some(at_inputs(op, ax, ay, &m)),
        Err(_) => None,
    }
}

fn at_inputs_along(alloc: Global, op: MapOp, ax: &Axis) -> Option<[i64; 2]>
    requires type_x { ax.now.ty ≡ S16 }
    requires points_x { length ax.now.points ≡ 2 }
{
    match Axis::new(alloc, Ty::S16, &[0, 20]) {
        Ok(ay) => at_inputs_over(alloc, op, ax, &ay),
        Err(_) => None,
    }
}

// The same on the axes 0, 10 and 0, 20 with the values 0, 40 and 100, 200.
fn at_inputs_of_four(alloc: Global, op: MapOp) -> Option<[i64; 2]> {
    match Axis::new(alloc, Ty::S16, &[0, 10]) {
        Ok(ax) => at_inputs_along(alloc, op, &ax),
        Err(_) => None,
    }
}

// The greatest steps and slopes along x and along y of a map over one axis in both directions.
fn steepness(axis: &Axis, m: &MapTable) -> ([i64; 2], [(i64, i64); 2])
    requires columns { length axis.now.points ≡ m.now.nx }
    requires lines { length axis.now.points ≡ m.now.ny }
{
    ([step_x(m), step_y(m)], [slope_x(axis, m), slope_y(axis, m)])
}

fn steepness_over(
    alloc: Global,
    axis: &Axis,
    values: [i64; 9],
) -> Option<([i64; 2], [(i64, i64); 2])>
    requires { length axis.now.points ≡ 3 }
{
    match MapTable::new(alloc, Ty::S16, 3, 3, &values) {
        Ok(m) => Some(steepness(axis, &m)),
        Err(_) => None,
    }
}

// The same over the axis 0, 10, 30 with three columns of three values.
fn steepness_of_nine(alloc: Global, values: [i64; 9]) -> Option<([i64; 2], [(i64, i64); 2])> {
    match Axis::new(alloc, Ty::S16, &[0, 10, 30]) {
        Ok(axis) => steepness_over(alloc, &axis, values),
        Err(_) => None,
    }
}

#[test]
fn maps(rt: HostRuntime) {
    assert_eq!(rt;
        six_values_seen(rt.alloc()),
        Some((2, 3, Ty::U8, [2, 4, 6]))
    );
}

#[test]
fn refused_values(rt: HostRuntime) {
    assert_eq!(rt;
        fault(MapTable::new(rt.alloc(), Ty::S16, 2, 2, &[0, 40, 100])),
        Some(MapFault::WrongCount)
    );
    assert_eq!(rt;
        fault(MapTable::new(rt.alloc(), Ty::S8, 2, 2, &[1, 2, 3, 200])),
        Some(MapFault::OutOfType(3))
    );
}

#[test]
fn interpolated(rt: HostRuntime) {
    assert_eq!(rt;
        at_positions_of_four(rt.alloc(), MapOp::Ipo),
        Some([67, 200, 149])
    );
    assert_eq!(rt; at_inputs_of_four(rt.alloc(), MapOp::Ipo), Some([67, 40]));
}

#[test]
fn looked_up(rt: HostRuntime) {
    assert_eq!(rt;
        at_positions_of_four(rt.alloc(), MapOp::LkUp),
        Some([100, 200, 200])
    );
    assert_eq!(rt; at_inputs_of_four(rt.alloc(), MapOp::LkUp), Some([100, 40]));
}

#[test]
fn looked_up_below(rt: HostRuntime) {
    assert_eq!(rt;
        at_positions_of_four(rt.alloc(), MapOp::LkUpBase),
        Some([0, 200, 0])
    );
    assert_eq!(rt;
        at_inputs_of_four(rt.alloc(), MapOp::LkUpBase),
        Some([0, 40])
    );
}

// A fall along x and a rise along y, and slopes that are equal: 5 over 10 and then 10 over 20.
#[test]
fn slopes(rt: HostRuntime) {
    assert_eq!(rt;
        steepness_of_nine(rt.alloc(), [0, 30, 70, 0, 0, 0, -50, 0, 0]),
        Some(([70, 50], [(70, 10), (50, 10)]))
    );
    assert_eq!(rt;
        steepness_of_nine(rt.alloc(), [0, 5, 5, 0, 0, 10, 0, 0, 0]),
        Some(([10, 10], [(5, 10), (5, 10)]))
    );
}
