// What gives one wire its value: the step of its block, and what a step makes of a row.

ghost use Rattle.std.specs.Prelude.{◌≡◌, ◌-◌, ◌*◌, ◌<◌, ◌≤ℤ◌, length, pos};
ghost use Rattle.fx_fraction.specs.Fraction.{whole};
ghost use Rattle.fx_core.specs.Types.{Holds};
ghost use Rattle.ifx_search.specs.Positions.{position, position_value};
ghost use Rattle.ifx_curves.specs.Curves.{curve_value};
ghost use Rattle.net_model.specs.Wires.{axis_at, point_of, table_at, wire_at};
ghost use Rattle.net_model.specs.Validity.{IsValid};
ghost use Rattle.net_eval.specs.Steps.{IsReady, block_step, state_behind, step_value};

use crate::states::{State, filter, held};
use ifx_curves::CurveOp;
use ifx_search::search;
use mfx_arith::{ArithOp, Variant};
use mfx_scaled::{Points, ScaledOp};
use net_model::{Block, Item, Kind, Network, WireNo};

/// What gives one wire its value, with the places of what it reads.
#[derive(Clone, Copy)]
pub(crate) enum Step {
    /// The row's input at this place.
    Read {
        place: usize,
    },
    /// The same value in each row.
    Fixed {
        value: i64,
    },
    /// The value that the wire's state holds for this row.
    Delay,
    /// What an operation makes of the values of earlier wires.
    Arith {
        op: ArithOp,
        v: Variant,
        x: usize,
        y: usize,
        z: usize,
        shift: u8,
    },
    /// What a form with binary points makes of the values of earlier wires.
    Scaled {
        op: ScaledOp,
        v: Variant,
        x: usize,
        y: usize,
        points: Points,
    },
    /// What a filter, which is the wire's state, makes of the value of an earlier wire.
    Filter {
        x: usize,
    },
    /// The position of an earlier wire's value on the axis of this number.
    Search {
        x: usize,
        axis: usize,
    },
    /// The curve through the table of this number, at the position that an earlier wire has.
    Curve {
        op: CurveOp,
        x: usize,
        table: usize,
    },
    /// The curve through a table over an axis, at the value of an earlier wire.
    IntCurve {
        op: CurveOp,
        x: usize,
        axis: usize,
        table: usize,
    },
}

/// The step of a wire that has a block.
#[tactic(auto, using(crate::proofs::ScaledSteps::scaled_there))]
pub(crate) fn block_step(net: &Network, wire: WireNo, block: Block) -> Step
    requires valid { IsValid net.now }
    requires there { wire.0 < length net.now.wires }
    requires block { (wire_at net.now.wires wire.0).item ≡ Item.Block block }
    ensures { result ≡ block_step net.now (wire_at net.now.wires wire.0).kind block }
{
    match block {
        Block::Arith { op, v, x, y, z, sh } => Step::Arith {
            op,
            v,
            x: x.0 as usize,
            y: y.0 as usize,
            z: z.0 as usize,
            shift: sh,
        },
        Block::Scaled { op, v, x, y } => Step::Scaled {
            op,
            v,
            x: x.0 as usize,
            y: y.0 as usize,
            points: Points {
                a: point_at(net, x),
                b: point_at(net, y),
                c: point_at(net, wire),
            },
        },
        Block::Gain { x, .. }
        | Block::Average { x, .. }
        | Block::Pt1 { x, .. }
        | Block::Dt1 { x, .. } => Step::Filter { x: x.0 as usize },
        Block::Search { x, axis, .. } => Step::Search {
            x: x.0 as usize,
            axis: axis as usize,
        },
        Block::Curve { op, dp, table } => Step::Curve {
            op,
            x: dp.0 as usize,
            table: table as usize,
        },
        Block::IntCurve { op, x, axis, table } => Step::IntCurve {
            op,
            x: x.0 as usize,
            axis: axis as usize,
            table: table as usize,
        },
    }
}

/// The binary point of a wire, 0 where it has none.
fn point_at(net: &Network, wire: WireNo) -> u8
    requires { wire.0 < length net.now.wires }
    ensures { result ≡ point_of (wire_at net.now.wires wire.0).kind }
{
    match net.wires()[wire.0 as usize].kind {
        Kind::Num(_, point) => point,
        Kind::Truth | Kind::Position(_) => 0,
    }
}

/// The value of a step of a network, from what its wire keeps, the row's inputs and the values of the earlier wires. A filter steps
/// on; what a delay holds is handed over behind the row.
pub(crate) fn step_value(
    net: &Network,
    step: &Step,
    state: &mut State,
    inputs: &[i64],
    values: &[i64],
) -> i64
    requires { IsReady net.now step.now state.old inputs.now values.now }
    ensures value { result ≡ step_value net.now step.now state.old inputs.now values.now }
    ensures state { state.new ≡ state_behind step.now state.old values.now }
{
    match *step {
        Step::Read { place } => inputs[place],
        Step::Fixed { value } => value,
        Step::Delay => held(state),
        Step::Arith {
            op,
            v,
            x,
            y,
            z,
            shift,
        } => { mfx_arith::call(op, v, values[x], values[y], values[z], shift) }
        Step::Scaled {
            op,
            v,
            x,
            y,
            points,
        } => { mfx_scaled::call(op, v, values[x], values[y], points) }
        Step::Filter { x } => filter(state, values[x]),
        Step::Search { x, axis } => position(net, axis, values[x]),
        Step::Curve { op, x, table } => curve(net, op, table, values[x]),
        Step::IntCurve { op, x, axis, table } => curve_over(net, op, axis, table, values[x]),
    }
}

/// The position of a number on an axis.
fn position(net: &Network, axis: usize, x: i64) -> i64
    requires there { axis < length net.now.axes }
    requires input { Holds (axis_at net.now.axes axis).ty x }
    ensures { result ≡ position_value (axis_at net.now.axes axis).points x }
{
    search(&net.axes()[axis].1, x).word()
}

/// The value of a curve at a position that isn't behind its last value.
fn curve(net: &Network, op: CurveOp, table: usize, dp: i64) -> i64
    requires there { table < length net.now.tables }
    requires low { pos 0 ≤ℤ dp }
    requires high { dp ≤ℤ pos (65536 * (length (table_at net.now.tables table).values - 1)) }
    ensures { result ≡ curve_value op (table_at net.now.tables table).values (whole dp) }
{
    ifx_curves::call(op, &net.tables()[table].1, dp)
}

/// The value of a curve over an axis of as many points.
fn curve_over(net: &Network, op: CurveOp, axis: usize, table: usize, x: i64) -> i64
    requires axis { axis < length net.now.axes }
    requires table { table < length net.now.tables }
    requires lengths { length (axis_at net.now.axes axis).points ≡ length (table_at net.now.tables table).values }
    requires input { Holds (axis_at net.now.axes axis).ty x }
    ensures { result ≡ curve_value op (table_at net.now.tables table).values (position (axis_at net.now.axes axis).points (whole x)) }
{
    ifx_curves::call_int(op, &net.axes()[axis].1, &net.tables()[table].1, x)
}
