// `efx_switch`: worked values of the switches, row by row.

ghost use Rattle.fx_core.specs.declared.word_type.Ty.TheVariants.{S16};
ghost use Rattle.efx_switch.specs.Switching.{AreEnds};

use efx_switch::{Debounce, Edge, EdgeOp, Hyst, HystOp};
use fx_core::Ty;

// The values of a hysteresis at 110 and just above it, and at 90 and just below it.
fn hysteresis_values(op: HystOp, p: i64, q: i64) -> (i64, i64, i64, i64)
    requires { AreEnds op S16 p q }
{
    let mut hysteresis = Hyst::new(op, Ty::S16, p, q);
    (
        hysteresis.step(110),
        hysteresis.step(111),
        hysteresis.step(90),
        hysteresis.step(89),
    )
}

// The values of an input that takes two rows to rise and one to fall, at 1, 1, 0 and 1.
fn debounced() -> (i64, i64, i64, i64) {
    let mut block = Debounce::new(2, 1);
    (block.step(1), block.step(1), block.step(0), block.step(1))
}

// The same after a row of 1, when it starts anew.
fn debounced_anew() -> (i64, i64) {
    let mut block = Debounce::new(2, 1);
    block.step(1);
    block.reset();
    (block.step(1), block.step(1))
}

// The edges of an input that is 1, 1 and 0, and 0 in the first row of a new start.
fn edges(op: EdgeOp) -> (i64, i64, i64, i64) {
    let mut edge = Edge::new(op);
    let first = edge.step(1);
    let second = edge.step(1);
    let third = edge.step(0);
    edge.reset();
    (first, second, third, edge.step(0))
}

#[test]
fn hysteresis(rt: HostRuntime) {
    assert_eq!(rt; hysteresis_values(HystOp::LeftRight, 90, 110), (0, 1, 1, 0));
    assert_eq!(rt;
        hysteresis_values(HystOp::CenterHalfDelta, 100, 10),
        (0, 1, 1, 0)
    );
    assert_eq!(rt; hysteresis_values(HystOp::LeftDelta, 90, 20), (0, 1, 1, 0));
    assert_eq!(rt;
        hysteresis_values(HystOp::DeltaRight, 20, 110),
        (0, 1, 1, 0)
    );
}

#[test]
fn debounce(rt: HostRuntime) {
    assert_eq!(rt; debounced(), (0, 1, 0, 0));
    assert_eq!(rt; debounced_anew(), (0, 1));
}

#[test]
fn changes(rt: HostRuntime) {
    assert_eq!(rt; edges(EdgeOp::Rising), (1, 0, 0, 0));
    assert_eq!(rt; edges(EdgeOp::Falling), (0, 0, 1, 0));
    assert_eq!(rt; edges(EdgeOp::Both), (1, 0, 1, 0));
}
