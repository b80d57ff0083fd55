// `ifx_search`: worked values of axes and of positions on them.

ghost use Rattle.std.specs.Prelude.{◌≡◌};
ghost use Rattle.fx_core.specs.declared.word_type.Ty.TheVariants.{S16};

use fx_core::Ty;
use ifx_search::{Axis, AxisFault, search};
use std::alloc::Global;

// Why an axis isn't made, where it isn't.
fn fault(made: Result<Axis, AxisFault>) -> Option<AxisFault> {
    match made {
        Ok(_) => None,
        Err(fault) => Some(fault),
    }
}

// The words of the positions of five numbers.
fn words(axis: &Axis) -> [i64; 5]
    requires { axis.now.ty ≡ S16 }
{
    [
        search(axis, -5).word(),
        search(axis, 10).word(),
        search(axis, 15).word(),
        search(axis, 30).word(),
        search(axis, 99).word(),
    ]
}

// The same on the axis 0, 10, 30.
fn words_on_three_points(alloc: Global) -> Option<[i64; 5]> {
    match Axis::new(alloc, Ty::S16, &[0, 10, 30]) {
        Ok(axis) => Some(words(&axis)),
        Err(_) => None,
    }
}

// What an axis in steps says of itself: its length, its type, its first two points and its steps.
fn seen(axis: &Axis) -> (u32, Ty, [i64; 2], Option<(i64, i64)>) {
    (
        axis.len(),
        axis.ty(),
        [axis.point(0), axis.point(1)],
        axis.spacing(),
    )
}

fn two_steps_seen() -> Option<(u32, Ty, [i64; 2], Option<(i64, i64)>)> {
    match Axis::stepped(Ty::U8, 250, 5, 2) {
        Ok(axis) => Some(seen(&axis)),
        Err(_) => None,
    }
}

#[test]
fn positions(rt: HostRuntime) {
    assert_eq!(rt;
        words_on_three_points(rt.alloc()),
        Some([0, 65_536, 81_920, 131_072, 131_072])
    );
}

#[test]
fn refused_points(rt: HostRuntime) {
    assert_eq!(rt;
        fault(Axis::new(rt.alloc(), Ty::S16, &[5])),
        Some(AxisFault::TooFew)
    );
    assert_eq!(rt;
        fault(Axis::new(rt.alloc(), Ty::S16, &[1, 1])),
        Some(AxisFault::NotRising(1))
    );
    assert_eq!(rt;
        fault(Axis::new(rt.alloc(), Ty::U8, &[0, 256])),
        Some(AxisFault::OutOfType(1))
    );
    assert_eq!(rt;
        fault(Axis::stepped(Ty::U8, 250, 5, 3)),
        Some(AxisFault::OutOfType(2))
    );
}

#[test]
fn equal_steps(rt: HostRuntime) {
    assert_eq!(rt;
        two_steps_seen(),
        Some((2, Ty::U8, [250, 255], Some((250, 5))))
    );
}
