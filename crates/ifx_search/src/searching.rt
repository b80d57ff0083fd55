// The search for a number on an axis.

ghost use Rattle.std.specs.Prelude.{◌≡◌, ◌-◌, ◌*◌, ◌/◌, ◌^◌, ◌<◌, ◌≤◌, ◌≤ℤ◌, ◌<ℤ◌, length, suc};
ghost use Rattle.fx_core.specs.Types.{Holds};
ghost use Rattle.ifx_search.specs.Axes.{point_at};
ghost use Rattle.ifx_search.specs.Positions.{position_value, word_of};

use crate::axis::Axis;
use crate::position::Dp;

/// The position of `x`, a raw count of the axis's type: rounded downward, 0 up to the first point, and
/// the last point's number with the ratio 0 from the last point on.
pub fn search(axis: &Axis, x: i64) -> Dp
    requires { Holds axis.now.ty x }
    ensures { word_of result ≡ position_value axis.now.points x }
{
    let last = axis.len() - 1;
    if x < axis.point(0) {
        return Dp { index: 0, ratio: 0 };
    }
    if axis.point(last) <= x {
        return Dp {
            index: last as u16,
            ratio: 0,
        };
    }
    let below = point_below(axis, x);
    let low = axis.point(below);
    let high = axis.point(below + 1);
    Dp {
        index: below as u16,
        ratio: ratio(x.abs_diff(low), high.abs_diff(low)),
    }
}

/// The number of the last point at or below `x`, a raw count from the first point on and below the
/// last one.
pub fn point_below(axis: &Axis, x: i64) -> u32
    requires low { point_at axis.now.points 0 ≤ℤ x }
    requires high { x <ℤ point_at axis.now.points (length axis.now.points - 1) }
    ensures bound { suc result < length axis.now.points }
    ensures low { point_at axis.now.points result ≤ℤ x }
    ensures high { x <ℤ point_at axis.now.points (suc result) }
{
    let mut low = 0;
    let mut high = axis.len() - 1;
    while high - low > 1 {
        let middle = low + (high - low) / 2;
        if axis.point(middle) <= x {
            low = middle;
        } else {
            high = middle;
        }
    }
    low
}

// The part `way / length` of a segment in 1/65536, rounded downward.
fn ratio(way: u64, length: u64) -> u16
    requires inside { way < length }
    requires small { length < 2 ^ 17 }
    ensures { result ≡ way * 65536 / length }
{
    (way * 65536 / length) as u16
}
