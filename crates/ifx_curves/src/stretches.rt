// Where a number or a position stands on an axis, without rounding.

ghost use Rattle.std.specs.Prelude.{◌-◌, ◌*◌, ◌<◌, ◌≤◌, ◌≤ℤ◌, ◌<ℤ◌, length, pos, suc};
ghost use Rattle.fx_fraction.specs.Fraction.{whole};
ghost use Rattle.fx_core.specs.Types.{Holds};
ghost use Rattle.ifx_search.specs.Axes.{IsAxis, point_at};
ghost use Rattle.ifx_search.specs.Positions.{position};
ghost use Rattle.ifx_curves.specs.Stretches.{EndsAt};

use crate::stretch::Stretch;
use ifx_search::{Axis, point_below};

/// The stretch up to a position on an axis of so many points: 65536 for each whole segment, and the
/// way in the next one in 1/65536. At the last point it is all of the last segment.
pub fn stretch_at(points: u32, position: i64) -> Stretch
    requires some { 2 ≤ points }
    requires few { points ≤ 4096 }
    requires low { pos 0 ≤ℤ position }
    requires high { position ≤ℤ pos (65536 * (points - 1)) }
    ensures bound { suc result.segment < points }
    ensures position { EndsAt result (whole position) }
{
    let word = position as u32;
    let segment = (word / 65536).min(points - 2);
    Stretch {
        segment,
        way: word - 65536 * segment,
        span: 65536,
    }
}

/// The stretch up to `x`, a raw count of the axis's type. Up to the first point it is nothing of the
/// first segment, and from the last point on all of the last one.
pub fn stretch_to(axis: &Axis, x: i64) -> Stretch
    requires { Holds axis.now.ty x }
    ensures bound { suc result.segment < length axis.now.points }
    ensures position { EndsAt result (position axis.now.points (whole x)) }
{
    let last = axis.len() - 1;
    if x < axis.point(0) {
        return Stretch {
            segment: 0,
            way: 0,
            span: 1,
        };
    }
    if axis.point(last) <= x {
        return Stretch {
            segment: last - 1,
            way: 1,
            span: 1,
        };
    }
    let below = point_below(axis, x);
    stretch_behind(axis, below, x)
}

// The stretch up to `x` in the segment that holds it.
fn stretch_behind(axis: &Axis, segment: u32, x: i64) -> Stretch
    requires bound { suc segment < length axis.now.points }
    requires axis { IsAxis axis.now.ty axis.now.points }
    requires low { point_at axis.now.points segment ≤ℤ x }
    requires high { x <ℤ point_at axis.now.points (suc segment) }
    ensures bound { suc result.segment < length axis.now.points }
    ensures position { EndsAt result (position axis.now.points (whole x)) }
{
    let low = axis.point(segment);
    let high = axis.point(segment + 1);
    Stretch {
        segment,
        way: x.abs_diff(low) as u32,
        span: high.abs_diff(low) as u32,
    }
}
