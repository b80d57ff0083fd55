// The ranges of maps over two axes: the hull of their values at the ends of both ranges and at the points
// of the axes inside them, column by column. A column is what a map has along y at one number along x, also
// between two of its own.

ghost use Rattle.std.specs.Prelude.{◌≡◌, ◌<◌, ◌&&◌, if◌then◌else◌, int_le, length, pos};
ghost use Rattle.std.specs.Int.{int_max, int_min};
ghost use Rattle.fx_fraction.specs.Fraction.{whole};
ghost use Rattle.fx_core.specs.Types.{Holds};
ghost use Rattle.part_rules.specs.Entries.{IsSmall};
ghost use Rattle.ifx_search.specs.Axes.{IsAxis, point_at};
ghost use Rattle.ifx_rules.specs.LookUpRules.{hull_at};
ghost use Rattle.ifx_rules.specs.MapRules.{both_rounded_down, hull_over, map_over};

use crate::look_up_ranges::{hull, is_inside};
use crate::map_values::map_over_at;
use ifx_maps::MapTable;
use ifx_search::Axis;
use part_rules::{Bounds, Range};

/// The range of a map over two axes.
pub(crate) fn map_over_range(ax: &Axis, ay: &Axis, m: &MapTable, x: Bounds, y: Bounds) -> Range
    requires columns { length ax.now.points ≡ m.now.nx }
    requires lines { length ay.now.points ≡ m.now.ny }
    requires small_x { IsSmall x }
    requires small_y { IsSmall y }
    requires low_x { Holds ax.now.ty x.lo }
    requires high_x { Holds ax.now.ty x.hi }
    requires low_y { Holds ay.now.ty y.lo }
    requires high_y { Holds ay.now.ty y.hi }
    ensures lo { result.lo ≡ (hull_over (map_over ax.now.points ay.now.points m.now) ax.now.points ay.now.points x y (pos 0)).lo }
    ensures hi { result.hi ≡ (hull_over (map_over ax.now.points ay.now.points m.now) ax.now.points ay.now.points x y (pos 0)).hi }
{
    let mut range = column(ax, ay, m, x.lo, y).joined(column(ax, ay, m, x.hi, y));
    for ix in 0..ax.len() {
        range = with_column(range, ax, ay, m, ix, x, y);
    }
    range
}

// The range with column `ix` too, where that stands inside the range along x.
fn with_column(
    range: Range,
    ax: &Axis,
    ay: &Axis,
    m: &MapTable,
    ix: u32,
    x: Bounds,
    y: Bounds,
) -> Range
    requires columns { length ax.now.points ≡ m.now.nx }
    requires lines { length ay.now.points ≡ m.now.ny }
    requires axis { IsAxis ax.now.ty ax.now.points }
    requires column { ix < length ax.now.points }
    requires small { IsSmall y }
    requires low { Holds ay.now.ty y.lo }
    requires high { Holds ay.now.ty y.hi }
    ensures lo { let there = point_at ax.now.points ix in
        result.lo ≡ (if int_le x.lo there && int_le there x.hi then int_min range.lo (hull_at (map_over ax.now.points ay.now.points m.now (whole there)) ay.now.points y (pos 0)).lo else range.lo) }
    ensures hi { let there = point_at ax.now.points ix in
        result.hi ≡ (if int_le x.lo there && int_le there x.hi then int_max range.hi (hull_at (map_over ax.now.points ay.now.points m.now (whole there)) ay.now.points y (pos 0)).hi else range.hi) }
{
    let there = ax.point(ix);
    if is_inside(x, there) {
        range.joined(column(ax, ay, m, there, y))
    } else {
        range
    }
}

// The range of the column at the number `x`.
fn column(ax: &Axis, ay: &Axis, m: &MapTable, x: i64, y: Bounds) -> Range
    requires columns { length ax.now.points ≡ m.now.nx }
    requires lines { length ay.now.points ≡ m.now.ny }
    requires small { IsSmall y }
    requires input { Holds ax.now.ty x }
    requires low { Holds ay.now.ty y.lo }
    requires high { Holds ay.now.ty y.hi }
    ensures lo { result.lo ≡ (hull_at (map_over ax.now.points ay.now.points m.now (whole x)) ay.now.points y (pos 0)).lo }
    ensures hi { result.hi ≡ (hull_at (map_over ax.now.points ay.now.points m.now (whole x)) ay.now.points y (pos 0)).hi }
{
    let low = map_over_at(ax, ay, m, x, y.lo);
    let high = map_over_at(ax, ay, m, x, y.hi);
    let mut range = hull(low, high);
    for iy in 0..ay.len() {
        range = with_value(range, ax, ay, m, x, iy, y);
    }
    range
}

// The range with the value of the column at line `iy` too, where that stands inside the range along y.
fn with_value(range: Range, ax: &Axis, ay: &Axis, m: &MapTable, x: i64, iy: u32, y: Bounds) -> Range
    requires columns { length ax.now.points ≡ m.now.nx }
    requires lines { length ay.now.points ≡ m.now.ny }
    requires input { Holds ax.now.ty x }
    requires axis { IsAxis ay.now.ty ay.now.points }
    requires line { iy < length ay.now.points }
    ensures lo { let there = point_at ay.now.points iy in
        result.lo ≡ (if int_le y.lo there && int_le there y.hi then int_min range.lo (both_rounded_down (map_over ax.now.points ay.now.points m.now) x there) else range.lo) }
    ensures hi { let there = point_at ay.now.points iy in
        result.hi ≡ (if int_le y.lo there && int_le there y.hi then int_max range.hi (both_rounded_down (map_over ax.now.points ay.now.points m.now) x there) else range.hi) }
{
    let there = ay.point(iy);
    if is_inside(y, there) {
        range.joined(Range::at(map_over_at(ax, ay, m, x, there)))
    } else {
        range
    }
}
