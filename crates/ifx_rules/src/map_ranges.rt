// The ranges of maps: the hull of their values at the ends of both ranges and wherever a map bends inside
// them, column by column. A column is what a map has along y at one place along x, also between two of
// its own.

ghost use Rattle.std.specs.Prelude.{◌≡◌, ◌<◌, ◌*◌, ◌-◌, ◌&&◌, ◌≤ℤ◌, if◌then◌else◌, int_le, length, pos};
ghost use Rattle.std.specs.Int.{int_max, int_min};
ghost use Rattle.fx_fraction.specs.Fraction.{whole};
ghost use Rattle.part_rules.specs.Entries.{IsSmall};
ghost use Rattle.ifx_maps.specs.Surfaces.{surface};
ghost use Rattle.ifx_rules.specs.LookUpRules.{hull_at, whole_positions};
ghost use Rattle.ifx_rules.specs.MapRules.{both_rounded_down, hull_over};

use crate::look_up_ranges::{hull, is_inside};
use crate::map_values::map_at;
use ifx_maps::MapTable;
use part_rules::{Bounds, Range};

/// The range of a map over two ranges of positions.
pub(crate) fn map_range(m: &MapTable, px: Bounds, py: Bounds) -> Range
    requires small_x { IsSmall px }
    requires small_y { IsSmall py }
    requires low_x { pos 0 ≤ℤ px.lo }
    requires high_x { px.hi ≤ℤ pos (65536 * (m.now.nx - 1)) }
    requires low_y { pos 0 ≤ℤ py.lo }
    requires high_y { py.hi ≤ℤ pos (65536 * (m.now.ny - 1)) }
    ensures lo { result.lo ≡ (hull_over (surface m.now) (whole_positions m.now.nx) (whole_positions m.now.ny) px py (pos 0)).lo }
    ensures hi { result.hi ≡ (hull_over (surface m.now) (whole_positions m.now.nx) (whole_positions m.now.ny) px py (pos 0)).hi }
{
    let mut range = column(m, px.lo, py).joined(column(m, px.hi, py));
    for ix in 0..m.nx() {
        range = with_column(range, m, ix, px, py);
    }
    range
}

// The range with column `ix` too, where that stands inside the range along x.
fn with_column(range: Range, m: &MapTable, ix: u32, px: Bounds, py: Bounds) -> Range
    requires column { ix < m.now.nx }
    requires small { IsSmall py }
    requires low { pos 0 ≤ℤ py.lo }
    requires high { py.hi ≤ℤ pos (65536 * (m.now.ny - 1)) }
    ensures lo { let there = pos (65536 * ix) in
        result.lo ≡ (if int_le px.lo there && int_le there px.hi then int_min range.lo (hull_at (surface m.now (whole there)) (whole_positions m.now.ny) py (pos 0)).lo else range.lo) }
    ensures hi { let there = pos (65536 * ix) in
        result.hi ≡ (if int_le px.lo there && int_le there px.hi then int_max range.hi (hull_at (surface m.now (whole there)) (whole_positions m.now.ny) py (pos 0)).hi else range.hi) }
{
    let there = whole_position(ix);
    if is_inside(px, there) {
        range.joined(column(m, there, py))
    } else {
        range
    }
}

// The range of the column at the position `px`.
fn column(m: &MapTable, px: i64, py: Bounds) -> Range
    requires small { IsSmall py }
    requires low_x { pos 0 ≤ℤ px }
    requires high_x { px ≤ℤ pos (65536 * (m.now.nx - 1)) }
    requires low_y { pos 0 ≤ℤ py.lo }
    requires high_y { py.hi ≤ℤ pos (65536 * (m.now.ny - 1)) }
    ensures lo { result.lo ≡ (hull_at (surface m.now (whole px)) (whole_positions m.now.ny) py (pos 0)).lo }
    ensures hi { result.hi ≡ (hull_at (surface m.now (whole px)) (whole_positions m.now.ny) py (pos 0)).hi }
{
    let mut range = hull(map_at(m, px, py.lo), map_at(m, px, py.hi));
    for iy in 0..m.ny() {
        range = with_value(range, m, px, iy, py);
    }
    range
}

// The range with the value of the column at line `iy` too, where that stands inside the range along y.
fn with_value(range: Range, m: &MapTable, px: i64, iy: u32, py: Bounds) -> Range
    requires line { iy < m.now.ny }
    requires low { pos 0 ≤ℤ px }
    requires high { px ≤ℤ pos (65536 * (m.now.nx - 1)) }
    ensures lo { let there = pos (65536 * iy) in
        result.lo ≡ (if int_le py.lo there && int_le there py.hi then int_min range.lo (both_rounded_down (surface m.now) px there) else range.lo) }
    ensures hi { let there = pos (65536 * iy) in
        result.hi ≡ (if int_le py.lo there && int_le there py.hi then int_max range.hi (both_rounded_down (surface m.now) px there) else range.hi) }
{
    let there = whole_position(iy);
    if is_inside(py, there) {
        range.joined(Range::at(map_at(m, px, there)))
    } else {
        range
    }
}

// The position of point `i`.
fn whole_position(i: u32) -> i64
    ensures { result ≡ pos (65536 * i) }
{
    65536 * i64::from(i)
}
