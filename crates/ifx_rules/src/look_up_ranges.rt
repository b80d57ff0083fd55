// The ranges of look-ups: the hull of their values at the ends of the range of what they read, and
// wherever they bend inside it.

ghost use Rattle.std.specs.Prelude.{◌≡◌, ◌*◌, ◌-◌, ◌&&◌, ◌≤ℤ◌, if◌then◌else◌, int_le, length, pos};
ghost use Rattle.std.specs.Int.{int_max, int_min};
ghost use Rattle.fx_core.specs.Types.{Holds};
ghost use Rattle.part_rules.specs.Entries.{IsSmall};
ghost use Rattle.ifx_search.specs.Positions.{position};
ghost use Rattle.ifx_curves.specs.Curves.{curve};
ghost use Rattle.ifx_rules.specs.LookUpRules.{curve_over, hull_at, whole_positions};

use crate::look_up_ends::{
    Bend, curve_at, curve_bend, curve_over_at, curve_over_bend, position_at, position_bend,
};
use ifx_curves::Table;
use ifx_search::Axis;
use part_rules::{Bounds, Range, Whole};

/// The range of a position.
pub(crate) fn position_range(axis: &Axis, x: Bounds) -> Range
    requires small { IsSmall x }
    requires low { Holds axis.now.ty x.lo }
    requires high { Holds axis.now.ty x.hi }
    ensures lo { result.lo ≡ (hull_at (position axis.now.points) axis.now.points x (pos 0)).lo }
    ensures hi { result.hi ≡ (hull_at (position axis.now.points) axis.now.points x (pos 0)).hi }
{
    let mut range = hull(position_at(axis, x.lo), position_at(axis, x.hi));
    for i in 0..axis.len() {
        range = joined_inside(range, x, position_bend(axis, i));
    }
    range
}

/// The range of a curve over a range of positions.
pub(crate) fn curve_range(table: &Table, position: Bounds) -> Range
    requires small { IsSmall position }
    requires low { pos 0 ≤ℤ position.lo }
    requires high { position.hi ≤ℤ pos (65536 * (length table.now.values - 1)) }
    ensures lo { result.lo ≡ (hull_at (curve table.now.values) (whole_positions (length table.now.values)) position (pos 0)).lo }
    ensures hi { result.hi ≡ (hull_at (curve table.now.values) (whole_positions (length table.now.values)) position (pos 0)).hi }
{
    let mut range = hull(curve_at(table, position.lo), curve_at(table, position.hi));
    for i in 0..table.len() {
        range = joined_inside(range, position, curve_bend(table, i));
    }
    range
}

/// The range of a curve over an axis.
pub(crate) fn curve_over_range(axis: &Axis, table: &Table, x: Bounds) -> Range
    requires lengths { length axis.now.points ≡ length table.now.values }
    requires small { IsSmall x }
    requires low { Holds axis.now.ty x.lo }
    requires high { Holds axis.now.ty x.hi }
    ensures lo { result.lo ≡ (hull_at (curve_over axis.now.points table.now.values) axis.now.points x (pos 0)).lo }
    ensures hi { result.hi ≡ (hull_at (curve_over axis.now.points table.now.values) axis.now.points x (pos 0)).hi }
{
    let mut range = hull(
        curve_over_at(axis, table, x.lo),
        curve_over_at(axis, table, x.hi),
    );
    for i in 0..axis.len() {
        range = joined_inside(range, x, curve_over_bend(axis, table, i));
    }
    range
}

/// The hull of two numbers.
pub(crate) fn hull(first: Whole, second: Whole) -> Range
    ensures lo { result.lo ≡ int_min first.number second.number }
    ensures hi { result.hi ≡ int_max first.number second.number }
{
    Range::at(first).joined(Range::at(second))
}

// The hull with the value at a bend too, where that lies inside the range of what is read.
fn joined_inside(range: Range, x: Bounds, bend: Bend) -> Range
    ensures lo { result.lo ≡ (if int_le x.lo bend.place && int_le bend.place x.hi then int_min range.lo bend.value else range.lo) }
    ensures hi { result.hi ≡ (if int_le x.lo bend.place && int_le bend.place x.hi then int_max range.hi bend.value else range.hi) }
{
    if is_inside(x, bend.place) {
        range.joined(Range::at(Whole::of_count(bend.value)))
    } else {
        range
    }
}

/// Whether a place lies inside the range of what is read.
pub(crate) fn is_inside(x: Bounds, place: i64) -> bool
    ensures { result ≡ (int_le x.lo place && int_le place x.hi) }
{
    x.lo <= place && place <= x.hi
}
