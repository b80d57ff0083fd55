// The bounds of look-ups, as bounds of a part.

ghost use Rattle.std.specs.Prelude.{◌≡◌, ◌*◌, ◌-◌, ◌≤ℤ◌, length, pos};
ghost use Rattle.fx_core.specs.Types.{Holds};
ghost use Rattle.part_rules.specs.Entries.{IsSmall, if_small};
ghost use Rattle.fx_core.specs.Arguments.{two};
ghost use Rattle.ifx_rules.specs.LookUpRules.{curve_bounds, curve_over_bounds, position_bounds};
ghost use Rattle.ifx_rules.specs.MapRules.{map_bounds, map_over_bounds};

use crate::look_up_errors::{curve_error, curve_over_error, position_error};
use crate::look_up_ranges::{curve_over_range, curve_range, position_range};
use crate::map_errors::{map_error, map_over_error};
use crate::map_over_ranges::map_over_range;
use crate::map_ranges::map_range;
use ifx_curves::Table;
use ifx_maps::MapTable;
use ifx_search::Axis;
use part_rules::{Bounds, WideBounds, narrowed};

/// The bounds of a position on `axis`, from those of the number `x` that is searched for, whose range
/// lies in the axis's type: None where no part may have them.
#[tactic(auto, unfolding(crate::specs::LookUpRules::position_bounds))]
pub fn position_bounds(axis: &Axis, x: Bounds) -> Option<Bounds>
    requires small { IsSmall x }
    requires low { Holds axis.now.ty x.lo }
    requires high { Holds axis.now.ty x.hi }
    ensures { result ≡ if_small (position_bounds axis.now.points (λ p. x)) }
{
    let range = position_range(axis, x);
    narrowed(WideBounds {
        lo: range.lo,
        hi: range.hi,
        err: position_error(axis, x),
    })
}

/// The bounds of a curve, from those of the position, whose range lies on an axis of as many points
/// as the table has values: None where no part may have them.
#[tactic(auto, unfolding(crate::specs::LookUpRules::curve_bounds))]
pub fn curve_bounds(table: &Table, position: Bounds) -> Option<Bounds>
    requires small { IsSmall position }
    requires low { pos 0 ≤ℤ position.lo }
    requires high { position.hi ≤ℤ pos (65536 * (length table.now.values - 1)) }
    ensures { result ≡ if_small (curve_bounds table.now.values (λ p. position)) }
{
    let range = curve_range(table, position);
    narrowed(WideBounds {
        lo: range.lo,
        hi: range.hi,
        err: curve_error(table, position),
    })
}

/// The bounds of a curve over `axis`, from those of its input `x`, whose range lies in the axis's
/// type: None where no part may have them.
#[tactic(auto, unfolding(crate::specs::LookUpRules::curve_over_bounds))]
pub fn curve_over_bounds(axis: &Axis, table: &Table, x: Bounds) -> Option<Bounds>
    requires lengths { length axis.now.points ≡ length table.now.values }
    requires small { IsSmall x }
    requires low { Holds axis.now.ty x.lo }
    requires high { Holds axis.now.ty x.hi }
    ensures { result ≡ if_small (curve_over_bounds axis.now.points table.now.values (λ p. x)) }
{
    let range = curve_over_range(axis, table, x);
    narrowed(WideBounds {
        lo: range.lo,
        hi: range.hi,
        err: curve_over_error(axis, table, x),
    })
}

/// The bounds of a map, from those of its two positions, whose ranges lie on axes of as many points as
/// the map has columns and lines: None where no part may have them.
#[tactic(auto, unfolding(crate::specs::MapRules::map_bounds))]
pub fn map_bounds(m: &MapTable, px: Bounds, py: Bounds) -> Option<Bounds>
    requires small_x { IsSmall px }
    requires small_y { IsSmall py }
    requires low_x { pos 0 ≤ℤ px.lo }
    requires high_x { px.hi ≤ℤ pos (65536 * (m.now.nx - 1)) }
    requires low_y { pos 0 ≤ℤ py.lo }
    requires high_y { py.hi ≤ℤ pos (65536 * (m.now.ny - 1)) }
    ensures { result ≡ if_small (map_bounds m.now (two px py)) }
{
    let range = map_range(m, px, py);
    narrowed(WideBounds {
        lo: range.lo,
        hi: range.hi,
        err: map_error(m, px, py),
    })
}

/// The bounds of a map over the axes `ax` and `ay`, from those of its inputs `x` and `y`, whose ranges
/// lie in the types of these: None where no part may have them.
#[tactic(auto, unfolding(crate::specs::MapRules::map_over_bounds))]
pub fn map_over_bounds(ax: &Axis, ay: &Axis, m: &MapTable, x: Bounds, y: Bounds) -> Option<Bounds>
    requires columns { length ax.now.points ≡ m.now.nx }
    requires lines { length ay.now.points ≡ m.now.ny }
    requires small_x { IsSmall x }
    requires small_y { IsSmall y }
    requires low_x { Holds ax.now.ty x.lo }
    requires high_x { Holds ax.now.ty x.hi }
    requires low_y { Holds ay.now.ty y.lo }
    requires high_y { Holds ay.now.ty y.hi }
    ensures { result ≡ if_small (map_over_bounds ax.now.points ay.now.points m.now (two x y)) }
{
    let range = map_over_range(ax, ay, m, x, y);
    narrowed(WideBounds {
        lo: range.lo,
        hi: range.hi,
        err: map_over_error(ax, ay, m, x, y),
    })
}
