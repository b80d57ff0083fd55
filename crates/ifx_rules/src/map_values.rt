// The values of maps at whole numbers, rounded downward.

ghost use Rattle.std.specs.Prelude.{◌≡◌, ◌*◌, ◌-◌, ◌≤ℤ◌, length, pos};
ghost use Rattle.fx_core.specs.Types.{Holds};
ghost use Rattle.ifx_maps.specs.Surfaces.{surface};
ghost use Rattle.ifx_rules.specs.MapRules.{both_rounded_down, map_over};

use ifx_maps::{MapOp, MapTable, call, call_int};
use ifx_search::Axis;
use part_rules::Whole;

/// The value of a map at two positions.
pub(crate) fn map_at(m: &MapTable, px: i64, py: i64) -> Whole
    requires low_x { pos 0 ≤ℤ px }
    requires high_x { px ≤ℤ pos (65536 * (m.now.nx - 1)) }
    requires low_y { pos 0 ≤ℤ py }
    requires high_y { py ≤ℤ pos (65536 * (m.now.ny - 1)) }
    ensures { result.number ≡ both_rounded_down (surface m.now) px py }
{
    Whole::of_count(call(MapOp::Ipo, m, px, py))
}

/// The value of a map over two axes at two numbers.
pub(crate) fn map_over_at(ax: &Axis, ay: &Axis, m: &MapTable, x: i64, y: i64) -> Whole
    requires columns { length ax.now.points ≡ m.now.nx }
    requires lines { length ay.now.points ≡ m.now.ny }
    requires input_x { Holds ax.now.ty x }
    requires input_y { Holds ay.now.ty y }
    ensures { result.number ≡ both_rounded_down (map_over ax.now.points ay.now.points m.now) x y }
{
    Whole::of_count(call_int(MapOp::Ipo, ax, ay, m, x, y))
}
