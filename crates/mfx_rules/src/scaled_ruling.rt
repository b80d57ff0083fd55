// The rule of each form with binary points: its bounds, from those of its arguments.

ghost use Rattle.std.specs.Prelude.{◌≡◌, None, Some, if◌then◌else◌, option_map};
ghost use Rattle.fx_core.specs.Arguments.{two};
ghost use Rattle.part_rules.specs.WideBounds.{exact_bounds};
ghost use Rattle.part_rules.specs.Entries.{IsSmall};
ghost use Rattle.mfx_rules.specs.ScaledCorners.{AreLow};
ghost use Rattle.mfx_rules.specs.ScaledRules.{scaled_bounds, scaled_may_divide_by_zero};

use crate::scaled_errors::error_of;
use crate::scaled_ranges::range_of;
use mfx_scaled::{Points, ScaledOp};
use part_rules::{Bounds, WideBounds, may_be_zero};

/// The bounds of a form's value: None exactly where its divisor may be 0. What the form doesn't have
/// isn't looked at.
#[tactic(auto, unfolding(crate::specs::ScaledRules::scaled_bounds))]
pub(crate) fn scaled_bounds(op: ScaledOp, p: Points, x: Bounds, y: Bounds) -> Option<WideBounds>
    requires points { AreLow p }
    requires first { IsSmall x }
    requires second { IsSmall y }
    ensures { option_map exact_bounds result
        ≡ (if scaled_may_divide_by_zero op (two x y) then None else Some (scaled_bounds op p (two x y))) }
{
    if may_divide_by_zero(op, y) {
        return None;
    }
    let range = range_of(op, p, x, y);
    Some(WideBounds {
        lo: range.lo,
        hi: range.hi,
        err: error_of(op, p, x, y),
    })
}

fn may_divide_by_zero(op: ScaledOp, y: Bounds) -> bool
    requires { IsSmall y }
    ensures { (x : Bounds) → result ≡ scaled_may_divide_by_zero op (two x y) }
{
    match op {
        ScaledOp::Div => may_be_zero(y),
        _ => false,
    }
}
