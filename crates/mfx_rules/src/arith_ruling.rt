// The rule of each operation of arithmetic: its bounds, from those of its arguments.

ghost use Rattle.std.specs.Prelude.{◌≡◌, ◌≤◌, None, Some, IsTrue, if◌then◌else◌, option_map};
ghost use Rattle.fx_core.specs.Arguments.{three};
ghost use Rattle.mfx_arith.specs.Operations.{is_smooth_operation};
ghost use Rattle.mfx_rules.specs.ArithRules.{arith_bounds, arith_may_divide_by_zero};
ghost use Rattle.part_rules.specs.WideBounds.{exact_bounds};
ghost use Rattle.part_rules.specs.Entries.{IsSmall};

use crate::arith_errors::error_of;
use crate::arith_ranges::range_of;
use mfx_arith::ArithOp;
use part_rules::{Bounds, WideBounds, may_be_zero};

/// The bounds of an operation's value: None exactly where a divisor may be 0. What the operation doesn't
/// have isn't looked at.
#[tactic(auto, unfolding(crate::specs::ArithRules::arith_bounds))]
pub(crate) fn arith_bounds(
    op: ArithOp,
    shift: u8,
    x: Bounds,
    y: Bounds,
    z: Bounds,
) -> Option<WideBounds>
    requires rule { IsTrue (is_smooth_operation op) }
    requires shift { shift ≤ 15 }
    requires first { IsSmall x }
    requires second { IsSmall y }
    requires third { IsSmall z }
    ensures { option_map exact_bounds result
        ≡ (if arith_may_divide_by_zero op (three x y z) then None else Some (arith_bounds op shift (three x y z))) }
{
    if may_divide_by_zero(op, y, z) {
        return None;
    }
    let range = range_of(op, shift, x, y, z);
    Some(WideBounds {
        lo: range.lo,
        hi: range.hi,
        err: error_of(op, shift, x, y, z),
    })
}

fn may_divide_by_zero(op: ArithOp, y: Bounds, z: Bounds) -> bool
    requires second { IsSmall y }
    requires third { IsSmall z }
    ensures { (x : Bounds) → result ≡ arith_may_divide_by_zero op (three x y z) }
{
    match op {
        ArithOp::Div | ArithOp::DivShLeft => may_be_zero(y),
        ArithOp::MulDiv => may_be_zero(z),
        _ => false,
    }
}
