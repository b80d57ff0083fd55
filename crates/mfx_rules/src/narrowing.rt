// The bounds of an operation of arithmetic, and of a form with binary points, as bounds of a part.

ghost use Rattle.std.specs.Prelude.{◌≡◌, ◌≤◌, IsTrue, None, if◌then◌else◌};
ghost use Rattle.fx_core.specs.Arguments.{three, two};
ghost use Rattle.mfx_arith.specs.Operations.{is_smooth_operation};
ghost use Rattle.mfx_rules.specs.ArithRules.{arith_bounds, arith_may_divide_by_zero};
ghost use Rattle.part_rules.specs.Entries.{IsSmall, if_small};
ghost use Rattle.mfx_rules.specs.ScaledCorners.{AreLow};
ghost use Rattle.mfx_rules.specs.ScaledRules.{scaled_bounds, scaled_may_divide_by_zero};

use crate::arith_ruling::arith_bounds;
use crate::scaled_ruling::scaled_bounds;
use mfx_arith::ArithOp;
use mfx_scaled::{Points, ScaledOp};
use part_rules::{Bounds, narrowed};

/// The bounds of an operation's value: None where its divisor may be 0, or where no part may have them.
pub fn operation_bounds(op: ArithOp, shift: u8, x: Bounds, y: Bounds, z: Bounds) -> Option<Bounds>
    requires rule { IsTrue (is_smooth_operation op) }
    requires shift { shift ≤ 15 }
    requires first { IsSmall x }
    requires second { IsSmall y }
    requires third { IsSmall z }
    ensures { result
        ≡ (if arith_may_divide_by_zero op (three x y z) then None else if_small (arith_bounds op shift (three x y z))) }
{
    let wide = arith_bounds(op, shift, x, y, z)?;
    narrowed(wide)
}

/// The bounds of a form's value: None where its divisor may be 0, or where no part may have them.
pub fn form_bounds(op: ScaledOp, p: Points, x: Bounds, y: Bounds) -> Option<Bounds>
    requires points { AreLow p }
    requires first { IsSmall x }
    requires second { IsSmall y }
    ensures { result
        ≡ (if scaled_may_divide_by_zero op (two x y) then None else if_small (scaled_bounds op p (two x y))) }
{
    let wide = scaled_bounds(op, p, x, y)?;
    narrowed(wide)
}
