// Which bounds a state may have.

ghost use Rattle.std.specs.Prelude.{◌≡◌};
ghost use Rattle.part_rules.specs.WideBounds.{exact_bounds};
ghost use Rattle.efx_rules.specs.StateEntries.{if_state};

use part_rules::{Bounds, WideBounds};

/// The least and the greatest state, and what a state's error has to be below, in the units of errors.
const LEAST: i128 = -(1 << 47);

const GREATEST: i128 = (1 << 47) - 1;

const ERROR_CAP: i128 = 1 << 56;

/// Bounds, where some state may have them.
#[tactic(auto, unfolding(crate::specs::StateEntries::is_state))]
pub(crate) fn narrowed_state(b: WideBounds) -> Option<Bounds>
    ensures { result ≡ if_state (exact_bounds b) }
{
    if LEAST <= b.lo && b.lo <= b.hi && b.hi <= GREATEST && 0 <= b.err && b.err < ERROR_CAP {
        Some(Bounds {
            lo: b.lo as i64,
            hi: b.hi as i64,
            err: b.err as i64,
        })
    } else {
        None
    }
}
