// Bounds on their way through a rule, and which of them some part may have.

ghost use Rattle.std.specs.Prelude.{◌≡◌};
ghost use Rattle.part_rules.specs.Entries.{if_small};
ghost use Rattle.part_rules.specs.WideBounds.{exact_bounds};

use crate::bounds::Bounds;

/// The least and the greatest number of all types, and what every error has to be below.
const LEAST: i128 = -(1 << 31);

const GREATEST: i128 = (1 << 32) - 1;

const ERROR_CAP: i128 = 1 << 40;

/// Bounds before it is asked whether they are allowed: they may be wider than any bounds of a part.
#[derive(Clone, Copy)]
pub struct WideBounds {
    pub lo: i128,
    pub hi: i128,
    pub err: i128,
}

/// Bounds, where some part may have them.
#[tactic(auto, unfolding(crate::specs::Entries::is_small))]
pub fn narrowed(b: WideBounds) -> Option<Bounds>
    ensures { result ≡ if_small (exact_bounds b) }
{
    if LEAST <= b.lo && b.lo <= b.hi && b.hi <= GREATEST && 0 <= b.err && b.err < ERROR_CAP {
        Some(Bounds {
            lo: b.lo as i64,
            hi: b.hi as i64,
            err: b.err as i64,
        })
    } else {
        None
    }
}
