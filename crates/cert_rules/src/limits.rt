// Which bounds are allowed for a part.

ghost use Rattle.std.specs.Prelude.{◌≡◌, ◌<◌, ◌&&◌, length, int_le, int_lt};
ghost use Rattle.net_model.specs.Wires.{kind_greatest, kind_least, parts_of};
ghost use Rattle.net_model.specs.Validity.{IsValid};
ghost use Rattle.cert_rules.specs.Rules.{cap_of_role, greatest_of_part, holder, is_allowed, least_of_part};
ghost use Rattle.cert_rules.specs.Acceptance.{part_at};

use crate::arguments::kept_wire;
use crate::lookups::{item_at, kind_at, part_numbered};
use net_model::{Item, Kind, Network, Part, PartNo, Role, WireNo, last_position};
use part_rules::Bounds;

/// The least and the greatest value of a part.
#[derive(Clone, Copy)]
struct Ends {
    least: i64,
    greatest: i64,
}

/// Those of states.
const ENDS_OF_STATES: Ends = Ends {
    least: -(1 << 47),
    greatest: (1 << 47) - 1,
};

/// Whether bounds are allowed for a part: both ends of the range lie between the ends of the part, and the
/// error is below its cap.
pub fn allowed(net: &Network, part: PartNo, b: Bounds) -> bool
    requires { part.0 < length (parts_of net.now.wires) }
    ensures { result ≡ is_allowed net.now (part_at net.now part.0) b }
{
    let part = part_numbered(net, part);
    let ends = ends_of_part(net, part);
    is_inside(ends.least, ends.greatest, cap_of_role(part.role), b)
}

/// The ends of a part.
fn ends_of_part(net: &Network, part: Part) -> Ends
    requires valid { IsValid net.now }
    requires there { part.wire.0 < length net.now.wires }
    ensures least { result.least ≡ least_of_part net.now part }
    ensures greatest { result.greatest ≡ greatest_of_part net.now part }
{
    match part.role {
        Role::Y => ENDS_OF_STATES,
        _ => ends_of_kind(net, kind_at(net, holder(net, part))),
    }
}

/// The wire whose values a part holds: for what a block keeps of earlier rows that of its input, else the
/// part's own.
fn holder(net: &Network, part: Part) -> WireNo
    requires valid { IsValid net.now }
    requires there { part.wire.0 < length net.now.wires }
    ensures wire { result.0 ≡ holder net.now part }
    ensures there { result.0 < length net.now.wires }
{
    match part.role {
        Role::Y | Role::Value => part.wire,
        Role::X1 | Role::X2 | Role::W => match item_at(net, part.wire) {
            Item::Block(block) => kept_wire(part.wire, &block),
            _ => part.wire,
        },
    }
}

fn ends_of_kind(net: &Network, kind: Kind) -> Ends
    ensures least { result.least ≡ kind_least net.now.axes kind }
    ensures greatest { result.greatest ≡ kind_greatest net.now.axes kind }
{
    match kind {
        Kind::Num(ty, _) => Ends {
            least: ty.least(),
            greatest: ty.greatest(),
        },
        Kind::Truth => Ends {
            least: 0,
            greatest: 1,
        },
        Kind::Position(axis) => Ends {
            least: 0,
            greatest: i64::from(last_position(net.axes(), axis)),
        },
    }
}

/// What the error of a part has to be below, in units of 1/65536 of a raw count.
fn cap_of_role(role: Role) -> i64
    ensures { result ≡ cap_of_role role }
{
    match role {
        Role::Y => 1 << 56,
        _ => 1 << 40,
    }
}

fn is_inside(least: i64, greatest: i64, cap: i64, b: Bounds) -> bool
    ensures { result
        ≡ ((int_le least b.lo && int_le b.lo greatest) && (int_le least b.hi && int_le b.hi greatest) && int_lt b.err cap) }
{
    are_between(least, greatest, b.lo, b.hi) && b.err < cap
}

fn are_between(least: i64, greatest: i64, first: i64, second: i64) -> bool
    ensures { result
        ≡ ((int_le least first && int_le first greatest) && (int_le least second && int_le second greatest)) }
{
    is_between(least, greatest, first) && is_between(least, greatest, second)
}

fn is_between(least: i64, greatest: i64, number: i64) -> bool
    ensures { result ≡ (int_le least number && int_le number greatest) }
{
    least <= number && number <= greatest
}
