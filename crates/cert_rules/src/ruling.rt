// The rule of each part: the bounds that it gets from the bounds of what its rule reads.

ghost use Rattle.std.specs.Prelude.{◌≡◌, ◌<◌, List, None, if◌then◌else◌, length};
ghost use Rattle.part_rules.specs.declared.bounds.Bounds.{Bounds};
ghost use Rattle.net_model.specs.Wires.{parts_of, same_role, wire_at};
ghost use Rattle.net_model.specs.Validity.{IsValid};
ghost use Rattle.part_rules.specs.Entries.{if_small};
ghost use Rattle.part_rules.specs.PartRules.{given_by};
ghost use Rattle.efx_rules.specs.StateEntries.{if_state};
ghost use Rattle.cert_rules.specs.Acceptance.{part_at};
ghost use Rattle.cert_rules.specs.Arguments.{rule_by};
ghost use Rattle.cert_rules.specs.Certificates.{entry_of};
ghost use Rattle.cert_rules.specs.GivenBounds.{AreAllowedReads, AreGiven, AreSized, if_sized};
ghost use Rattle.cert_rules.specs.Rules.{allowed_of, block_rule, part_rule};
ghost use Rattle.cert_rules.specs.Soundness.{AreAllowedFor};

use crate::arguments::keeps;
use crate::limits::allowed;
use crate::lookups::{Given, axis_at, given_to, item_at, part_numbered, point_at, table_at};
use efx_rules::{average_bounds, difference_bounds, gain_bounds, lag_bounds};
use ifx_rules::{curve_bounds, curve_over_bounds, position_bounds};
use mfx_rules::{form_bounds, operation_bounds};
use mfx_scaled::Points;
use net_model::{Block, Item, Network, Part, PartNo, Role, WireNo};
use part_rules::Bounds;

/// The bounds of a part by its rule, from an entry for each part, of which those that the rule reads are
/// allowed: None where there is no rule, as where a divisor may be 0, or where the bounds aren't allowed.
pub fn rule(net: &Network, part: PartNo, all: &[Bounds]) -> Option<Bounds>
    requires there { part.0 < length (parts_of net.now.wires) }
    requires complete { length all.now ≡ length (parts_of net.now.wires) }
    requires allowed { AreAllowedFor net.now all.now part.0 }
    ensures { result ≡ rule_by net.now part.0 (entry_of net.now all.now) }
{
    let b = proposed(net, part, all)?;
    if allowed(net, part, b) { Some(b) } else { None }
}

/// Bounds of which what is allowed is the rule of a part.
fn proposed(net: &Network, part: PartNo, all: &[Bounds]) -> Option<Bounds>
    requires there { part.0 < length (parts_of net.now.wires) }
    requires complete { length all.now ≡ length (parts_of net.now.wires) }
    requires allowed { AreAllowedFor net.now all.now part.0 }
    ensures { let p = part_at net.now part.0 in
        allowed_of net.now p result ≡ allowed_of net.now p (given_by (part_rule net.now p) (entry_of net.now all.now)) }
{
    part_bounds(net, part_numbered(net, part), all)
}

/// The same of a part as it is.
fn part_bounds(net: &Network, part: Part, all: &[Bounds]) -> Option<Bounds>
    requires valid { IsValid net.now }
    requires there { part.wire.0 < length net.now.wires }
    requires complete { length all.now ≡ length (parts_of net.now.wires) }
    requires allowed { AreAllowedReads net.now (part_rule net.now part).reads all.now }
    ensures { allowed_of net.now part result ≡ allowed_of net.now part (given_by (part_rule net.now part) (entry_of net.now all.now)) }
{
    let given = given_to(net, part, all);
    match item_at(net, part.wire) {
        Item::Input { lo, hi } => value_only(part.role, Bounds { lo, hi, err: 0 }),
        Item::Const { value } => {
            let bounds = Bounds {
                lo: value,
                hi: value,
                err: 0,
            };
            value_only(part.role, bounds)
        }
        Item::Delay { .. } => value_only(part.role, given.first),
        Item::Block(block) => block_bounds(net, part, &block, given),
    }
}

/// The bounds of a wire's value, where the part is one.
fn value_only(role: Role, bounds: Bounds) -> Option<Bounds>
    ensures { result ≡ (if same_role role Role.Value then Some bounds else None) }
{
    match role {
        Role::Value => Some(bounds),
        _ => None,
    }
}

/// What the rule of a block's part gives from the bounds of what it reads, where some part may have it.
fn block_bounds(net: &Network, part: Part, block: &Block, given: Given) -> Option<Bounds>
    requires valid { IsValid net.now }
    requires there { part.wire.0 < length net.now.wires }
    requires block { (wire_at net.now.wires part.wire.0).item ≡ Item.Block block.now }
    requires sized { AreSized net.now (block_rule net.now part.wire.0 block.now part.role).reads given }
    ensures { (known : List Bounds) → AreGiven given known →
        let r = block_rule net.now part.wire.0 block.now part.role in
        result ≡ (if r.fails known then None else if_sized part.role (r.bounds known)) }
{
    match part.role {
        Role::Value => value_bounds(net, part.wire, block, given),
        Role::Y => state_bounds(net, part.wire, block, given),
        Role::X1 | Role::X2 | Role::W => kept_bounds(keeps(block, part.role), given),
    }
}

/// The same of a block's value, one arm a family.
fn value_bounds(net: &Network, wire: WireNo, block: &Block, given: Given) -> Option<Bounds>
    requires valid { IsValid net.now }
    requires there { wire.0 < length net.now.wires }
    requires block { (wire_at net.now.wires wire.0).item ≡ Item.Block block.now }
    requires sized { AreSized net.now (block_rule net.now wire.0 block.now Role.Value).reads given }
    ensures { (known : List Bounds) → AreGiven given known →
        let r = block_rule net.now wire.0 block.now Role.Value in
        result ≡ (if r.fails known then None else if_small (r.bounds known)) }
{
    let Given {
        first,
        second,
        third,
    } = given;
    match *block {
        Block::Arith { op, sh, .. } => operation_bounds(op, sh, first, second, third),
        Block::Scaled { op, x, y, .. } => {
            let points = Points {
                a: point_at(net, x),
                b: point_at(net, y),
                c: point_at(net, wire),
            };
            form_bounds(op, points, first, second)
        }
        Block::Gain { k, .. } => gain_bounds(k, first),
        Block::Average { .. } => average_bounds(first, second),
        Block::Pt1 { .. } => efx_rules::value_bounds(first),
        Block::Dt1 { .. } => efx_rules::value_bounds(first),
        Block::Search { axis, .. } => position_bounds(axis_at(net, axis), first),
        Block::Curve { table, .. } => curve_bounds(table_at(net, table), first),
        Block::IntCurve { axis, table, .. } => {
            curve_over_bounds(axis_at(net, axis), table_at(net, table), first)
        }
    }
}

/// The same of a block's state Y.
fn state_bounds(net: &Network, wire: WireNo, block: &Block, given: Given) -> Option<Bounds>
    requires valid { IsValid net.now }
    requires there { wire.0 < length net.now.wires }
    requires block { (wire_at net.now.wires wire.0).item ≡ Item.Block block.now }
    requires sized { AreSized net.now (block_rule net.now wire.0 block.now Role.Y).reads given }
    ensures { (known : List Bounds) → AreGiven given known →
        let r = block_rule net.now wire.0 block.now Role.Y in
        result ≡ (if r.fails known then None else if_state (r.bounds known)) }
{
    let Given {
        first,
        second,
        third,
    } = given;
    match *block {
        Block::Pt1 { teq, k, .. } => lag_bounds(teq, k, first, second),
        Block::Dt1 { teq, k, .. } => difference_bounds(teq, k, first, second, third),
        _ => None,
    }
}

/// The bounds of what a block keeps as it is, where it keeps it.
fn kept_bounds(keeps: bool, given: Given) -> Option<Bounds>
    ensures { result ≡ (if keeps then Some given.first else None) }
{
    if keeps { Some(given.first) } else { None }
}
