// What the rules read of a network and of a certificate's entries.

ghost use Rattle.std.specs.Prelude.{◌≡◌, ◌<◌, ◌≤◌, IfSome, length, slice_get};
ghost use Rattle.net_model.specs.Wires.{axis_at, parts_of, place_in, point_of, table_at, wire_at};
ghost use Rattle.net_model.specs.Validity.{IsValid};
ghost use Rattle.part_rules.specs.PartRules.{bounds_read};
ghost use Rattle.cert_rules.specs.Acceptance.{part_at};
ghost use Rattle.cert_rules.specs.Certificates.{IsPart, entry_of};
ghost use Rattle.cert_rules.specs.GivenBounds.{AreAllowedReads, AreGiven, AreSized, entry_if};
ghost use Rattle.cert_rules.specs.Rules.{part_on, part_rule};

use crate::arguments::parts_read;
use ifx_curves::Table;
use ifx_search::Axis;
use net_model::{Item, Kind, Network, Part, PartNo, Role, WireNo};
use part_rules::Bounds;

/// What stands for bounds where there are none.
const NO_BOUNDS: Bounds = Bounds {
    lo: 0,
    hi: 0,
    err: 0,
};

/// The part of a number.
pub(crate) fn part_numbered(net: &Network, part: PartNo) -> Part
    requires { part.0 < length (parts_of net.now.wires) }
    ensures part { result ≡ part_at net.now part.0 }
    ensures wire { result.wire.0 < length net.now.wires }
    ensures valid { IsValid net.now }
{
    net.parts()[part.0 as usize]
}

/// The kind of a wire.
pub(crate) fn kind_at(net: &Network, wire: WireNo) -> Kind
    requires { wire.0 < length net.now.wires }
    ensures { result ≡ (wire_at net.now.wires wire.0).kind }
{
    net.wires()[wire.0 as usize].kind
}

/// What gives a wire its value.
pub(crate) fn item_at(net: &Network, wire: WireNo) -> Item
    requires { wire.0 < length net.now.wires }
    ensures { result ≡ (wire_at net.now.wires wire.0).item }
{
    net.wires()[wire.0 as usize].item
}

/// The binary point of a wire, 0 where it has none.
pub(crate) fn point_at(net: &Network, wire: WireNo) -> u8
    requires there { wire.0 < length net.now.wires }
    requires valid { IsValid net.now }
    ensures point { result ≡ point_of (wire_at net.now.wires wire.0).kind }
    ensures limit { result ≤ 15 }
{
    match kind_at(net, wire) {
        Kind::Num(_, point) => point,
        Kind::Truth | Kind::Position(_) => 0,
    }
}

/// The axis of a number.
pub(crate) fn axis_at(net: &Network, axis: u32) -> &Axis
    requires { axis < length net.now.axes }
    ensures { result.now ≡ axis_at net.now.axes axis }
{
    &net.axes()[axis as usize].1
}

/// The table of a number.
pub(crate) fn table_at(net: &Network, table: u32) -> &Table
    requires { table < length net.now.tables }
    ensures { result.now ≡ table_at net.now.tables table }
{
    &net.tables()[table as usize].1
}

/// A part of a wire.
pub(crate) fn part_on(wire: WireNo, role: Role) -> Part
    ensures { result ≡ part_on wire.0 role }
{
    Part { wire, role }
}

/// The bounds of what the rule of a part reads, in its order; no bounds behind the last.
#[derive(Clone, Copy)]
pub(crate) struct Given {
    pub first: Bounds,
    pub second: Bounds,
    pub third: Bounds,
}

/// The bounds that the rule of a part is given.
pub(crate) fn given_to(net: &Network, part: Part, all: &[Bounds]) -> Given
    requires valid { IsValid net.now }
    requires there { part.wire.0 < length net.now.wires }
    requires complete { length all.now ≡ length (parts_of net.now.wires) }
    requires allowed { AreAllowedReads net.now (part_rule net.now part).reads all.now }
    ensures given { AreGiven result (bounds_read (part_rule net.now part).reads (entry_of net.now all.now)) }
    ensures sized { AreSized net.now (part_rule net.now part).reads result }
{
    let reads = parts_read(part.wire, &item_at(net, part.wire), part.role);
    let parts = reads.as_slice();
    let first = entry_if(part_among(parts, 0), net, all);
    let second = entry_if(part_among(parts, 1), net, all);
    let third = entry_if(part_among(parts, 2), net, all);
    Given {
        first,
        second,
        third,
    }
}

fn part_among(parts: &[Part], place: usize) -> Option<Part>
    ensures { result ≡ slice_get parts.now place }
{
    match parts.get(place) {
        Some(part) => Some(*part),
        None => None,
    }
}

/// The entry of a part, where there is one, else no bounds.
fn entry_if(part: Option<Part>, net: &Network, all: &[Bounds]) -> Bounds
    requires there { IfSome part (λ p. IsPart net.now p) }
    requires complete { length all.now ≡ length (parts_of net.now.wires) }
    ensures { result ≡ entry_if net.now all.now part }
{
    match part {
        Some(part) => part_entry(net, part, all),
        None => NO_BOUNDS,
    }
}

/// The entry of a part.
fn part_entry(net: &Network, part: Part, entries: &[Bounds]) -> Bounds
    requires there { IsPart net.now part }
    requires complete { length entries.now ≡ length (parts_of net.now.wires) }
    ensures { result ≡ entry_of net.now entries.now part }
{
    let number = part_number(net, part);
    entries[number.0 as usize]
}

/// The number of a part among all parts.
fn part_number(net: &Network, part: Part) -> PartNo
    requires { IsPart net.now part }
    ensures number { result.0 ≡ place_in part.wire.0 part.role (parts_of net.now.wires) }
    ensures there { result.0 < length (parts_of net.now.wires) }
{
    match net.part_of(part.wire, part.role) {
        Some(number) => number,
        None => unreachable!(),
    }
}
