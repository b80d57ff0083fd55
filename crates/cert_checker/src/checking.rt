// Which part of a certificate fails first.

ghost use Rattle.std.specs.Prelude.{◌≡◌, ◌<◌, ◌&&◌, None, int_le, length, option_map, pos};
ghost use Rattle.net_model.specs.Wires.{parts_of, wire_at};
ghost use Rattle.net_model.specs.Validity.{IsValid};
ghost use Rattle.cert_rules.specs.Acceptance.{AreAllowed, first_failing, first_rejected, first_value, is_allowed_at, is_inductive_at, lies_inside, part_at, start_of, starts_inside};
ghost use Rattle.cert_rules.specs.Certificates.{entry_of};
ghost use Rattle.cert_rules.specs.Rules.{rule_of};

use crate::parts::part_at;
use cert_rules::{allowed, rule};
use net_model::{Item, Network, PartNo, Role};
use part_rules::Bounds;

/// The first part that a certificate with an entry for each part fails: the first whose entry isn't allowed;
/// where all are allowed, the first whose entry is narrower than its rule gives. None where it is accepted.
pub(crate) fn rejected_part(net: &Network, entries: &[Bounds]) -> Option<PartNo>
    requires { length entries.now ≡ length (parts_of net.now.wires) }
    ensures first { option_map (λ p. p.0) result ≡ first_rejected net.now entries.now }
    ensures valid { IsValid net.now }
{
    match first_disallowed(net, entries) {
        Some(part) => Some(part),
        None => first_narrow(net, entries),
    }
}

/// The first part whose entry isn't allowed: its bounds aren't allowed for the part, its range is empty or its
/// error is negative. None where all are allowed, as `rule` wants them.
pub fn first_disallowed(net: &Network, entries: &[Bounds]) -> Option<PartNo>
    requires { length entries.now ≡ length (parts_of net.now.wires) }
    ensures allowed { result ≡ None → AreAllowed net.now entries.now }
    ensures first { option_map (λ p. p.0) result
        ≡ first_failing (is_allowed_at net.now entries.now) 0 (length (parts_of net.now.wires)) }
    ensures valid { IsValid net.now }
{
    for k in 0..part_count(net) {
        if !is_allowed_at(net, PartNo(k), entries) {
            return Some(PartNo(k));
        }
    }
    None
}

fn first_narrow(net: &Network, entries: &[Bounds]) -> Option<PartNo>
    requires complete { length entries.now ≡ length (parts_of net.now.wires) }
    requires allowed { AreAllowed net.now entries.now }
    ensures { option_map (λ p. p.0) result
        ≡ first_failing (is_inductive_at net.now entries.now) 0 (length (parts_of net.now.wires)) }
{
    for k in 0..part_count(net) {
        if !is_inductive(net, PartNo(k), entries) {
            return Some(PartNo(k));
        }
    }
    None
}

/// How many parts there are: a valid network has so few that their numbers fit.
#[tactic(auto, using(cert_rules::proofs::EntryFacts::count_fits))]
fn part_count(net: &Network) -> u32
    ensures count { result ≡ length (parts_of net.now.wires) }
    ensures valid { IsValid net.now }
{
    net.parts().len() as u32
}

/// Whether a part's entry is allowed: its bounds are, its range isn't empty and its error isn't negative.
fn is_allowed_at(net: &Network, part: PartNo, entries: &[Bounds]) -> bool
    requires there { part.0 < length (parts_of net.now.wires) }
    requires complete { length entries.now ≡ length (parts_of net.now.wires) }
    ensures { result ≡ is_allowed_at net.now entries.now part.0 }
{
    let entry = entries[part.0 as usize];
    allowed(net, part, entry) && is_proper(entry)
}

/// Whether a range isn't empty and an error isn't negative.
fn is_proper(b: Bounds) -> bool
    ensures { result ≡ (int_le b.lo b.hi && int_le (pos 0) b.err) }
{
    b.lo <= b.hi && 0 <= b.err
}

/// Whether a part starts within its entry, where it starts from a value of its own, and its rule gives no
/// more than its entry.
fn is_inductive(net: &Network, part: PartNo, entries: &[Bounds]) -> bool
    requires there { part.0 < length (parts_of net.now.wires) }
    requires complete { length entries.now ≡ length (parts_of net.now.wires) }
    requires allowed { AreAllowed net.now entries.now }
    ensures { result ≡ is_inductive_at net.now entries.now part.0 }
{
    let entry = entries[part.0 as usize];
    starts_inside(start_of_part(net, part), entry) && keeps_to(net, part, entries, entry)
}

/// The value from which a part starts, where it starts from one.
fn start_of_part(net: &Network, part: PartNo) -> Option<i64>
    requires { part.0 < length (parts_of net.now.wires) }
    ensures { let p = part_at net.now part.0 in
        result ≡ start_of (wire_at net.now.wires p.wire.0).item p.role }
{
    let part = part_at(net, part.0 as usize);
    start_of(net.wires()[part.wire.0 as usize].item, part.role)
}

/// The value from which a part of an item starts: what a block keeps starts from 0.
fn start_of(item: Item, role: Role) -> Option<i64>
    ensures { result ≡ start_of item role }
{
    match role {
        Role::Value => first_value(item),
        _ => Some(0),
    }
}

/// The value from which a wire starts: a delay from its initial one.
fn first_value(item: Item) -> Option<i64>
    ensures { result ≡ first_value item }
{
    match item {
        Item::Delay { init, .. } => Some(init),
        _ => None,
    }
}

/// Whether a value, where there is one, lies in an entry's range.
fn starts_inside(start: Option<i64>, entry: Bounds) -> bool
    ensures { result ≡ starts_inside start entry }
{
    match start {
        Some(value) => entry.lo <= value && value <= entry.hi,
        None => true,
    }
}

/// Whether a part's rule gives no more than this entry.
fn keeps_to(net: &Network, part: PartNo, entries: &[Bounds], entry: Bounds) -> bool
    requires there { part.0 < length (parts_of net.now.wires) }
    requires complete { length entries.now ≡ length (parts_of net.now.wires) }
    requires allowed { AreAllowed net.now entries.now }
    ensures { result ≡ lies_inside (rule_of net.now (part_at net.now part.0) (entry_of net.now entries.now)) entry }
{
    match rule(net, part, entries) {
        Some(given) => holds_within(entry, given),
        None => false,
    }
}

/// Whether bounds lie within an entry.
fn holds_within(entry: Bounds, given: Bounds) -> bool
    ensures { result ≡ (int_le entry.lo given.lo && int_le given.hi entry.hi && int_le given.err entry.err) }
{
    entry.lo <= given.lo && given.hi <= entry.hi && given.err <= entry.err
}
