// Which parts the rule of a part reads.

ghost use Rattle.std.specs.Prelude.{◌≡◌, ◌<◌, ℕ, ℤ, [], ◌∷◌, length, map, slice_get};
ghost use Rattle.std.specs.List.{list_any};
ghost use Rattle.net_model.specs.Wires.{NetData, block_roles, has_role, is_part, parts_of, same_role};
ghost use Rattle.net_model.specs.BlockForms.{form_of};
ghost use Rattle.cert_rules.specs.Arguments.{RulesReadTheirArguments, read_by, reads_at};
ghost use Rattle.cert_rules.specs.GivenBounds.{parts_in, value_part};
ghost use Rattle.cert_rules.specs.Rules.{block_rule, item_rule, kept_reading, kept_rule_of, kept_wire, state_rule_of, value_rule_of};

use crate::lookups::{item_at, part_numbered, part_on};
use net_model::{Block, Few, Item, Network, Part, PartNo, Role, WireNo, form_of};

/// The part of number `i`, from 0, among those whose bounds a part's rule reads, in the order of the network
/// and each once: None where the rule reads no more than `i`.
pub fn argument(net: &Network, part: PartNo, i: u32) -> Option<PartNo>
    requires { part.0 < length (parts_of net.now.wires) }
    ensures { result ≡ slice_get (read_by net.now part.0) i }
{
    let mut left = i;
    for k in 0..net.parts().len() {
        let candidate = PartNo(k as u32);
        if reads_at(net, part, candidate) {
            if left == 0 {
                return Some(candidate);
            }
            left -= 1;
        }
    }
    None
}

/// Does nothing: its clause says that the rule of a part depends on the bounds of its arguments alone.
pub fn rules_read_their_arguments()
    ensures { RulesReadTheirArguments }
{}

fn reads_at(net: &Network, part: PartNo, other: PartNo) -> bool
    requires part { part.0 < length (parts_of net.now.wires) }
    requires other { other.0 < length (parts_of net.now.wires) }
    ensures { result ≡ reads_at net.now part.0 other.0 }
{
    let part = part_numbered(net, part);
    let reads = parts_read(part.wire, &item_at(net, part.wire), part.role);
    is_among(reads.as_slice(), part_numbered(net, other))
}

fn is_among(parts: &[Part], other: Part) -> bool
    ensures { result ≡ list_any (is_part other.wire.0 other.role) parts.now }
{
    parts.iter().any(|part| part.wire.0 == other.wire.0 && same_role(part.role, other.role))
}

fn same_role(one: Role, other: Role) -> bool
    ensures { result ≡ same_role one other }
{
    one == other
}

/// The parts that the rule of a part reads, in its order: here by the wire, what it has, and the part's role.
pub(crate) fn parts_read(wire: WireNo, item: &Item, role: Role) -> Few<Part>
    ensures { (net : NetData) → result ≡ parts_in (item_rule net wire.0 item.now role).reads }
{
    match *item {
        Item::Input { .. } | Item::Const { .. } => none(),
        Item::Delay { source, .. } => source_read(source, role),
        Item::Block(block) => block_reads(wire, &block, role),
    }
}

/// Of a delay: its source.
fn source_read(source: WireNo, role: Role) -> Few<Part>
    ensures { (net : NetData) (i : ℕ) (init : ℤ) → result ≡ parts_in (item_rule net i (Item.Delay init source) role).reads }
{
    match role {
        Role::Value => one(part_on(source, Role::Value)),
        _ => none(),
    }
}

/// Of a block on a wire.
#[tactic(auto, unfolding(crate::specs::Rules::block_rule))]
fn block_reads(wire: WireNo, block: &Block, role: Role) -> Few<Part>
    ensures { (net : NetData) → result ≡ parts_in (block_rule net wire.0 block.now role).reads }
{
    match role {
        Role::Value => value_reads(wire, block),
        Role::Y => state_reads(wire, block),
        Role::X1 | Role::X2 | Role::W => kept_reads(wire, block, role),
    }
}

/// Of a block's value: the values of the wires that the block reads, where it has no state.
fn value_reads(wire: WireNo, block: &Block) -> Few<Part>
    ensures { (net : NetData) → result ≡ parts_in (value_rule_of net wire.0 block.now).reads }
{
    match *block {
        Block::Pt1 { .. } | Block::Dt1 { .. } => one(part_on(wire, Role::Y)),
        Block::Average { x, .. } => two(part_on(x, Role::Value), part_on(wire, Role::W)),
        _ => arguments_read(block),
    }
}

/// Of a block's state Y.
fn state_reads(wire: WireNo, block: &Block) -> Few<Part>
    ensures { result ≡ parts_in (state_rule_of wire.0 block.now).reads }
{
    let state = part_on(wire, Role::Y);
    let last = part_on(wire, Role::X1);
    match *block {
        Block::Pt1 { .. } => two(state, last),
        Block::Dt1 {
            second: true,
            x,
            ..
        } => three(state, part_on(x, Role::Value), last),
        Block::Dt1 { second: false, .. } => three(state, last, part_on(wire, Role::X2)),
        _ => none(),
    }
}

/// Of what a block keeps of earlier rows.
fn kept_reads(wire: WireNo, block: &Block, role: Role) -> Few<Part>
    ensures { result ≡ parts_in (kept_rule_of wire.0 block.now role).reads }
{
    if keeps(block, role) {
        one(kept_part(wire, block, role))
    } else {
        none()
    }
}

fn kept_part(wire: WireNo, block: &Block, role: Role) -> Part
    ensures { result ≡ (kept_reading wire.0 block.now role).part }
{
    match role {
        Role::X2 => part_on(wire, Role::X1),
        _ => part_on(kept_wire(wire, block), Role::Value),
    }
}

/// Whether a block has a part of a role.
pub(crate) fn keeps(block: &Block, role: Role) -> bool
    ensures { result ≡ has_role role (block_roles block.now) }
{
    has_role(block.roles(), role)
}

fn has_role(roles: &[Role], role: Role) -> bool
    ensures { result ≡ list_any (λ r. same_role r role) roles.now }
{
    roles.iter().any(|other| same_role(*other, role))
}

/// The input of a block that keeps inputs, else the block's own wire.
pub(crate) fn kept_wire(wire: WireNo, block: &Block) -> WireNo
    ensures { result.0 ≡ kept_wire wire.0 block.now }
{
    match *block {
        Block::Pt1 { x, .. } | Block::Dt1 { x, .. } | Block::Average { x, .. } => x,
        _ => wire,
    }
}

/// The values of the wires that a block reads.
fn arguments_read(block: &Block) -> Few<Part>
    ensures { result ≡ map (λ w. value_part w.0) (form_of block.now).wires }
{
    let form = form_of(*block);
    let mut parts = none();
    for wire in form.wires.as_slice() {
        parts.push(part_on(*wire, Role::Value));
    }
    parts
}

const NO_PART: Part = Part {
    wire: WireNo(0),
    role: Role::Value,
};

fn none() -> Few<Part>
    ensures { result ≡ [] }
{
    Few::of([NO_PART; 4], 0)
}

fn one(first: Part) -> Few<Part>
    ensures { result ≡ first ∷ [] }
{
    Few::of([first; 4], 1)
}

fn two(first: Part, second: Part) -> Few<Part>
    ensures { result ≡ first ∷ second ∷ [] }
{
    Few::of([first, second, NO_PART, NO_PART], 2)
}

fn three(first: Part, second: Part, third: Part) -> Few<Part>
    ensures { result ≡ first ∷ second ∷ third ∷ [] }
{
    Few::of([first, second, third, NO_PART], 3)
}
