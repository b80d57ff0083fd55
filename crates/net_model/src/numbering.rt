// What a network keeps beside its wires: the inputs, the parts, and the numbers by the names.
ghost use Rattle.std.specs.Prelude.{◌≡◌, ◌<◌, ◌≤◌, ◌^◌, ◌++◌, IfOk, IfSome, OnOk, length, map, position, true};
ghost use Rattle.net_model.specs.Wires.{firsts_from, inputs_of, parts_of, same_role};
ghost use Rattle.net_model.specs.Validity.{are_distinct};
ghost use Rattle.net_model.specs.NameMap.{HasNumbersOf};

use crate::wires::{Part, PartNo, Role, Wire, WireNo};
use indexmap::IndexMap;
use std::alloc::{AllocError, Global};

/// The wires that are inputs, in order.
#[tactic(auto, using(crate::proofs::NumberingLemmas::inputs_steps))]
pub fn input_numbers(alloc: Global, wires: &[Wire]) -> Result<Vec<WireNo>, AllocError>
    requires { length wires.now < 2 ^ 32 }
    ensures { IfOk result (λ v. v.items ≡ inputs_of wires.now) }
{
    let mut numbers = Vec::new(alloc);
    for i in 0..wires.len() {
        if wires[i].item.is_input() {
            numbers.push(WireNo(i as u32))?;
        }
    }
    Ok(numbers)
}

/// The parts of all wires, in order.
#[tactic(auto, using(crate::proofs::NumberingLemmas::parts_steps))]
pub fn part_list(alloc: Global, wires: &[Wire]) -> Result<Vec<Part>, AllocError>
    requires { length wires.now < 2 ^ 32 }
    ensures { IfOk result (λ v. v.items ≡ parts_of wires.now) }
{
    let mut parts = Vec::new(alloc);
    for i in 0..wires.len() {
        push_parts(&mut parts, WireNo(i as u32), wires[i].item.roles())?;
    }
    Ok(parts)
}

// Appends the parts of one wire.
fn push_parts(parts: &mut Vec<Part>, wire: WireNo, roles: &[Role]) -> Result<(), AllocError>
    ensures { OnOk result (parts.new.items ≡ parts.old.items ++ map (λ r. record { wire = wire; role = r }) roles.now) }
{
    for i in 0..roles.len() {
        parts.push(Part {
            wire,
            role: roles[i],
        })?;
    }
    Ok(())
}

/// The number of each wire's first part.
#[tactic(auto, using(crate::proofs::NumberingLemmas::firsts_steps))]
pub fn first_parts(alloc: Global, wires: &[Wire]) -> Result<Vec<PartNo>, AllocError>
    requires { length wires.now ≤ 512 }
    ensures { IfOk result (λ v. v.items ≡ firsts_from 0 wires.now) }
{
    let mut firsts = Vec::new(alloc);
    let mut next = 0;
    for i in 0..wires.len() {
        firsts.push(PartNo(next))?;
        next += wires[i].item.roles().len() as u32;
    }
    Ok(firsts)
}

/// The place of a role among those of a wire. None where the wire has no such part.
pub fn place_of_role(roles: &[Role], role: Role) -> Option<usize>
    ensures place { result ≡ position (λ r. same_role r role) roles.now }
    ensures below { IfSome result (λ place. place < length roles.now) }
{
    roles.iter().position(|other| same_role(*other, role))
}

fn same_role(one: Role, other: Role) -> bool
    ensures { result ≡ same_role one other }
{
    one == other
}

/// The numbers of the wires by their names.
pub fn name_map(alloc: Global, wires: &[Wire]) -> Result<IndexMap<Vec<u8>, WireNo>, AllocError>
    requires few { length wires.now < 2 ^ 32 }
    requires distinct { are_distinct (map (λ w. w.name) wires.now) ≡ true }
    ensures { IfOk result (HasNumbersOf wires.now) }
{
    let mut names = IndexMap::with_capacity(alloc, wires.len())?;
    for (i, wire) in wires.iter().enumerate() {
        let name = Vec::from_slice(alloc, wire.name.bytes())?;
        names.insert(name, WireNo(i as u32))?;
    }
    Ok(names)
}
