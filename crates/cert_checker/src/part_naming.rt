// How parts are named in texts.
ghost use Rattle.std.specs.Prelude.{◌≡◌, ◌<◌, ◌++◌, IfOk, OnOk, bytes_eq, length};
ghost use Rattle.net_model.specs.Wires.{parts_of, wire_at};
ghost use Rattle.cert_checker.specs.PartNames.{part_name, role_suffix};

use crate::parts::part_at;
use net_model::{Network, Part, PartNo, Role};
use std::alloc::{AllocError, Global};

/// The name of a part in texts: that of its wire, and for what the wire's block keeps a point and the part's role
/// behind it.
pub fn part_name(alloc: Global, net: &Network, part: PartNo) -> Result<Vec<u8>, AllocError>
    requires { part.0 < length (parts_of net.now.wires) }
    ensures { IfOk result (λ name. name.items ≡ part_name net.now part.0) }
{
    let mut name = Vec::new(alloc);
    push_part_name(&mut name, net, part.0 as usize)?;
    Ok(name)
}

/// Appends the name of part number `k`, from 0.
pub(crate) fn push_part_name(text: &mut Vec<u8>, net: &Network, k: usize) -> Result<(), AllocError>
    requires { k < length (parts_of net.now.wires) }
    ensures { OnOk result (text.new.items ≡ text.old.items ++ part_name net.now k) }
{
    let part = part_at(net, k);
    text.extend_from_slice(wire_name(net, part))?;
    text.extend_from_slice(role_suffix(part.role))
}

/// Whether a word is the name of part number `k`, from 0.
pub(crate) fn is_part_name(net: &Network, k: usize, word: &[u8]) -> bool
    requires { k < length (parts_of net.now.wires) }
    ensures { result ≡ bytes_eq (part_name net.now k) word.now }
{
    let part = part_at(net, k);
    is_joined(wire_name(net, part), role_suffix(part.role), word)
}

// The name of the wire on which a part stands.
fn wire_name(net: &Network, part: Part) -> &[u8]
    requires { part.wire.0 < length net.now.wires }
    ensures { result.now ≡ (wire_at net.now.wires part.wire.0).name }
{
    net.wires()[part.wire.0 as usize].name.bytes()
}

// What stands behind the wire's name in the name of a part.
fn role_suffix(role: Role) -> &'static [u8]
    ensures { result.now ≡ role_suffix role }
{
    match role {
        Role::Y => b".Y",
        Role::X1 => b".X1",
        Role::X2 => b".X2",
        Role::W => b".W",
        Role::Value => b"",
    }
}

// Whether a word is made of two pieces.
#[tactic(auto, using(crate::proofs::PartPlaces::joined_short, crate::proofs::PartPlaces::joined_differs, crate::proofs::PartPlaces::joined_rest))]
fn is_joined(front: &[u8], back: &[u8], word: &[u8]) -> bool
    ensures { result ≡ bytes_eq (front.now ++ back.now) word.now }
{
    if word.len() < front.len() {
        return false;
    }
    if front != &word[..front.len()] {
        return false;
    }
    back == &word[front.len()..]
}
