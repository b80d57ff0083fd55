// Which wires are smooth.
ghost use Rattle.std.specs.Prelude.{◌≡◌, ◌<◌, ◌^◌, IfNone, IfSome, length};
ghost use Rattle.net_model.specs.Smooth.{IsFirstRough, IsSmooth, is_smooth, is_smooth_block};

use crate::block_forms::form_of;
use crate::families::signature_of;
use crate::wires::{Block, Item, Wire, WireNo};

/// The first wire whose block isn't smooth, if there is one.
pub fn first_rough(wires: &[Wire]) -> Option<WireNo>
    requires { length wires.now < 2 ^ 32 }
    ensures none { IfNone result (IsSmooth wires.now) }
    ensures first { IfSome result (λ wire. IsFirstRough wires.now wire.0) }
{
    let place = wires.iter().position(|wire| !is_smooth(wire.item))?;
    Some(WireNo(place as u32))
}

fn is_smooth(item: Item) -> bool
    ensures { result ≡ is_smooth item }
{
    match item {
        Item::Input { .. } | Item::Const { .. } | Item::Delay { .. } => true,
        Item::Block(block) => is_smooth_block(block),
    }
}

fn is_smooth_block(block: Block) -> bool
    ensures { result ≡ is_smooth_block block }
{
    let form = form_of(block);
    signature_of(form.routine, form.types).smooth
}
