// The tables of steps and of handovers: a network's wires with all that they read looked up once.

ghost use Rattle.std.specs.Prelude.{◌≡◌, ◌<◌, IfOk, length};
ghost use Rattle.net_model.specs.Wires.{input_place, wire_at};
ghost use Rattle.net_model.specs.Validity.{IsValid};
ghost use Rattle.net_eval.specs.Steps.{handovers_of, step_of, steps_of};

use crate::steps::{Step, block_step};
use net_model::{Item, Network, WireNo};
use std::alloc::{AllocError, Global};

/// What a delay is handed behind each row: the value of its source.
#[derive(Clone, Copy)]
pub(crate) struct Handover {
    /// The delay's wire.
    pub delay: usize,
    /// The wire whose value it answers a row later, which may be a later one.
    pub source: usize,
}

/// The steps of a network, one for each wire.
#[tactic(auto, using(crate::proofs::StepFacts::steps_start))]
pub(crate) fn resolve(alloc: Global, net: &Network) -> Result<Vec<Step>, AllocError>
    ensures { IfOk result (λ steps. steps.items ≡ steps_of net.now (length net.now.wires)) }
{
    let mut steps = Vec::new(alloc);
    let mut inputs = 0;
    let wires = net.wires();
    for i in 0..wires.len() {
        let wire = WireNo(i as u32);
        steps.push(step_of(net, wire, inputs))?;
        if item_at(net, wire).is_input() {
            inputs += 1;
        }
    }
    Ok(steps)
}

/// The step of a wire with so many inputs before it.
fn step_of(net: &Network, wire: WireNo, place: usize) -> Step
    requires valid { IsValid net.now }
    requires there { wire.0 < length net.now.wires }
    requires place { place ≡ input_place net.now.wires wire.0 }
    ensures { result ≡ step_of net.now wire.0 }
{
    match item_at(net, wire) {
        Item::Input { .. } => Step::Read { place },
        Item::Const { value } => Step::Fixed { value },
        Item::Delay { .. } => Step::Delay,
        Item::Block(block) => block_step(net, wire, block),
    }
}

/// The handovers of a network, one for each delay.
pub(crate) fn find_handovers(alloc: Global, net: &Network) -> Result<Vec<Handover>, AllocError>
    ensures { IfOk result (λ handovers. handovers.items ≡ handovers_of net.now (length net.now.wires)) }
{
    let mut handovers = Vec::new(alloc);
    let wires = net.wires();
    for i in 0..wires.len() {
        if let Item::Delay { source, .. } = item_at(net, WireNo(i as u32)) {
            handovers.push(Handover {
                delay: i,
                source: source.0 as usize,
            })?;
        }
    }
    Ok(handovers)
}

/// What gives a wire its value.
pub(crate) fn item_at(net: &Network, wire: WireNo) -> Item
    requires { wire.0 < length net.now.wires }
    ensures { result ≡ (wire_at net.now.wires wire.0).item }
{
    net.wires()[wire.0 as usize].item
}
