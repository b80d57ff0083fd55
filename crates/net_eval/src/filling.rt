// One row: the value of each step in turn, the outputs read off them, and what delays are handed behind it.

ghost use Rattle.std.specs.Prelude.{◌≡◌, ◌<◌, ℕ, ℤ, List, ◌∷◌, length, map};
ghost use Rattle.net_model.specs.Wires.{inputs_of};
ghost use Rattle.net_eval.specs.After.{IsAfter, outputs_of};
ghost use Rattle.net_eval.specs.States.{AreKept};
ghost use Rattle.net_eval.specs.Steps.{AreAmong, AreReady, ArePlanned, handed_over, states_of, value_at, values_of};
ghost use Rattle.net_eval.specs.Picking.{AreBelow};
ghost use Rattle.net_eval.specs.Typing.{AreTyped};

use crate::resolving::Handover;
use crate::states::{State, hold};
use crate::steps::{Step, step_value};
use net_model::{Network, WireNo};

/// Evaluates one row: the values of all steps into a buffer, those of the output wires into `out`, and what the wires keep behind
/// the row.
pub(crate) fn evaluate(
    net: &Network,
    steps: &[Step],
    handovers: &[Handover],
    states: &mut [State],
    inputs: &[i64],
    buffer: &mut [i64],
    out: &mut [i64],
)
    requires planned { ArePlanned net.now steps.now handovers.now states.old }
    requires one_each { length inputs.now ≡ length (inputs_of net.now.wires) }
    requires typed { AreTyped net.now inputs.now }
    requires buffer { length buffer.old ≡ length net.now.wires }
    requires room { length out.old ≡ length net.now.outs }
    ensures kept { AreKept net.now states.new }
    ensures after { (rows : List (List ℤ)) → IsAfter net.now rows states.old
        → IsAfter net.now (inputs.now ∷ rows) states.new }
    ensures values { (rows : List (List ℤ)) → IsAfter net.now rows states.old
        → out.new ≡ outputs_of net.now (inputs.now ∷ rows) }
{
    fill(net, steps, states, inputs, buffer);
    hand_over(handovers, buffer, states);
    pick(net.outs(), buffer, out);
}

/// Writes the value of each step, from the first on, and what its wire keeps behind the step.
fn fill(net: &Network, steps: &[Step], states: &mut [State], inputs: &[i64], values: &mut [i64])
    requires states { length states.old ≡ length steps.now }
    requires room { length values.old ≡ length steps.now }
    requires ready { AreReady net.now steps.now states.old inputs.now }
    ensures values { values.new ≡ values_of net.now steps.now states.old inputs.now (length steps.now) }
    ensures states { states.new ≡ states_of net.now steps.now states.old inputs.now (length steps.now) }
{
    for i in 0..steps.len() {
        let value = step_value(net, &steps[i], &mut states[i], inputs, &values[..i]);
        values[i] = value;
    }
}

/// Hands the values of the delays' sources over to the next row. It comes behind all steps, since a source may be a later wire.
fn hand_over(handovers: &[Handover], values: &[i64], states: &mut [State])
    requires one_each { length values.now ≡ length states.old }
    requires there { AreAmong handovers.now (length states.old) }
    ensures { states.new ≡ handed_over handovers.now values.now states.old }
{
    for k in 0..handovers.len() {
        let Handover { delay, source } = handovers[k];
        hold(&mut states[delay], values[source]);
    }
}

/// Writes the values of the output wires.
fn pick(outs: &[WireNo], values: &[i64], out: &mut [i64])
    requires room { length out.old ≡ length outs.now }
    requires there { AreBelow outs.now (length values.now) }
    ensures { out.new ≡ map (λ o. value_at values.now o.0) outs.now }
{
    for i in 0..outs.len() {
        out[i] = values[outs[i].0 as usize];
    }
}
