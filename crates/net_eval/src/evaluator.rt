ghost use Rattle.std.specs.Prelude.{◌≡◌, ℤ, List, [], ◌∷◌, IfOk, length};
ghost use Rattle.net_model.specs.Wires.{inputs_of};
ghost use Rattle.net_eval.specs.After.{IsAfter, outputs_of};
ghost use Rattle.net_eval.specs.Typing.{AreTyped};

use crate::filling::evaluate;
use crate::resolving::{Handover, find_handovers, resolve};
use crate::states::{State, restart, start};
use crate::steps::Step;
use net_model::Network;
use std::alloc::{AllocError, Global};
use std::marker::Model;

/// An evaluator of a network, seen as the network and what it keeps of the rows so far. The buffer of
/// values is scratch, written anew at each row.
#[derive(Drop)]
pub struct Plan<'a> {
    net: &'a Network,
    steps: Vec<Step>,
    handovers: Vec<Handover>,
    states: Vec<State>,
    values: Vec<i64>,
}

impl<'a> Model for Plan<'a> {
    ghost use Rattle.std.specs.Prelude.{◌≡◌, length};
    ghost use Rattle.net_eval.specs.After.{PlanData};

    ghost Value = { PlanData };

    ghost use Rattle.net_eval.specs.Steps.{ArePlanned};

    ghost view = { λ p. record { net = p.net.now; kept = p.states.items } };

    ghost invariant = { λ p. ArePlanned p.net.now p.steps.items p.handovers.items p.states.items
        × (length p.values.items ≡ length p.net.now.wires) };
}

impl<'a> Plan<'a> {
    /// The evaluator of a network before its first row; `AllocError` where memory runs out.
    pub fn new(alloc: Global, net: &'a Network) -> Result<Plan<'a>, AllocError>
        ensures net { IfOk result (λ p. p.net ≡ net.now) }
        ensures start { IfOk result (λ p. IsAfter net.now [] p.kept) }
    {
        let steps = resolve(alloc, net)?;
        let handovers = find_handovers(alloc, net)?;
        let states = start(alloc, net)?;
        let values = vec![in alloc; 0; net.wires().len()]?;
        Ok(Plan {
            net,
            steps,
            handovers,
            states,
            values,
        })
    }

    /// Evaluates one more row, with one number for each input in the order of the wires, raw counts of its
    /// kind, and writes the value of each output in the order of printing.
    pub fn step(&mut self, inputs: &[i64], out: &mut [i64])
        requires one_each { length inputs.now ≡ length (inputs_of self.old.net.wires) }
        requires typed { AreTyped self.old.net inputs.now }
        requires outs { length out.old ≡ length self.old.net.outs }
        ensures net { self.new.net ≡ self.old.net }
        ensures after { (rows : List (List ℤ)) → IsAfter self.old.net rows self.old.kept
            → IsAfter self.old.net (inputs.now ∷ rows) self.new.kept }
        ensures values { (rows : List (List ℤ)) → IsAfter self.old.net rows self.old.kept
            → out.new ≡ outputs_of self.old.net (inputs.now ∷ rows) }
    {
        evaluate(
            self.net,
            &self.steps,
            &self.handovers,
            &mut self.states,
            inputs,
            &mut self.values,
            out,
        );
    }

    /// Goes back to before the first row.
    pub fn reset(&mut self)
        ensures net { self.new.net ≡ self.old.net }
        ensures start { IsAfter self.old.net [] self.new.kept }
    {
        restart(self.net, &mut self.states);
    }
}
