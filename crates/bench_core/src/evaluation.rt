// A network that is evaluated on the rows of a recording.
ghost use Rattle.std.specs.Prelude.{◌≡◌, [], IfOk, IfErr, OnOk, length};
ghost use Rattle.net_model.specs.Wires.{inputs_of};
ghost use Rattle.net_model.specs.Validity.{IsValid};
ghost use Rattle.net_eval.specs.After.{IsAfter};
ghost use Rattle.rec_csv.specs.Rows.{Tells, row_of};
ghost use Rattle.bench_core.specs.RunSteps.{Evaluates, EvaluatesRow, IsHeaderOf, KeepsText};

use super::run_lines::push_values;
use net_eval::Plan;
use net_model::Network;
use rec_csv::{Header, RowFault};
use std::alloc::{AllocError, Global};
use std::marker::Model;

/// A plan with the buffers of one row, seen as what the plan holds: they are made before the first row, so that a
/// row takes no memory but in reading its line.
#[derive(Drop)]
pub(crate) struct Evaluation<'a> {
    plan: Plan<'a>,
    values: Vec<i64>,
    outputs: Vec<i64>,
}

impl<'a> Model for Evaluation<'a> {
    ghost use Rattle.std.specs.Prelude.{◌≡◌, length};
    ghost use Rattle.net_model.specs.Wires.{inputs_of};
    ghost use Rattle.net_model.specs.Validity.{IsValid};
    ghost use Rattle.net_eval.specs.After.{PlanData};

    ghost Value = { PlanData };

    ghost view = { λ e. e.plan };

    ghost invariant = { λ e. IsValid e.plan.net
        × (length e.values.items ≡ length (inputs_of e.plan.net.wires))
        × (length e.outputs.items ≡ length e.plan.net.outs) };
}

impl<'a> Evaluation<'a> {
    /// The network before its first row.
    pub(crate) fn new(alloc: Global, network: &'a Network) -> Result<Evaluation<'a>, AllocError>
        ensures net { IfOk result (λ e. e.net ≡ network.now) }
        ensures start { IfOk result (λ e. IsAfter network.now [] e.kept) }
    {
        let plan = Plan::new(alloc, network)?;
        let values = vec![in alloc; 0; network.inputs().len()]?;
        let outputs = vec![in alloc; 0; network.outs().len()]?;
        Ok(Evaluation {
            plan,
            values,
            outputs,
        })
    }

    /// Evaluates the network on one more row and appends the line of its outputs.
    pub(crate) fn push_row(
        &mut self,
        alloc: Global,
        header: &Header,
        line: &[u8],
        text: &mut Vec<u8>,
    ) -> Result<(), RowFault>
        requires { IsHeaderOf self.old.net.wires header.now }
        ensures net { self.new.net ≡ self.old.net }
        ensures row { OnOk result
            (EvaluatesRow header.now line.now self.old self.new text.old.items text.new.items) }
        ensures fault { IfErr result (Tells (row_of header.now line.now)) }
        ensures before { IfErr result (KeepsText text.old.items text.new.items) }
    {
        match evaluate(
            alloc,
            header,
            line,
            &mut self.plan,
            &mut self.values,
            &mut self.outputs,
        ) {
            Ok(()) => match push_values(text, &self.outputs) {
                Ok(()) => Ok(()),
                Err(_) => Err(RowFault::OutOfMemory),
            },
            Err(fault) => Err(fault),
        }
    }
}

// Reads one more row and evaluates the network on it.
#[tactic(auto, using(crate::proofs::TypedRows::typed_row, crate::proofs::TypedRows::one_for_each))]
fn evaluate(
    alloc: Global,
    header: &Header,
    line: &[u8],
    plan: &mut Plan<'_>,
    values: &mut [i64],
    outputs: &mut [i64],
) -> Result<(), RowFault>
    requires valid { IsValid plan.old.net }
    requires header { IsHeaderOf plan.old.net.wires header.now }
    requires inputs { length values.old ≡ length (inputs_of plan.old.net.wires) }
    requires room { length outputs.old ≡ length plan.old.net.outs }
    ensures net { plan.new.net ≡ plan.old.net }
    ensures row { OnOk result (Evaluates header.now line.now plan.old plan.new outputs.new) }
    ensures fault { IfErr result (Tells (row_of header.now line.now)) }
{
    match header.row(alloc, line, values) {
        Ok(()) => {
            plan.step(values, outputs);
            Ok(())
        }
        Err(fault) => Err(fault),
    }
}
