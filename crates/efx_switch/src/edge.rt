// Edges: the changes of a truth value.

ghost use Rattle.std.specs.Prelude.{◌≡◌};
ghost use Rattle.efx_switch.specs.Switching.{IsTruth, is_edge};
ghost use Rattle.efx_switch.specs.States.{edge_after, edge_start, edge_value};

use crate::truth::{is_one, number_of};
use fx_routines::EdgeOp;
use std::marker::Model;

/// Whether the input has changed since the row before, in the way that the operation says. Before
/// the first row it was false.
#[derive(Drop)]
pub struct Edge {
    op: EdgeOp,
    before: bool,
}

impl Model for Edge {
    ghost use Rattle.efx_switch.specs.States.{EdgeData};

    ghost Value = { EdgeData };

    ghost view = { λ e. record { op = e.op; before = e.before } };
}

impl Edge {
    /// A block before its first row.
    pub fn new(op: EdgeOp) -> Edge
        ensures { result ≡ edge_start op }
    {
        Edge { op, before: false }
    }

    /// Whether there is an edge in a row with the input `x`; both are 0 or 1.
    pub fn step(&mut self, x: i64) -> i64
        requires { IsTruth x }
        ensures after { self.new ≡ edge_after self.old x }
        ensures value { result ≡ edge_value self.old x }
    {
        let now = is_one(x);
        let edge = is_edge(self.op, self.before, now);
        self.before = now;
        number_of(edge)
    }

    /// Goes back to before the first row.
    pub fn reset(&mut self)
        ensures { self.new ≡ edge_start self.old.op }
    {
        self.before = false;
    }
}

// Whether the change from the row before to this one is an edge.
fn is_edge(op: EdgeOp, before: bool, now: bool) -> bool
    ensures { result ≡ is_edge op before now }
{
    match op {
        EdgeOp::Rising => now && !before,
        EdgeOp::Falling => before && !now,
        EdgeOp::Both => now != before,
    }
}
