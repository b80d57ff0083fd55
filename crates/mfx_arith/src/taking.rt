// Which types each operation takes.

ghost use Rattle.std.specs.Prelude.{◌↔◌, IsTrue};
ghost use Rattle.mfx_arith.specs.Operations.{Takes};

use fx_routines::{ArithOp, Routine, Variant};

/// Whether there is a routine of the operation at these types.
#[tactic(auto, using(crate::proofs::TypesTaken::taken))]
pub fn takes(op: ArithOp, v: Variant) -> bool
    ensures { IsTrue result ↔ Takes op v }
{
    fx_routines::takes(Routine::Arith(op), v.types())
}
