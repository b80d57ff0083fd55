// Which types each operation takes.

ghost use Rattle.std.specs.Prelude.{◌≡◌};
ghost use Rattle.bfx_bits.specs.Routines.{takes_type};

use fx_core::Ty;
use fx_routines::{BitOp, Routine, Types};

/// Whether there is a routine of the operation at this type.
#[tactic(auto, using(crate::proofs::TypesTaken::taken))]
pub fn takes(op: BitOp, ty: Ty) -> bool
    ensures { result ≡ takes_type op ty }
{
    fx_routines::takes(
        Routine::Bit(op),
        Types {
            x: ty,
            y: ty,
            o: ty,
        },
    )
}
