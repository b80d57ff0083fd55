// Reads the names of routines.
ghost use Rattle.std.specs.Prelude.{◌≡◌, IfOk, true};
ghost use Rattle.net_model.specs.Families.{is_built};
ghost use Rattle.net_text.specs.RoutineWords.{routine_at};

use fx_routines::{Routine, Types, routine_named};
use net_model::{NetKind, is_built};
use text_words::demand;

/// The routine of a name, and its types. A name that no routine has is another fault than one whose
/// routine isn't built.
#[tactic(auto, unfolding(crate::specs::RoutineWords::routine_at))]
pub fn routine_at(word: &[u8]) -> Result<(Routine, Types), NetKind>
    ensures value { result ≡ routine_at word.now }
    ensures built { IfOk result (λ found. is_built found.0 ≡ true) }
{
    let Some((routine, types)) = routine_named(word) else {
        return Err(NetKind::UnknownRoutine);
    };
    demand!(is_built(routine), NetKind::NotBuilt);
    Ok((routine, types))
}
