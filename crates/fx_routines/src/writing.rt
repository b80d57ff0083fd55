// Writes the names of the routines.

ghost use Rattle.std.specs.Prelude.{◌≡◌, ◌<◌, ◌++◌, IsTrue, OnOk};
ghost use Rattle.fx_routines.specs.Names.{part_word, routine_name, row_name, takes, type_word, words};
ghost use Rattle.fx_routines.specs.Rows.{row_at};

use crate::fitting::place_of;
use crate::operation::Types;
use crate::shape::{Part, parts_in};
use crate::table::{Routine, row_at};
use fx_core::Ty;
use std::alloc::AllocError;

/// Appends the name of the routine at these types. `routine_named` reads it again.
pub fn push_name(name: &mut Vec<u8>, routine: Routine, v: Types) -> Result<(), AllocError>
    requires { IsTrue (takes routine v) }
    ensures appended { OnOk result (name.new.items ≡ name.old.items ++ routine_name routine v) }
{
    match place_of(routine, v) {
        Some(place) => push_row_name(name, place, v),
        None => Ok(()),
    }
}

// Appends the name of the row at the place.
fn push_row_name(name: &mut Vec<u8>, place: usize, v: Types) -> Result<(), AllocError>
    requires { place < 70 }
    ensures { OnOk result (name.new.items ≡ name.old.items ++ row_name (row_at place) v) }
{
    let (_, front, shape) = row_at(place);
    name.extend_from_slice(front)?;
    push_words(name, parts_in(shape), v)
}

fn push_words(name: &mut Vec<u8>, parts: &[Part], v: Types) -> Result<(), AllocError>
    ensures { OnOk result (name.new.items ≡ name.old.items ++ words parts.now v) }
{
    for part in parts {
        name.extend_from_slice(part_word(*part, v))?;
    }
    Ok(())
}

/// What stands at a part of a name.
pub(crate) fn part_word(part: Part, v: Types) -> &'static [u8]
    ensures { result.now ≡ part_word part v }
{
    match part {
        Part::First(_) | Part::FirstAgain => type_word(v.x),
        Part::Second(_) | Part::SecondAgain => type_word(v.y),
        Part::Output(_) => type_word(v.o),
        Part::U8 => b"u8",
        Part::S8 => b"s8",
        Part::Bool => b"bool",
        Part::Underscore => b"_",
    }
}

/// The word of a type, as names and type words have it.
pub fn type_word(ty: Ty) -> &'static [u8]
    ensures { result.now ≡ type_word ty }
{
    match ty {
        Ty::U8 => b"u8",
        Ty::S8 => b"s8",
        Ty::U16 => b"u16",
        Ty::S16 => b"s16",
        Ty::U32 => b"u32",
        Ty::S32 => b"s32",
    }
}
