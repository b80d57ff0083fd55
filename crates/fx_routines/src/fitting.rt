// Which types each routine takes.

ghost use Rattle.std.specs.Prelude.{◌≡◌, ◌<◌, MatchOption, None, Some};
ghost use Rattle.std.specs.List.{list_all, list_any};
ghost use Rattle.fx_routines.specs.Names.{fits, has_class, is_first, is_output, is_row_of, is_second, row_of, takes};
ghost use Rattle.fx_routines.specs.Rows.{row_at};
ghost use Rattle.fx_routines.specs.Variants.{belongs, is_signed, same_type};

use crate::operation::Types;
use crate::shape::{Class, Part, parts_in};
use crate::table::{ROWS, Routine, row_at};
use fx_core::Ty;

/// Whether there is a routine of these types.
pub fn takes(routine: Routine, v: Types) -> bool
    ensures { result ≡ takes routine v }
{
    place_of(routine, v).is_some()
}

/// The place of the first row of the routine that `v` fits.
pub(crate) fn place_of(routine: Routine, v: Types) -> Option<usize>
    ensures { MatchOption result (row_of routine v ≡ None) (λ place. (place < 70) × (row_of routine v ≡ Some (row_at place))) }
{
    for place in 0..ROWS {
        if is_row_of(place, routine, v) {
            return Some(place);
        }
    }
    None
}

// Whether the row at the place is one of the routine, and `v` fits it.
fn is_row_of(place: usize, routine: Routine, v: Types) -> bool
    requires { place < 70 }
    ensures { result ≡ is_row_of routine v (row_at place) }
{
    let (each, _, shape) = row_at(place);
    each == routine && fits(parts_in(shape), v)
}

// Whether names of these parts may have these types.
fn fits(parts: &[Part], v: Types) -> bool
    ensures { result ≡ fits parts.now v }
{
    have_classes(parts, v)
        && (choose_first(parts) || v.x == Ty::U8)
        && (choose_second(parts) || v.y == v.x)
        && (choose_output(parts) || v.o == v.x)
}

fn have_classes(parts: &[Part], v: Types) -> bool
    ensures { result ≡ list_all (has_class v) parts.now }
{
    parts.iter().all(|part| has_class(v, *part))
}

fn choose_first(parts: &[Part]) -> bool
    ensures { result ≡ list_any is_first parts.now }
{
    parts.iter().any(|part| matches!(part, Part::First(_)))
}

fn choose_second(parts: &[Part]) -> bool
    ensures { result ≡ list_any is_second parts.now }
{
    parts.iter().any(|part| matches!(part, Part::Second(_)))
}

fn choose_output(parts: &[Part]) -> bool
    ensures { result ≡ list_any is_output parts.now }
{
    parts.iter().any(|part| matches!(part, Part::Output(_)))
}

// Whether a type that the part chooses is of its class.
fn has_class(v: Types, part: Part) -> bool
    ensures { result ≡ has_class v part }
{
    match part {
        Part::First(class) => belongs(class, v.x, v.x),
        Part::Second(class) => belongs(class, v.x, v.y),
        Part::Output(class) => belongs(class, v.x, v.o),
        Part::FirstAgain | Part::SecondAgain => true,
        Part::U8 | Part::S8 | Part::Bool | Part::Underscore => true,
    }
}

/// Whether a type of a routine whose first input has the type `x` belongs to the class.
pub(crate) fn belongs(class: Class, x: Ty, ty: Ty) -> bool
    ensures { result ≡ belongs class x ty }
{
    match class {
        Class::Any => true,
        Class::Narrow => ty.width() <= 16,
        Class::Unsigned => !is_signed(ty),
        Class::Signed => is_signed(ty),
        Class::SameWidth => ty.width() == x.width(),
    }
}

fn is_signed(ty: Ty) -> bool
    ensures { result ≡ is_signed ty }
{
    match ty {
        Ty::S8 | Ty::S16 | Ty::S32 => true,
        Ty::U8 | Ty::U16 | Ty::U32 => false,
    }
}
