// Reads the names of the routines.

ghost use Rattle.std.specs.Prelude.{◌≡◌, ◌<◌, IfSome, IsTrue, MatchOption, None, Some, length};
ghost use Rattle.fx_routines.specs.declared.operation.Types.{Types};
ghost use Rattle.fx_routines.specs.declared.table.Routine.{Routine};
ghost use Rattle.fx_routines.specs.Names.{IsNameOf};
ghost use Rattle.fx_routines.specs.Rows.{has_variant, row_at};
ghost use Rattle.fx_routines.specs.Reading.{after, first_type, if_at_end, if_of_class, named, read_first, read_output, read_part, read_parts, read_second, read_word, row_named, no_choice};
ghost use Rattle.fx_routines.specs.Variants.{HasOneWidth};

use crate::fitting::belongs;
use crate::operation::Types;
use crate::shape::{Class, Part, parts_in};
use crate::table::{ROWS, Routine, row_at};
use crate::writing::{part_word, type_word};
use fx_core::Ty;

/// The routine that the word names, with its types, and None where it names none. The types of one of
/// arithmetic or of a form are those of a `Variant`: its inputs have one width.
pub fn routine_named(word: &[u8]) -> Option<(Routine, Types)>
    ensures value { result ≡ named word.now }
    ensures sound { IfSome result (λ found. IsNameOf found.0 found.1 word.now) }
    ensures one_width { IfSome result (λ found. IsTrue (has_variant found.0) → HasOneWidth found.1) }
    ensures complete { (routine : Routine) (v : Types) →
        IsNameOf routine v word.now → result ≡ Some (routine, v) }
{
    named(word)
}

// By the first of the rows that reads the word. No front begins another one, so no other row does.
fn named(word: &[u8]) -> Option<(Routine, Types)>
    ensures { result ≡ named word.now }
{
    for place in 0..ROWS {
        if let Some(found) = row_named(place, word) {
            return Some(found);
        }
    }
    None
}

// By the row at the place.
#[tactic(auto, unfolding(crate::specs::Reading::row_named))]
fn row_named(place: usize, word: &[u8]) -> Option<(Routine, Types)>
    requires { place < 70 }
    ensures { result ≡ row_named (row_at place) word.now }
{
    let (routine, front, shape) = row_at(place);
    let rest = after(front, word)?;
    let v = read_parts(parts_in(shape), rest)?;
    Some((routine, v))
}

// The types that the text chooses by these parts.
#[tactic(auto, unfolding(crate::specs::Reading::read_parts))]
fn read_parts(parts: &[Part], text: &[u8]) -> Option<Types>
    ensures { result ≡ read_parts parts.now no_choice text.now }
{
    let mut v = Types {
        x: Ty::U8,
        y: Ty::U8,
        o: Ty::U8,
    };
    let mut rest = text;
    for part in parts {
        (v, rest) = read_part(*part, v, rest)?;
    }
    if_at_end(v, rest)
}

// The types, where nothing is left.
fn if_at_end(v: Types, rest: &[u8]) -> Option<Types>
    ensures { result ≡ if_at_end v rest.now }
{
    match rest {
        [] => Some(v),
        _ => None,
    }
}

#[tactic(auto, unfolding(crate::specs::Reading::read_part))]
fn read_part(part: Part, v: Types, text: &[u8]) -> Option<(Types, &[u8])>
    ensures { MatchOption result (read_part part v text.now ≡ None) (λ cut. read_part part v text.now ≡ Some (cut.0, cut.1.now)) }
{
    match part {
        Part::First(class) => read_first(class, text),
        Part::Second(class) => read_second(class, v, text),
        Part::Output(class) => read_output(class, v, text),
        Part::FirstAgain | Part::SecondAgain => read_word(part_word(part, v), v, text),
        Part::U8 | Part::S8 | Part::Bool | Part::Underscore => {
            read_word(part_word(part, v), v, text)
        }
    }
}

#[tactic(auto, unfolding(crate::specs::Reading::read_first))]
fn read_first(class: Class, text: &[u8]) -> Option<(Types, &[u8])>
    ensures { MatchOption result (read_first class text.now ≡ None) (λ cut. read_first class text.now ≡ Some (cut.0, cut.1.now)) }
{
    let (x, rest) = first_type(text)?;
    if_of_class(class, x, Types { x, y: x, o: x }, rest)
}

#[tactic(auto, unfolding(crate::specs::Reading::read_second))]
fn read_second(class: Class, v: Types, text: &[u8]) -> Option<(Types, &[u8])>
    ensures { MatchOption result (read_second class v text.now ≡ None) (λ cut. read_second class v text.now ≡ Some (cut.0, cut.1.now)) }
{
    let (y, rest) = first_type(text)?;
    if_of_class(class, y, Types { x: v.x, y, o: v.o }, rest)
}

#[tactic(auto, unfolding(crate::specs::Reading::read_output))]
fn read_output(class: Class, v: Types, text: &[u8]) -> Option<(Types, &[u8])>
    ensures { MatchOption result (read_output class v text.now ≡ None) (λ cut. read_output class v text.now ≡ Some (cut.0, cut.1.now)) }
{
    let (o, rest) = first_type(text)?;
    if_of_class(class, o, Types { x: v.x, y: v.y, o }, rest)
}

// The types and what is left, where the type that was just chosen is of its class.
fn if_of_class(class: Class, ty: Ty, v: Types, rest: &[u8]) -> Option<(Types, &[u8])>
    ensures { MatchOption result (if_of_class class ty v rest.now ≡ None) (λ cut. if_of_class class ty v rest.now ≡ Some (cut.0, cut.1.now)) }
{
    if belongs(class, v.x, ty) {
        Some((v, rest))
    } else {
        None
    }
}

#[tactic(auto, unfolding(crate::specs::Reading::read_word))]
fn read_word<'a>(word: &[u8], v: Types, text: &'a [u8]) -> Option<(Types, &'a [u8])>
    ensures { MatchOption result (read_word word.now v text.now ≡ None) (λ cut. read_word word.now v text.now ≡ Some (cut.0, cut.1.now)) }
{
    let rest = after(word, text)?;
    Some((v, rest))
}

// The first of the types whose word the text begins with, and what stands behind that.
macro_rules! first_of {
    ($text:expr; $($ty:ident)*) => {{
        $(if let Some(rest) = after(type_word(Ty::$ty), $text) {
            return Some((Ty::$ty, rest));
        })*
        None
    }};
}

// The type whose word the text begins with, and what stands behind that. No type's word begins
// another's.
#[tactic(auto, unfolding(crate::specs::Reading::first_type))]
fn first_type(text: &[u8]) -> Option<(Ty, &[u8])>
    ensures { MatchOption result (first_type text.now ≡ None) (λ cut. first_type text.now ≡ Some (cut.0, cut.1.now)) }
{
    first_of!(text; U8 S8 U16 S16 U32 S32)
}

// What stands behind a start, where the text begins with it.
#[tactic(auto, unfolding(crate::specs::Reading::after))]
fn after<'a>(start: &[u8], text: &'a [u8]) -> Option<&'a [u8]>
    ensures { MatchOption result (after start.now text.now ≡ None) (λ rest. after start.now text.now ≡ Some rest.now) }
{
    text.strip_prefix(start)
}
