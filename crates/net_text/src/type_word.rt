// Reads type words.
ghost use Rattle.std.specs.Prelude.{◌≡◌, ◌≤◌, length};
ghost use Rattle.net_text.specs.TypeWords.{axis_name, is_position, kind_of, number_kind_of, one_digit, point_of_word, two_digits, ty_len, ty_of};

use fx_core::Ty;
use net_model::Kind;
use text_words::{is_literal, is_name};

// The greatest binary point.
const GREATEST_POINT: u8 = 15;

/// The number type with or without a binary point, or `bool`, that the word names.
#[tactic(auto, unfolding(crate::specs::TypeWords::kind_of))]
pub fn kind_of(word: &[u8]) -> Option<Kind>
    ensures { result ≡ kind_of word.now }
{
    if is_literal(word, b"bool") {
        return Some(Kind::Truth);
    }
    number_kind_of(word)
}

#[tactic(auto, unfolding(crate::specs::TypeWords::number_kind_of))]
fn number_kind_of(word: &[u8]) -> Option<Kind>
    ensures { result ≡ number_kind_of word.now }
{
    let (name, behind) = word.split_at(ty_len(word));
    let ty = ty_of(name)?;
    let point = point_of_word(behind)?;
    Some(Kind::Num(ty, point))
}

// How many bytes stand before the first point mark.
fn ty_len(word: &[u8]) -> usize
    ensures value { result ≡ ty_len word.now }
    ensures within { result ≤ length word.now }
{
    word.iter().take_while(|byte| **byte != b'.').count()
}

/// The number type that the word names, which has no binary point behind it.
pub fn ty_of(name: &[u8]) -> Option<Ty>
    ensures { result ≡ ty_of name.now }
{
    if is_literal(name, b"u8") {
        return Some(Ty::U8);
    }
    if is_literal(name, b"s8") {
        return Some(Ty::S8);
    }
    if is_literal(name, b"u16") {
        return Some(Ty::U16);
    }
    if is_literal(name, b"s16") {
        return Some(Ty::S16);
    }
    if is_literal(name, b"u32") {
        return Some(Ty::U32);
    }
    if is_literal(name, b"s32") {
        return Some(Ty::S32);
    }
    None
}

#[tactic(auto, unfolding(crate::specs::TypeWords::point_of_word))]
fn point_of_word(behind: &[u8]) -> Option<u8>
    ensures { result ≡ point_of_word behind.now }
{
    match behind {
        [] => Some(0),
        [_, a] => one_digit(*a),
        [_, a, b] => two_digits(*a, *b),
        _ => None,
    }
}

fn one_digit(a: u8) -> Option<u8>
    ensures { result ≡ one_digit a }
{
    if a.is_ascii_digit() {
        Some(a - b'0')
    } else {
        None
    }
}

fn two_digits(a: u8, b: u8) -> Option<u8>
    ensures { result ≡ two_digits a b }
{
    if !a.is_ascii_digit() || !b.is_ascii_digit() {
        return None;
    }
    let point = 10 * (a - b'0') + (b - b'0');
    if point <= GREATEST_POINT {
        Some(point)
    } else {
        None
    }
}

/// Whether the word is the type of positions on an axis: `dp:` and the axis's name.
#[tactic(auto, unfolding(crate::specs::TypeWords::is_position))]
pub fn is_position(word: &[u8]) -> bool
    ensures { result ≡ is_position word.now }
{
    word.starts_with(b"dp:") && is_name(axis_name(word))
}

/// What stands behind `dp:`.
pub fn axis_name(word: &[u8]) -> &[u8]
    ensures { result.now ≡ axis_name word.now }
{
    match word {
        [_, _, _, name @ ..] => name,
        _ => b"",
    }
}
