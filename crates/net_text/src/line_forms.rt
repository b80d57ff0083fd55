// The forms of lines of wires and outputs: what each gives, or the first of its tests that fails.
ghost use Rattle.std.specs.Prelude.{◌≡◌, ◌+◌, ◌≤◌, [], length, IfOk, Err, bytes_eq, codes, is_some, nat_le, true, ◌&&◌, ◌==◌};
ghost use Rattle.text_words.specs.Lines.{nth, words_of};
ghost use Rattle.text_words.specs.Names.{is_name};
ghost use Rattle.text_words.specs.Numbers.{number_of};
ghost use Rattle.net_text.specs.Forms.{IsShortKind, agreed, agreeing, all_pass, are_numbers, axis_passes, const_line, const_of, delay_line, delay_of, fresh, given_line, in_line, input_of, is_above, is_known, is_output, is_type, kind_named, list_named, lists_named, map_line, number_in, numbers_in, out_line, wire_line, wire_named, wires_named, with_room};
ghost use Rattle.net_model.specs.Validity.{is_among};

use crate::list_forms::narrow_at;
use crate::names::Above;
use crate::routine_word::routine_at;
use crate::type_word::{axis_name, is_position, kind_of};
use fx_routines::{Routine, Types};
use ifx_search::Axis;
use net_model::{
    Few, Form, Item, Kind, ListSort, MOST_WIRES, Name, NetKind, Range, Signature, Sort, WireNo,
    block_of, form_agrees, has_room, in_range, is_range, kind_holds, last_position, signature_of,
};
use text_words::{count_words, demand, is_literal, is_name, number, word_at};

// The place of a routine's first argument, behind `wire NAME TYPE = ROUTINE`.
const FIRST_ARGUMENT: usize = 5;

/// What a line gives its wire besides the name.
#[derive(Clone, Copy)]
pub struct WireContent {
    pub kind: Kind,
    pub item: Item,
}

/// What a wire's line gives of a routine.
#[derive(Drop)]
pub struct Given {
    pub kind: Kind,
    pub form: Form,
}

/// `in NAME TYPE LO HI`
#[tactic(auto, unfolding(crate::specs::Forms::in_line))]
pub fn in_line(above: &Above, line: &[u8]) -> Result<WireContent, NetKind>
    ensures { result ≡ in_line above.now.net (words_of line.now) }
{
    demand!(count_words(line) == 5, NetKind::BadLine);
    fresh(above, word_at(line, 1))?;
    let Some(kind) = kind_of(word_at(line, 2)) else {
        return Err(NetKind::BadType);
    };
    let item = input_of(
        &above.draft().axes,
        kind,
        word_at(line, 3),
        word_at(line, 4),
    )?;
    demand!(above.draft().wires.len() < MOST_WIRES, NetKind::TooMany);
    Ok(WireContent { kind, item })
}

/// `const NAME TYPE VALUE`
#[tactic(auto, unfolding(crate::specs::Forms::const_line))]
pub fn const_line(above: &Above, line: &[u8]) -> Result<WireContent, NetKind>
    ensures { result ≡ const_line above.now.net (words_of line.now) }
{
    demand!(count_words(line) == 4, NetKind::BadLine);
    fresh(above, word_at(line, 1))?;
    let Some(kind) = kind_of(word_at(line, 2)) else {
        return Err(NetKind::BadType);
    };
    let item = const_of(&above.draft().axes, kind, word_at(line, 3))?;
    demand!(above.draft().wires.len() < MOST_WIRES, NetKind::TooMany);
    Ok(WireContent { kind, item })
}

/// `wire NAME TYPE = ROUTINE ARG ..`
#[tactic(auto, unfolding(crate::specs::Forms::wire_line))]
pub fn wire_line(above: &Above, line: &[u8]) -> Result<WireContent, NetKind>
    ensures { result ≡ wire_line above.now.lines above.now.net (words_of line.now) }
{
    demand!(is_wire_form(line), NetKind::BadLine);
    fresh(above, word_at(line, 1))?;
    demand!(is_type(word_at(line, 2)), NetKind::BadType);
    let (routine, types) = routine_at(word_at(line, 4))?;
    let signature = signature_of(routine, types);
    let Given { kind, form } = given_line(above, routine, types, &signature, line)?;
    with_room(above, kind, &Item::Block(block_of(&form)))
}

// What a line gives of a routine of this signature: names of wires, then names of axes and tables, then numbers.
#[tactic(auto, unfolding(crate::specs::Forms::given_line))]
fn given_line(
    above: &Above,
    routine: Routine,
    types: Types,
    signature: &Signature,
    line: &[u8],
) -> Result<Given, NetKind>
    ensures { result ≡ given_line above.now.lines above.now.net routine types signature.now (words_of line.now) }
{
    let sorts = signature.sorts.as_slice();
    let lists = signature.lists.as_slice();
    let ranges = signature.ranges.as_slice();
    let names = sorts.len() + lists.len();
    let first_number = FIRST_ARGUMENT + names;
    demand!(
        count_words(line) == first_number + ranges.len(),
        NetKind::BadCount
    );
    demand!(names_are_known(above, names, line), NetKind::UnknownName);
    demand!(names_are_above(above, names, line), NetKind::LaterWire);
    let mut form = Form {
        routine,
        types,
        wires: wires_named(above, sorts, line)?,
        lists: lists_named(above, lists, FIRST_ARGUMENT + sorts.len(), line)?,
        numbers: Few::of([0; 4], 0),
    };
    let kind = agreed(above, &form, word_at(line, 2))?;
    demand!(are_numbers(ranges, first_number, line), NetKind::BadNumber);
    form.numbers = numbers_in(ranges, first_number, line)?;
    Ok(Given { kind, form })
}

/// `delay NAME TYPE INIT = SOURCE`
#[tactic(auto, unfolding(crate::specs::Forms::delay_line))]
pub fn delay_line(above: &Above, line: &[u8]) -> Result<WireContent, NetKind>
    ensures { result ≡ delay_line above.now.lines above.now.net (words_of line.now) }
{
    demand!(is_delay_form(line), NetKind::BadLine);
    fresh(above, word_at(line, 1))?;
    demand!(is_type(word_at(line, 2)), NetKind::BadType);
    demand!(delay_is_known(above, line), NetKind::UnknownName);
    demand!(axis_is_above(above, word_at(line, 2)), NetKind::LaterWire);
    let Some(kind) = kind_named(above, word_at(line, 2)) else {
        return Err(NetKind::TypeDiffers);
    };
    let source = above.source_named(word_at(line, 5));
    let item = delay_of(&above.draft().axes, kind, word_at(line, 3), source)?;
    demand!(above.draft().wires.len() < MOST_WIRES, NetKind::TooMany);
    Ok(WireContent { kind, item })
}

// Six words, of which the fifth is `=`.
fn is_delay_form(line: &[u8]) -> bool
    ensures { result ≡ ((length (words_of line.now) == 6) && bytes_eq (nth (words_of line.now) 4) (codes "=")) }
{
    count_words(line) == 6 && is_literal(word_at(line, 4), b"=")
}

// Whether the axis of a delay, if it has one, and its source are known.
fn delay_is_known(above: &Above, line: &[u8]) -> bool
    ensures { result ≡ (axis_passes (is_known above.now.lines above.now.net) (nth (words_of line.now) 2) && is_known above.now.lines above.now.net (nth (words_of line.now) 5)) }
{
    axis_is_known(above, word_at(line, 2)) && above.is_known(word_at(line, 5))
}

/// The fault of `map NAME TYPE NX NY V V ..`, which isn't built: its form, its name and its type are tested
/// first.
#[tactic(auto, unfolding(crate::specs::Forms::map_line))]
pub fn map_line(above: &Above, line: &[u8]) -> NetKind
    ensures { map_line above.now.net (words_of line.now) ≡ Err result }
{
    if count_words(line) < 5 {
        return NetKind::BadLine;
    }
    if let Err(kind) = fresh(above, word_at(line, 1)) {
        return kind;
    }
    match narrow_at(line) {
        Some(_) => NetKind::NotBuilt,
        None => NetKind::BadType,
    }
}

/// The wire that an `out NAME` names.
#[tactic(auto, unfolding(crate::specs::Forms::out_line))]
pub fn out_line(above: &Above, line: &[u8]) -> Result<WireNo, NetKind>
    ensures { result ≡ out_line above.now.lines above.now.net (words_of line.now) }
{
    demand!(count_words(line) == 2, NetKind::BadLine);
    let name = word_at(line, 1);
    demand!(is_name(name), NetKind::BadName);
    demand!(
        !is_output(&above.draft().outs, above.place_of(name)),
        NetKind::Repeated
    );
    demand!(above.is_known(name), NetKind::UnknownName);
    demand!(above.is_above(name), NetKind::LaterWire);
    wire_named(above, name)
}

// At least six words, of which the fourth is `=`.
fn is_wire_form(line: &[u8]) -> bool
    ensures { result ≡ (nat_le 6 (length (words_of line.now)) && bytes_eq (nth (words_of line.now) 3) (codes "=")) }
{
    count_words(line) >= 6 && is_literal(word_at(line, 3), b"=")
}

/// That a name is one, and no line above defines it.
#[tactic(auto, unfolding(crate::specs::Forms::fresh))]
pub fn fresh(above: &Above, name: &[u8]) -> Result<(), NetKind>
    ensures { result ≡ fresh above.now.net name.now }
{
    demand!(is_name(name), NetKind::BadName);
    demand!(!above.is_above(name), NetKind::Repeated);
    Ok(())
}

// What a block's line gives its wire, where there is room for the wire and for the rows of its average.
fn with_room(above: &Above, kind: Kind, item: &Item) -> Result<WireContent, NetKind>
    ensures { result ≡ with_room above.now.net.wires kind item.now }
{
    demand!(
        has_room(above.draft().wires.as_slice(), *item),
        NetKind::TooMany
    );
    Ok(WireContent { kind, item: *item })
}

// ---- names

fn names_are_known(above: &Above, count: usize, line: &[u8]) -> bool
    requires { count ≤ 8 }
    ensures { result ≡ (axis_passes (is_known above.now.lines above.now.net) (nth (words_of line.now) 2) && all_pass (is_known above.now.lines above.now.net) count 5 (words_of line.now)) }
{
    axis_is_known(above, word_at(line, 2)) && are_known(above, count, line)
}

#[tactic(auto, using(crate::proofs::LineSteps::words_left))]
fn are_known(above: &Above, count: usize, line: &[u8]) -> bool
    requires { count ≤ 8 }
    ensures { result ≡ all_pass (is_known above.now.lines above.now.net) count 5 (words_of line.now) }
{
    for i in 0..count {
        if !above.is_known(word_at(line, FIRST_ARGUMENT + i)) {
            return false;
        }
    }
    true
}

fn names_are_above(above: &Above, count: usize, line: &[u8]) -> bool
    requires { count ≤ 8 }
    ensures { result ≡ (axis_passes (is_above above.now.net) (nth (words_of line.now) 2) && all_pass (is_above above.now.net) count 5 (words_of line.now)) }
{
    axis_is_above(above, word_at(line, 2)) && are_above(above, count, line)
}

#[tactic(auto, using(crate::proofs::LineSteps::words_left))]
fn are_above(above: &Above, count: usize, line: &[u8]) -> bool
    requires { count ≤ 8 }
    ensures { result ≡ all_pass (is_above above.now.net) count 5 (words_of line.now) }
{
    for i in 0..count {
        if !above.is_above(word_at(line, FIRST_ARGUMENT + i)) {
            return false;
        }
    }
    true
}

fn axis_is_known(above: &Above, word: &[u8]) -> bool
    ensures { result ≡ axis_passes (is_known above.now.lines above.now.net) word.now }
{
    !is_position(word) || above.is_known(axis_name(word))
}

fn axis_is_above(above: &Above, word: &[u8]) -> bool
    ensures { result ≡ axis_passes (is_above above.now.net) word.now }
{
    !is_position(word) || above.is_above(axis_name(word))
}

// The wires that a routine is given, one for each sort.
#[tactic(auto, using(crate::proofs::LineSteps::behind_none))]
fn wires_named(above: &Above, sorts: &[Sort], line: &[u8]) -> Result<Few<WireNo>, NetKind>
    requires { length sorts.now ≤ 4 }
    ensures { result ≡ wires_named above.now.net.wires sorts.now 5 (words_of line.now) }
{
    let mut wires = Few::of([WireNo(0); 4], 0);
    for i in 0..sorts.len() {
        wires.push(wire_named(above, word_at(line, FIRST_ARGUMENT + i))?);
    }
    Ok(wires)
}

#[tactic(auto, unfolding(crate::specs::Forms::wire_named))]
fn wire_named(above: &Above, name: &[u8]) -> Result<WireNo, NetKind>
    ensures { result ≡ wire_named above.now.net.wires name.now }
{
    match above.place_of(name) {
        Some(place) => Ok(WireNo(place)),
        None => Err(NetKind::TypeDiffers),
    }
}

// The axes and tables that a routine is given from word number `first` on, one for each sort.
#[tactic(auto, using(crate::proofs::LineSteps::behind_none))]
fn lists_named(
    above: &Above,
    sorts: &[ListSort],
    first: usize,
    line: &[u8],
) -> Result<Few<u32>, NetKind>
    requires few { length sorts.now ≤ 4 }
    requires near { first ≤ 9 }
    ensures { result ≡ lists_named above.now.net sorts.now first (words_of line.now) }
{
    let mut lists = Few::of([0; 4], 0);
    for i in 0..sorts.len() {
        lists.push(list_named(above, sorts[i], word_at(line, first + i))?);
    }
    Ok(lists)
}

#[tactic(auto, unfolding(crate::specs::Forms::list_named))]
fn list_named(above: &Above, sort: ListSort, name: &[u8]) -> Result<u32, NetKind>
    ensures { result ≡ list_named above.now.net sort name.now }
{
    let place = match sort {
        ListSort::AxisOf(_) => above.axis_place(name),
        ListSort::TableOf(_) | ListSort::TableOver(..) => above.table_place(name),
    };
    match place {
        Some(place) => Ok(place),
        None => Err(NetKind::TypeDiffers),
    }
}

fn is_output(outs: &[WireNo], place: Option<u32>) -> bool
    ensures { result ≡ is_output outs.now place }
{
    match place {
        Some(place) => is_among(outs, place),
        None => false,
    }
}

fn is_among(outs: &[WireNo], place: u32) -> bool
    ensures { result ≡ is_among outs.now (record { 0 = place }) }
{
    outs.iter().any(|out| place == out.0)
}

// ---- numbers

#[tactic(auto, using(crate::proofs::HeldNumbers::input_of_held))]
fn input_of(axes: &[(Name, Axis)], kind: Kind, low: &[u8], high: &[u8]) -> Result<Item, NetKind>
    ensures { result ≡ input_of axes.now kind low.now high.now }
{
    kind_is_short(axes, kind);
    let Some(lo) = number(low) else {
        return Err(NetKind::BadNumber);
    };
    let Some(hi) = number(high) else {
        return Err(NetKind::BadNumber);
    };
    demand!(is_range(axes, kind, lo, hi), NetKind::OutOfRange);
    Ok(Item::Input { lo, hi })
}

#[tactic(auto, using(crate::proofs::HeldNumbers::const_of_held))]
fn const_of(axes: &[(Name, Axis)], kind: Kind, word: &[u8]) -> Result<Item, NetKind>
    ensures { result ≡ const_of axes.now kind word.now }
{
    kind_is_short(axes, kind);
    let Some(value) = number(word) else {
        return Err(NetKind::BadNumber);
    };
    demand!(kind_holds(axes, kind, value), NetKind::OutOfRange);
    Ok(Item::Const { value })
}

#[tactic(auto, using(crate::proofs::HeldNumbers::delay_of_held))]
fn delay_of(axes: &[(Name, Axis)], kind: Kind, word: &[u8], source: WireNo) -> Result<Item, NetKind>
    ensures { result ≡ delay_of axes.now kind word.now source }
{
    kind_is_short(axes, kind);
    let Some(init) = number(word) else {
        return Err(NetKind::BadNumber);
    };
    demand!(kind_holds(axes, kind, init), NetKind::OutOfRange);
    Ok(Item::Delay { init, source })
}

// That the positions of a kind fit 32 bits, which the axes know by their types.
fn kind_is_short(axes: &[(Name, Axis)], kind: Kind)
    ensures { IsShortKind axes.now kind }
{
    if let Kind::Position(axis) = kind {
        let _last = last_position(axes, axis);
    }
}

// Whether the words from number `first` on, one for each range, are numbers.
#[tactic(auto, using(crate::proofs::LineSteps::ranges_left), unfolding(crate::specs::Forms::are_numbers))]
fn are_numbers(ranges: &[Range], first: usize, line: &[u8]) -> bool
    requires few { length ranges.now ≤ 4 }
    requires near { first ≤ 13 }
    ensures { result ≡ are_numbers ranges.now first (words_of line.now) }
{
    for i in 0..ranges.len() {
        if !is_number(word_at(line, first + i)) {
            return false;
        }
    }
    true
}

/// Whether the word is a number.
pub fn is_number(word: &[u8]) -> bool
    ensures { result ≡ is_some (number_of word.now) }
{
    number(word).is_some()
}

// The numbers that the words from number `first` on write, one for each range.
#[tactic(auto, using(crate::proofs::LineSteps::behind_none))]
fn numbers_in(ranges: &[Range], first: usize, line: &[u8]) -> Result<Few<i64>, NetKind>
    requires few { length ranges.now ≤ 4 }
    requires near { first ≤ 13 }
    ensures { result ≡ numbers_in ranges.now first (words_of line.now) }
{
    let mut numbers = Few::of([0; 4], 0);
    for i in 0..ranges.len() {
        numbers.push(number_in(ranges[i], word_at(line, first + i))?);
    }
    Ok(numbers)
}

#[tactic(auto, using(crate::proofs::HeldNumbers::number_in_held))]
fn number_in(range: Range, word: &[u8]) -> Result<i64, NetKind>
    ensures { result ≡ number_in range word.now }
{
    let Some(value) = number(word) else {
        return Err(NetKind::BadNumber);
    };
    demand!(in_range(range, value), NetKind::OutOfRange);
    Ok(value)
}

// ---- types

fn is_type(word: &[u8]) -> bool
    ensures { result ≡ is_type word.now }
{
    kind_of(word).is_some() || is_position(word)
}

// The kind that a type word names.
#[tactic(auto, unfolding(crate::specs::Forms::kind_named))]
fn kind_named(above: &Above, word: &[u8]) -> Option<Kind>
    ensures { result ≡ kind_named above.now.net word.now }
{
    if !is_position(word) {
        return kind_of(word);
    }
    let axis = above.axis_place(axis_name(word))?;
    Some(Kind::Position(axis))
}

// The kind that the wire of a form has by its type word, where the types of both agree.
#[tactic(auto, unfolding(crate::specs::Forms::agreed))]
fn agreed(above: &Above, form: &Form, word: &[u8]) -> Result<Kind, NetKind>
    ensures { result ≡ agreed above.now.net form.now word.now }
{
    match kind_named(above, word) {
        Some(kind) => agreeing(above, form, kind),
        None => Err(NetKind::TypeDiffers),
    }
}

fn agreeing(above: &Above, form: &Form, kind: Kind) -> Result<Kind, NetKind>
    ensures { result ≡ agreeing above.now.net form.now kind }
{
    if form_agrees(above.draft(), kind, form) {
        Ok(kind)
    } else {
        Err(NetKind::TypeDiffers)
    }
}
