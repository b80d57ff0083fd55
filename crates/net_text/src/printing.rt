// Prints the canonical text of a network.
ghost use Rattle.std.specs.Prelude.{◌≡◌, ◌++◌, [], ◌∷◌, true, map, codes, length, pos, IfOk, OnOk};
ghost use Rattle.std.specs.Fmt.{signed_decimal};
ghost use Rattle.text_words.specs.Printed.{behind_spaces, spaced};
ghost use Rattle.fx_routines.specs.Names.{routine_name, type_word};
ghost use Rattle.net_model.specs.Wires.{wire_at};
ghost use Rattle.net_model.specs.Validity.{item_agrees, takes_form};
ghost use Rattle.net_text.specs.Printing.{PrintedNetworksAreRead, argument_words, axis_words, form_words, given_words, kind_word, lines_below, list_word, list_words, name_of_axis, name_of_table, number_words, out_words, point_word, table_words, text_of, wire_words};

use fx_core::Ty;
use fx_routines::{push_name, type_word};
use ifx_curves::Table;
use ifx_search::Axis;
use itoa::Buffer;
use net_model::{Form, Item, Kind, ListSort, Name, Network, Wire, WireNo, form_in, signature_of};
use std::alloc::{AllocError, Global};

/// The canonical text of a network: its axes, its tables, its wires and its outputs in their order, a line
/// each, with one space between words and no comment.
#[tactic(auto, unfolding(crate::specs::Printing::text_of))]
pub fn print_net(alloc: Global, net: &Network) -> Result<Vec<u8>, AllocError>
    ensures { IfOk result (λ text. text.items ≡ text_of net.now) }
{
    let mut text = Vec::from_slice(alloc, b"net 1")?;
    push_axes(&mut text, net)?;
    push_tables(&mut text, net)?;
    push_wires(&mut text, net)?;
    push_outs(&mut text, net)?;
    text.push(b'\n')?;
    Ok(text)
}

/// A valid network is read again from its canonical text.
pub fn law_of_printing()
    ensures { PrintedNetworksAreRead }
{}

// Appends the lines of the axes, each behind the line feed of the line above.
fn push_axes(text: &mut Vec<u8>, net: &Network) -> Result<(), AllocError>
    ensures { OnOk result (text.new.items ≡ text.old.items ++ lines_below (map axis_words net.now.axes)) }
{
    for named in net.axes() {
        push_axis(text, named)?;
    }
    Ok(())
}

fn push_axis(text: &mut Vec<u8>, named: &(Name, Axis)) -> Result<(), AllocError>
    ensures { OnOk result (text.new.items ≡ text.old.items ++ 10 ∷ spaced (axis_words named.now)) }
{
    let (name, axis) = named;
    match axis.spacing() {
        Some((offset, step)) => push_steps(text, name.bytes(), axis, offset, step),
        None => {
            push_list_front(text, b"axis", name.bytes(), axis.ty())?;
            push_points(text, axis)
        }
    }
}

fn push_steps(
    text: &mut Vec<u8>,
    name: &[u8],
    axis: &Axis,
    offset: i64,
    step: i64,
) -> Result<(), AllocError>
    ensures { OnOk result (text.new.items ≡ text.old.items ++ 10 ∷ spaced (codes "axisstep" ∷ name.now ∷ type_word axis.now.ty ∷ signed_decimal offset ∷ signed_decimal step ∷ signed_decimal (pos (length axis.now.points)) ∷ [])) }
{
    push_list_front(text, b"axisstep", name, axis.ty())?;
    push_number(text, b' ', offset)?;
    push_number(text, b' ', step)?;
    push_number(text, b' ', i64::from(axis.len()))
}

// Appends the points of an axis, each behind a space.
fn push_points(text: &mut Vec<u8>, axis: &Axis) -> Result<(), AllocError>
    ensures { OnOk result (text.new.items ≡ text.old.items ++ behind_spaces (number_words axis.now.points)) }
{
    for i in 0..axis.len() {
        push_number(text, b' ', axis.point(i))?;
    }
    Ok(())
}

// Appends the lines of the tables, each behind the line feed of the line above.
fn push_tables(text: &mut Vec<u8>, net: &Network) -> Result<(), AllocError>
    ensures { OnOk result (text.new.items ≡ text.old.items ++ lines_below (map table_words net.now.tables)) }
{
    for named in net.tables() {
        push_table(text, named)?;
    }
    Ok(())
}

fn push_table(text: &mut Vec<u8>, named: &(Name, Table)) -> Result<(), AllocError>
    ensures { OnOk result (text.new.items ≡ text.old.items ++ 10 ∷ spaced (table_words named.now)) }
{
    let (name, table) = named;
    push_list_front(text, b"table", name.bytes(), table.ty())?;
    push_values(text, table)
}

// Appends the values of a table, each behind a space.
fn push_values(text: &mut Vec<u8>, table: &Table) -> Result<(), AllocError>
    ensures { OnOk result (text.new.items ≡ text.old.items ++ behind_spaces (number_words table.now.values)) }
{
    for i in 0..table.len() {
        push_number(text, b' ', table.value(i))?;
    }
    Ok(())
}

// Appends the keyword, the name and the type that the line of an axis or a table begins with.
fn push_list_front(
    text: &mut Vec<u8>,
    keyword: &[u8],
    name: &[u8],
    ty: Ty,
) -> Result<(), AllocError>
    ensures { OnOk result (text.new.items ≡ text.old.items ++ 10 ∷ spaced (keyword.now ∷ name.now ∷ type_word ty ∷ [])) }
{
    push_piece(text, b'\n', keyword)?;
    push_piece(text, b' ', name)?;
    push_piece(text, b' ', type_word(ty))
}

// Appends the lines of the wires, each behind the line feed of the line above.
fn push_wires(text: &mut Vec<u8>, net: &Network) -> Result<(), AllocError>
    ensures { OnOk result (text.new.items ≡ text.old.items ++ lines_below (map (wire_words net.now) net.now.wires)) }
{
    for wire in net.wires() {
        push_wire(text, net, wire)?;
    }
    Ok(())
}

// Appends the lines of the outputs, each behind the line feed of the line above.
fn push_outs(text: &mut Vec<u8>, net: &Network) -> Result<(), AllocError>
    ensures { OnOk result (text.new.items ≡ text.old.items ++ lines_below (map (out_words net.now.wires) net.now.outs)) }
{
    let wires = net.wires();
    for out in net.outs() {
        push_out(text, wires, *out)?;
    }
    Ok(())
}

fn push_out(text: &mut Vec<u8>, wires: &[Wire], out: WireNo) -> Result<(), AllocError>
    ensures { OnOk result (text.new.items ≡ text.old.items ++ 10 ∷ spaced (out_words wires.now out)) }
{
    push_piece(text, b'\n', b"out")?;
    push_piece(text, b' ', name_of(wires, out))
}

fn push_wire(text: &mut Vec<u8>, net: &Network, wire: &Wire) -> Result<(), AllocError>
    requires { item_agrees net.now wire.now.kind wire.now.item ≡ true }
    ensures { OnOk result (text.new.items ≡ text.old.items ++ 10 ∷ spaced (wire_words net.now wire.now)) }
{
    let name = wire.name.bytes();
    match wire.item {
        Item::Input { lo, hi } => push_input(text, net.axes(), name, wire.kind, lo, hi),
        Item::Const { value } => push_const(text, net.axes(), name, wire.kind, value),
        Item::Delay { init, source } => {
            let source = name_of(net.wires(), source);
            push_delay(text, net.axes(), name, wire.kind, init, source)
        }
        Item::Block(block) => {
            let form = form_in(net.axes(), net.tables(), block);
            push_block(text, net, name, wire.kind, &form)
        }
    }
}

fn push_input(
    text: &mut Vec<u8>,
    axes: &[(Name, Axis)],
    name: &[u8],
    kind: Kind,
    lo: i64,
    hi: i64,
) -> Result<(), AllocError>
    ensures { OnOk result (text.new.items ≡ text.old.items ++ 10 ∷ spaced (codes "in" ∷ name.now ∷ kind_word axes.now kind ∷ signed_decimal lo ∷ signed_decimal hi ∷ [])) }
{
    push_front(text, axes, b"in", name, kind)?;
    push_number(text, b' ', lo)?;
    push_number(text, b' ', hi)
}

fn push_const(
    text: &mut Vec<u8>,
    axes: &[(Name, Axis)],
    name: &[u8],
    kind: Kind,
    value: i64,
) -> Result<(), AllocError>
    ensures { OnOk result (text.new.items ≡ text.old.items ++ 10 ∷ spaced (codes "const" ∷ name.now ∷ kind_word axes.now kind ∷ signed_decimal value ∷ [])) }
{
    push_front(text, axes, b"const", name, kind)?;
    push_number(text, b' ', value)
}

fn push_delay(
    text: &mut Vec<u8>,
    axes: &[(Name, Axis)],
    name: &[u8],
    kind: Kind,
    init: i64,
    source: &[u8],
) -> Result<(), AllocError>
    ensures { OnOk result (text.new.items ≡ text.old.items ++ 10 ∷ spaced (codes "delay" ∷ name.now ∷ kind_word axes.now kind ∷ signed_decimal init ∷ codes "=" ∷ source.now ∷ [])) }
{
    push_front(text, axes, b"delay", name, kind)?;
    push_number(text, b' ', init)?;
    push_piece(text, b' ', b"=")?;
    push_piece(text, b' ', source)
}

fn push_block(
    text: &mut Vec<u8>,
    net: &Network,
    name: &[u8],
    kind: Kind,
    form: &Form,
) -> Result<(), AllocError>
    requires { takes_form form.now ≡ true }
    ensures { OnOk result (text.new.items ≡ text.old.items ++ 10 ∷ spaced (codes "wire" ∷ name.now ∷ kind_word net.now.axes kind ∷ codes "=" ∷ form_words net.now form.now)) }
{
    push_front(text, net.axes(), b"wire", name, kind)?;
    push_routine(text, form)?;
    push_given(text, net, form)
}

// Appends the keyword, the name and the type that a wire's line begins with.
fn push_front(
    text: &mut Vec<u8>,
    axes: &[(Name, Axis)],
    keyword: &[u8],
    name: &[u8],
    kind: Kind,
) -> Result<(), AllocError>
    ensures { OnOk result (text.new.items ≡ text.old.items ++ 10 ∷ spaced (keyword.now ∷ name.now ∷ kind_word axes.now kind ∷ [])) }
{
    push_piece(text, b'\n', keyword)?;
    push_piece(text, b' ', name)?;
    push_kind(text, axes, kind)
}

// Appends the name of a form's routine behind an equals sign.
fn push_routine(text: &mut Vec<u8>, form: &Form) -> Result<(), AllocError>
    requires { takes_form form.now ≡ true }
    ensures { OnOk result (text.new.items ≡ text.old.items ++ behind_spaces (codes "=" ∷ routine_name form.now.routine form.now.types ∷ [])) }
{
    push_piece(text, b' ', b"= ")?;
    push_name(text, form.routine, form.types)
}

// Appends what a form is given, each word behind a space.
fn push_given(text: &mut Vec<u8>, net: &Network, form: &Form) -> Result<(), AllocError>
    ensures { OnOk result (text.new.items ≡ text.old.items ++ behind_spaces (given_words net.now form.now)) }
{
    push_arguments(text, net.wires(), form.wires.as_slice())?;
    let signature = signature_of(form.routine, form.types);
    push_lists(text, net, signature.lists.as_slice(), form.lists.as_slice())?;
    push_numbers(text, form.numbers.as_slice())
}

// Appends the names of axes and tables, one for each sort.
#[tactic(auto, unfolding(crate::specs::Printing::list_words))]
fn push_lists(
    text: &mut Vec<u8>,
    net: &Network,
    sorts: &[ListSort],
    lists: &[u32],
) -> Result<(), AllocError>
    ensures { OnOk result (text.new.items ≡ text.old.items ++ behind_spaces (list_words net.now sorts.now lists.now)) }
{
    for i in 0..sorts.len().min(lists.len()) {
        push_piece(text, b' ', name_of_list(net, sorts[i], lists[i]))?;
    }
    Ok(())
}

// The name of an axis or a table, by its sort.
fn name_of_list(net: &Network, sort: ListSort, list: u32) -> &[u8]
    ensures { result.now ≡ list_word net.now sort list }
{
    match sort {
        ListSort::AxisOf(_) => name_of_axis(net.axes(), list),
        ListSort::TableOf(_) | ListSort::TableOver(..) => name_of_table(net.tables(), list),
    }
}

fn push_arguments(text: &mut Vec<u8>, all: &[Wire], wires: &[WireNo]) -> Result<(), AllocError>
    ensures { OnOk result (text.new.items ≡ text.old.items ++ behind_spaces (argument_words all.now wires.now)) }
{
    for wire in wires {
        push_piece(text, b' ', name_of(all, *wire))?;
    }
    Ok(())
}

fn push_numbers(text: &mut Vec<u8>, numbers: &[i64]) -> Result<(), AllocError>
    ensures { OnOk result (text.new.items ≡ text.old.items ++ behind_spaces (number_words numbers.now)) }
{
    for number in numbers {
        push_number(text, b' ', *number)?;
    }
    Ok(())
}

// Appends the type word of a kind behind a space.
fn push_kind(text: &mut Vec<u8>, axes: &[(Name, Axis)], kind: Kind) -> Result<(), AllocError>
    ensures { OnOk result (text.new.items ≡ text.old.items ++ 32 ∷ kind_word axes.now kind) }
{
    match kind {
        Kind::Num(ty, point) => {
            push_piece(text, b' ', type_word(ty))?;
            push_point(text, point)
        }
        Kind::Truth => push_piece(text, b' ', b"bool"),
        Kind::Position(axis) => {
            push_piece(text, b' ', b"dp:")?;
            text.extend_from_slice(name_of_axis(axes, axis))
        }
    }
}

// Appends a binary point.
fn push_point(text: &mut Vec<u8>, point: u8) -> Result<(), AllocError>
    ensures { OnOk result (text.new.items ≡ text.old.items ++ point_word point) }
{
    if point == 0 {
        return Ok(());
    }
    push_number(text, b'.', i64::from(point))
}

// Appends a number behind the byte that stands between it and what is before.
fn push_number(text: &mut Vec<u8>, between: u8, number: i64) -> Result<(), AllocError>
    ensures { OnOk result (text.new.items ≡ text.old.items ++ between ∷ signed_decimal number) }
{
    let mut digits = Buffer::new();
    push_piece(text, between, digits.format(number).as_bytes())
}

// Appends a piece of a line behind the byte that stands between it and what is before.
fn push_piece(text: &mut Vec<u8>, between: u8, piece: &[u8]) -> Result<(), AllocError>
    ensures { OnOk result (text.new.items ≡ text.old.items ++ between ∷ piece.now) }
{
    text.push(between)?;
    text.extend_from_slice(piece)
}

// The name of a wire.
fn name_of(wires: &[Wire], wire: WireNo) -> &[u8]
    ensures { result.now ≡ (wire_at wires.now wire.0).name }
{
    match wires.get(wire.0 as usize) {
        Some(wire) => wire.name.bytes(),
        None => b"",
    }
}

// The name of an axis.
fn name_of_axis(axes: &[(Name, Axis)], axis: u32) -> &[u8]
    ensures { result.now ≡ name_of_axis axes.now axis }
{
    match axes.get(axis as usize) {
        Some(named) => named.0.bytes(),
        None => b"",
    }
}

// The name of a table.
fn name_of_table(tables: &[(Name, Table)], table: u32) -> &[u8]
    ensures { result.now ≡ name_of_table tables.now table }
{
    match tables.get(table as usize) {
        Some(named) => named.0.bytes(),
        None => b"",
    }
}
