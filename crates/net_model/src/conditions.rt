// The conditions of blocks, over their forms: a draft and a line of a text make the same tests.

ghost use Rattle.std.specs.Prelude.{◌≡◌, ◌<◌, IfSome, length};
ghost use Rattle.net_model.specs.BlockForms.{in_range, in_ranges};
ghost use Rattle.net_model.specs.Wires.{axis_at, last_position, table_at, wire_at};
ghost use Rattle.net_model.specs.Families.{list_or_zero};
ghost use Rattle.net_model.specs.Drafts.{data_of};
ghost use Rattle.net_model.specs.Validity.{agrees, form_agrees, has_good_numbers, is_built_block, is_good_kind, is_number_of, is_good_source, is_axis_of, is_kind_there, is_list, is_of_sort, is_plain, is_position_on, is_position_over, is_table_of, item_is_sourced, kind_holds, lists_agree, numbers_fit, reads_earlier, same_kind, wires_agree, wires_earlier};
ghost use Rattle.net_model.specs.Faults.{first_unsourced};

use crate::block_forms::{Form, adds_no_number, form_in, form_of, repeats_first};
use crate::families::{is_built, list_or_zero, signature_of};
use crate::naming::Name;
use crate::network::Draft;
use crate::signatures::{ListSort, Range, Sort};
use crate::wires::{Block, Item, Kind, Wire, WireNo};
use fx_core::Ty;
use fx_routines::takes;
use ifx_curves::Table;
use ifx_search::Axis;

// The greatest binary point.
const GREATEST_POINT: u8 = 15;

/// Whether networks can have the block's routine as a block.
pub fn is_built_block(block: Block) -> bool
    ensures { result ≡ is_built_block block }
{
    is_built(form_of(block).routine)
}

/// Whether each wire that a block of wire `i` reads is an earlier one.
pub fn reads_earlier(i: usize, block: Block) -> bool
    ensures { result ≡ reads_earlier i block }
{
    wires_earlier(i, form_of(block).wires.as_slice())
}

fn wires_earlier(i: usize, wires: &[WireNo]) -> bool
    ensures { result ≡ wires_earlier i wires.now }
{
    wires.iter().all(|wire| (wire.0 as usize) < i)
}

/// Whether a block agrees with the wires that it reads and with the kind of its own.
pub fn agrees(draft: &Draft, kind: Kind, block: &Block) -> bool
    ensures { result ≡ agrees (data_of draft.now) kind block.now }
{
    let form = form_in(&draft.axes, &draft.tables, *block);
    form_agrees(draft, kind, &form) && repeats_first(block)
}

/// Whether the types of a form, of its wires and of the wire that it gives agree.
pub fn form_agrees(draft: &Draft, kind: Kind, form: &Form) -> bool
    ensures { result ≡ form_agrees (data_of draft.now) kind form.now }
{
    let signature = signature_of(form.routine, form.types);
    let lists = form.lists.as_slice();
    takes(form.routine, form.types)
        && lists_agree(draft, signature.lists.as_slice(), lists)
        && wires_agree(
            draft,
            lists,
            signature.sorts.as_slice(),
            form.wires.as_slice(),
        )
        && is_of_sort(draft, lists, signature.gives, kind)
}

// Whether there is one list for each sort, of that sort.
#[tactic(auto, using(crate::proofs::SideBySide::other_count))]
fn lists_agree(draft: &Draft, sorts: &[ListSort], lists: &[u32]) -> bool
    ensures { result ≡ lists_agree (data_of draft.now) lists.now sorts.now lists.now }
{
    if sorts.len() != lists.len() {
        return false;
    }
    for i in 0..sorts.len() {
        if !is_list(draft, lists, sorts[i], lists[i]) {
            return false;
        }
    }
    true
}

fn is_list(draft: &Draft, lists: &[u32], sort: ListSort, list: u32) -> bool
    ensures { result ≡ is_list (data_of draft.now) lists.now sort list }
{
    match sort {
        ListSort::AxisOf(ty) => is_axis_of(&draft.axes, ty, list),
        ListSort::TableOf(ty) => is_table_of(&draft.tables, ty, list),
        ListSort::TableOver(ty, place) => {
            is_table_of(&draft.tables, ty, list)
                && points_of(&draft.axes, list_or_zero(lists, place as usize))
                    == values_of(&draft.tables, list)
        }
    }
}

fn is_axis_of(axes: &[(Name, Axis)], ty: Ty, axis: u32) -> bool
    ensures { result ≡ is_axis_of axes.now ty axis }
{
    match axes.get(axis as usize) {
        Some(named) => ty == named.1.ty(),
        None => false,
    }
}

fn is_table_of(tables: &[(Name, Table)], ty: Ty, table: u32) -> bool
    ensures { result ≡ is_table_of tables.now ty table }
{
    match tables.get(table as usize) {
        Some(named) => ty == named.1.ty(),
        None => false,
    }
}

// How many points an axis has, and none where there is no such axis.
fn points_of(axes: &[(Name, Axis)], axis: u32) -> u32
    ensures { result ≡ length (axis_at axes.now axis).points }
{
    match axes.get(axis as usize) {
        Some(named) => named.1.len(),
        None => 0,
    }
}

// How many values a table has, likewise.
fn values_of(tables: &[(Name, Table)], table: u32) -> u32
    ensures { result ≡ length (table_at tables.now table).values }
{
    match tables.get(table as usize) {
        Some(named) => named.1.len(),
        None => 0,
    }
}

// Whether there is one wire for each sort, of that sort.
#[tactic(auto, using(crate::proofs::SideBySide::other_count))]
fn wires_agree(draft: &Draft, lists: &[u32], sorts: &[Sort], wires: &[WireNo]) -> bool
    ensures { result ≡ wires_agree (data_of draft.now) lists.now sorts.now wires.now }
{
    if sorts.len() != wires.len() {
        return false;
    }
    for i in 0..sorts.len() {
        if !is_of_sort(draft, lists, sorts[i], kind_of(&draft.wires, wires[i])) {
            return false;
        }
    }
    true
}

fn is_of_sort(draft: &Draft, lists: &[u32], sort: Sort, kind: Kind) -> bool
    ensures { result ≡ is_of_sort (data_of draft.now) lists.now sort kind }
{
    match sort {
        Sort::Number(ty) => is_number_of(ty, kind),
        Sort::Truth => matches!(kind, Kind::Truth),
        Sort::On(place) => is_position_on(list_or_zero(lists, place as usize), kind),
        Sort::Over(place) => {
            let values = values_of(&draft.tables, list_or_zero(lists, place as usize));
            is_position_over(&draft.axes, values, kind)
        }
    }
}

fn is_number_of(ty: Ty, kind: Kind) -> bool
    ensures { result ≡ is_number_of ty kind }
{
    match kind {
        Kind::Num(number, _) => ty == number,
        Kind::Truth | Kind::Position(_) => false,
    }
}

fn is_position_on(list: u32, kind: Kind) -> bool
    ensures { result ≡ is_position_on list kind }
{
    match kind {
        Kind::Position(axis) => axis == list,
        Kind::Num(..) | Kind::Truth => false,
    }
}

// A position on an axis of so many points.
fn is_position_over(axes: &[(Name, Axis)], points: u32, kind: Kind) -> bool
    ensures { result ≡ is_position_over axes.now points kind }
{
    match kind {
        Kind::Position(axis) => (axis as usize) < axes.len() && points_of(axes, axis) == points,
        Kind::Num(..) | Kind::Truth => false,
    }
}

/// Whether a kind is a number or a truth value, which recordings and constants have.
pub fn is_plain(kind: Kind) -> bool
    ensures { result ≡ is_plain kind }
{
    match kind {
        Kind::Num(..) | Kind::Truth => true,
        Kind::Position(_) => false,
    }
}

/// Whether the axis of a kind is one of these.
pub fn is_kind_there(axes: &[(Name, Axis)], kind: Kind) -> bool
    ensures { result ≡ is_kind_there axes.now kind }
{
    match kind {
        Kind::Num(..) | Kind::Truth => true,
        Kind::Position(axis) => (axis as usize) < axes.len(),
    }
}

/// The position of an axis's last point, and 0 where there is no such axis.
pub fn last_position(axes: &[(Name, Axis)], axis: u32) -> u32
    ensures { result ≡ last_position (axis_at axes.now axis) }
{
    match axes.get(axis as usize) {
        Some(named) => 65_536 * (named.1.len() - 1),
        None => 0,
    }
}

/// Whether the numbers of a block lie in their ranges. One that its routine doesn't have is 0.
pub fn has_good_numbers(block: &Block) -> bool
    ensures { result ≡ has_good_numbers block.now }
{
    numbers_fit(&form_of(*block)) && adds_no_number(block)
}

fn numbers_fit(form: &Form) -> bool
    ensures { result ≡ numbers_fit form.now }
{
    let signature = signature_of(form.routine, form.types);
    in_ranges(signature.ranges.as_slice(), form.numbers.as_slice())
}

/// Whether there is one number for each range, in that range.
#[tactic(auto, using(crate::proofs::SideBySide::other_count))]
pub fn in_ranges(ranges: &[Range], numbers: &[i64]) -> bool
    ensures { result ≡ in_ranges ranges.now numbers.now }
{
    if ranges.len() != numbers.len() {
        return false;
    }
    for i in 0..ranges.len() {
        if !in_range(ranges[i], numbers[i]) {
            return false;
        }
    }
    true
}

/// Whether a number lies in a range.
pub fn in_range(range: Range, number: i64) -> bool
    ensures { result ≡ in_range range number }
{
    i64::from(range.low) <= number && number <= i64::from(range.high)
}

// The kind of a wire. A number past the last is looked at as `u8`.
fn kind_of(wires: &[Wire], wire: WireNo) -> Kind
    ensures { result ≡ (wire_at wires.now wire.0).kind }
{
    match wires.get(wire.0 as usize) {
        Some(wire) => wire.kind,
        None => Kind::Num(Ty::U8, 0),
    }
}

/// Whether the binary point of a kind is at most 15.
pub fn is_good_kind(kind: Kind) -> bool
    ensures { result ≡ is_good_kind kind }
{
    match kind {
        Kind::Num(_, point) => point <= GREATEST_POINT,
        Kind::Truth | Kind::Position(_) => true,
    }
}

/// The first delay whose source isn't a wire of the delay's very kind, if there is one. The source may stand
/// anywhere among the wires.
pub fn first_unsourced(wires: &[Wire]) -> Option<usize>
    ensures place { result ≡ first_unsourced wires.now }
    ensures below { IfSome result (λ place. place < length wires.now) }
{
    wires
        .iter()
        .position(|wire| !is_sourced(wires, wire.kind, wire.item))
}

fn is_sourced(all: &[Wire], kind: Kind, item: Item) -> bool
    ensures { result ≡ item_is_sourced all.now kind item }
{
    match item {
        Item::Delay { source, .. } => is_good_source(all, kind, source),
        _ => true,
    }
}

fn is_good_source(all: &[Wire], kind: Kind, source: WireNo) -> bool
    ensures { result ≡ is_good_source all.now kind source }
{
    match all.get(source.0 as usize) {
        Some(wire) => same_kind(kind, wire.kind),
        None => false,
    }
}

fn same_kind(one: Kind, other: Kind) -> bool
    ensures { result ≡ same_kind one other }
{
    match (one, other) {
        (Kind::Num(ty, point), Kind::Num(other_ty, other_point)) => {
            ty == other_ty && point == other_point
        }
        (Kind::Truth, Kind::Truth) => true,
        (Kind::Position(axis), Kind::Position(other_axis)) => axis == other_axis,
        _ => false,
    }
}

/// Whether a value lies in the kind, in a network with these axes.
pub fn kind_holds(axes: &[(Name, Axis)], kind: Kind, value: i64) -> bool
    ensures { result ≡ kind_holds axes.now kind value }
{
    match kind {
        Kind::Num(ty, _) => ty.holds(value),
        Kind::Truth => 0 <= value && value <= 1,
        Kind::Position(axis) => 0 <= value && value <= i64::from(last_position(axes, axis)),
    }
}
