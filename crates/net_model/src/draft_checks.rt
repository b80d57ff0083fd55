// The conditions under which a draft is a network, tested in their order.
ghost use Rattle.std.specs.Prelude.{◌≡◌, ◌<◌, ◌≤◌, ◌*◌, ◌&&◌, ◌++◌, [], ◌||◌, bytes_eq, not, take, OnOk, length, int_le, true};
ghost use Rattle.std.specs.List.{list_any};
ghost use Rattle.text_words.specs.Names.{is_name};
ghost use Rattle.net_model.specs.Wires.{is_input, window_sum, wire_at};
ghost use Rattle.net_model.specs.Validity.{AreAxes, AreTables, IsNamedAxis, IsNamedTable, axis_names, has_ends, list_names, table_names, is_among, is_built_item, item_agrees, item_in_range, item_reads_earlier, kind_holds};
ghost use Rattle.net_model.specs.Faults.{are_named, at_wire, ends_tested, has_name, has_room, is_named, lists_tested, names_tested, out_tested, outs_tested, sources_tested, tested, wire_tested, wires_tested};
ghost use Rattle.text_words.specs.Steps.{demand};
ghost use Rattle.net_model.specs.declared.network.NetKind.TheVariants.{Repeated};
ghost use Rattle.net_model.specs.Drafts.{data_of};

use crate::conditions::{
    agrees, first_unsourced, has_good_numbers, is_built_block, is_good_kind, is_kind_there,
    is_plain, kind_holds, reads_earlier,
};
use crate::naming::Name;
use crate::network::{Draft, NetKind};
use crate::wires::{Item, Kind, Wire, WireNo};
use ifx_curves::Table;
use ifx_search::Axis;
use text_words::demand;

/// How many wires a network may have.
pub const MOST_WIRES: usize = 512;

/// How many axes a network may have, and how many tables.
pub const MOST_LISTS: usize = 64;

/// Over how many rows the averages of a network may go together.
pub const MOST_ROWS: u32 = 65_536;

/// Where a draft breaks a condition, and which: the number of the wire, or the number of wires for a
/// fault of no wire.
#[derive(Clone, Copy)]
pub struct Fault {
    pub wire: u32,
    pub kind: NetKind,
}

/// Finds the first fault of a draft, if it has one.
#[tactic(auto, unfolding(crate::specs::Faults::tested))]
pub fn check_draft(draft: &Draft) -> Result<(), Fault>
    ensures value { result ≡ tested (data_of draft.now) }
    ensures few { OnOk result (length draft.now.wires.items ≤ 512) }
    ensures named { OnOk result (are_named draft.now.wires.items ≡ true) }
    ensures axes { OnOk result (AreAxes draft.now.axes.items) }
    ensures tables { OnOk result (AreTables draft.now.tables.items) }
{
    check_wires(draft)?;
    check_sources(&draft.wires)?;
    at_wire(draft.wires.len(), check_ends(draft))
}

fn at_wire(wire: usize, tests: Result<(), NetKind>) -> Result<(), Fault>
    requires { wire ≤ 512 }
    ensures { result ≡ at_wire wire tests }
{
    match tests {
        Ok(()) => Ok(()),
        Err(kind) => Err(Fault {
            wire: wire as u32,
            kind,
        }),
    }
}

#[tactic(auto, unfolding(crate::specs::Faults::wires_tested))]
fn check_wires(draft: &Draft) -> Result<(), Fault>
    ensures value { result ≡ wires_tested (data_of draft.now) 0 draft.now.wires.items }
    ensures few { OnOk result (length draft.now.wires.items ≤ 512) }
    ensures named { OnOk result (are_named draft.now.wires.items ≡ true) }
{
    for i in 0..draft.wires.len() {
        at_wire(i, check_wire(draft, i))?;
    }
    Ok(())
}

// The tests of one wire.
#[tactic(auto, unfolding(crate::specs::Faults::wire_tested))]
fn check_wire(draft: &Draft, i: usize) -> Result<(), NetKind>
    requires { i < length draft.now.wires.items }
    ensures value { result ≡ wire_tested (data_of draft.now) i (wire_at draft.now.wires.items i) }
    ensures room { OnOk result (i < 512) }
    ensures named { OnOk result (is_name (wire_at draft.now.wires.items i).name ≡ true) }
{
    let Wire { name, kind, item } = &draft.wires[i];
    demand!(!is_taken(draft, i, name.bytes()), NetKind::Repeated);
    demand!(is_built_item(*item), NetKind::NotBuilt);
    demand!(item_reads_earlier(i, *item), NetKind::LaterWire);
    demand!(item_agrees(draft, *kind, *item), NetKind::TypeDiffers);
    demand!(
        is_good_kind(*kind) && item_in_range(&draft.axes, *kind, *item),
        NetKind::OutOfRange
    );
    demand(has_room(&draft.wires[..i], *item), NetKind::TooMany)
}

/// Whether there is room for one more wire behind those above: for the wire, and for the rows over which
/// it takes the mean.
pub fn has_room(above: &[Wire], item: Item) -> bool
    ensures value { result ≡ has_room above.now item }
    ensures room { result ≡ true → length above.now < 512 }
{
    above.len() < MOST_WIRES && window_sum(above) + u32::from(item.window()) <= MOST_ROWS
}

// Over how many rows the averages among wires go together.
fn window_sum(wires: &[Wire]) -> u32
    requires { length wires.now ≤ 512 }
    ensures value { result ≡ window_sum wires.now }
    ensures small { result ≤ 512 * 65535 }
{
    let mut rows = 0;
    for i in 0..wires.len() {
        rows += u32::from(wires[i].item.window());
    }
    rows
}

fn has_name(wires: &[Wire], name: &[u8]) -> bool
    ensures { result ≡ has_name wires.now name.now }
{
    wires.iter().any(|wire| name == wire.name.bytes())
}

// An axis, a table or a wire before number `i` has the name.
fn is_taken(draft: &Draft, i: usize, name: &[u8]) -> bool
    requires { i < length draft.now.wires.items }
    ensures { result ≡ (is_named (list_names (data_of draft.now)) name.now || has_name (take i draft.now.wires.items) name.now) }
{
    has_list(&draft.axes, &draft.tables, name) || has_name(&draft.wires[..i], name)
}

// An axis or a table has the name.
fn has_list(axes: &[(Name, Axis)], tables: &[(Name, Table)], name: &[u8]) -> bool
    ensures { result ≡ is_named (axis_names axes.now ++ table_names tables.now) name.now }
{
    if has_axis(axes, name) {
        return true;
    }
    has_table(tables, name)
}

fn has_axis(axes: &[(Name, Axis)], name: &[u8]) -> bool
    ensures { result ≡ is_named (axis_names axes.now) name.now }
{
    is_name_of_axis(axes, name)
}

fn is_name_of_axis(axes: &[(Name, Axis)], name: &[u8]) -> bool
    ensures { result ≡ list_any (λ a. bytes_eq name.now a.0) axes.now }
{
    axes.iter().any(|named| name == named.0.bytes())
}

fn has_table(tables: &[(Name, Table)], name: &[u8]) -> bool
    ensures { result ≡ is_named (table_names tables.now) name.now }
{
    is_name_of_table(tables, name)
}

fn is_name_of_table(tables: &[(Name, Table)], name: &[u8]) -> bool
    ensures { result ≡ list_any (λ t. bytes_eq name.now t.0) tables.now }
{
    tables.iter().any(|named| name == named.0.bytes())
}

fn is_built_item(item: Item) -> bool
    ensures { result ≡ is_built_item item }
{
    match item {
        Item::Input { .. } | Item::Const { .. } | Item::Delay { .. } => true,
        Item::Block(block) => is_built_block(block),
    }
}

fn item_reads_earlier(i: usize, item: Item) -> bool
    ensures { result ≡ item_reads_earlier i item }
{
    match item {
        Item::Input { .. } | Item::Const { .. } | Item::Delay { .. } => true,
        Item::Block(block) => reads_earlier(i, block),
    }
}

fn item_agrees(draft: &Draft, kind: Kind, item: Item) -> bool
    ensures { result ≡ item_agrees (data_of draft.now) kind item }
{
    match item {
        Item::Input { .. } | Item::Const { .. } => is_plain(kind),
        Item::Delay { .. } => is_kind_there(&draft.axes, kind),
        Item::Block(block) => agrees(draft, kind, &block),
    }
}

fn item_in_range(axes: &[(Name, Axis)], kind: Kind, item: Item) -> bool
    ensures { result ≡ item_in_range axes.now kind item }
{
    match item {
        Item::Input { lo, hi } => is_range(axes, kind, lo, hi),
        Item::Const { value } => kind_holds(axes, kind, value),
        Item::Delay { init, .. } => kind_holds(axes, kind, init),
        Item::Block(block) => has_good_numbers(&block),
    }
}

/// Whether a range isn't empty and lies in the kind.
pub fn is_range(axes: &[(Name, Axis)], kind: Kind, lo: i64, hi: i64) -> bool
    ensures { result ≡ (kind_holds axes.now kind lo && kind_holds axes.now kind hi && int_le lo hi) }
{
    kind_holds(axes, kind, lo) && kind_holds(axes, kind, hi) && lo <= hi
}

// The tests of the delays' sources.
#[tactic(auto, unfolding(crate::specs::Faults::sources_tested))]
fn check_sources(wires: &[Wire]) -> Result<(), Fault>
    requires { length wires.now ≤ 512 }
    ensures { result ≡ sources_tested wires.now }
{
    match first_unsourced(wires) {
        Some(wire) => Err(Fault {
            wire: wire as u32,
            kind: NetKind::TypeDiffers,
        }),
        None => Ok(()),
    }
}

// The tests of no wire.
#[tactic(auto, unfolding(crate::specs::Faults::ends_tested))]
fn check_ends(draft: &Draft) -> Result<(), NetKind>
    ensures value { result ≡ ends_tested (data_of draft.now) }
    ensures axes { OnOk result (AreAxes draft.now.axes.items) }
    ensures tables { OnOk result (AreTables draft.now.tables.items) }
{
    check_lists(draft)?;
    check_outs(&draft.outs, draft.wires.len())?;
    demand(has_ends(&draft.wires, &draft.outs), NetKind::Missing)
}

// The tests of the axes and the tables. Both are what they may be, by their types.
#[tactic(auto, unfolding(crate::specs::Faults::lists_tested))]
fn check_lists(draft: &Draft) -> Result<(), NetKind>
    ensures value { result ≡ lists_tested (data_of draft.now) }
    ensures axes { OnOk result (AreAxes draft.now.axes.items) }
    ensures tables { OnOk result (AreTables draft.now.tables.items) }
{
    check_axes(&draft.axes)?;
    demand!(draft.axes.len() <= MOST_LISTS, NetKind::TooMany);
    check_tables(&draft.axes, &draft.tables)?;
    demand(draft.tables.len() <= MOST_LISTS, NetKind::TooMany)
}

// The tests of the axes' names.
#[tactic(auto, unfolding(crate::specs::Faults::names_tested))]
fn check_axes(axes: &[(Name, Axis)]) -> Result<(), NetKind>
    ensures value { result ≡ names_tested [] (axis_names axes.now) }
    ensures axes { OnOk result (AreAxes axes.now) }
{
    for i in 0..axes.len() {
        check_axis(&axes[..i], &axes[i])?;
    }
    Ok(())
}

// One axis, below those above.
fn check_axis(above: &[(Name, Axis)], named: &(Name, Axis)) -> Result<(), NetKind>
    ensures value { result ≡ demand (not (is_named (axis_names above.now) named.now.0)) Repeated }
    ensures axis { IsNamedAxis named.now }
{
    let (name, axis) = named;
    let _points = axis.len();
    let _spacing = axis.spacing();
    demand(!has_axis(above, name.bytes()), NetKind::Repeated)
}

// The tests of the tables' names, below those of the axes.
#[tactic(auto, unfolding(crate::specs::Faults::names_tested))]
fn check_tables(axes: &[(Name, Axis)], tables: &[(Name, Table)]) -> Result<(), NetKind>
    ensures value { result ≡ names_tested (axis_names axes.now) (table_names tables.now) }
    ensures tables { OnOk result (AreTables tables.now) }
{
    for i in 0..tables.len() {
        check_table(axes, &tables[..i], &tables[i])?;
    }
    Ok(())
}

// One table, below the axes and the tables above.
fn check_table(
    axes: &[(Name, Axis)],
    above: &[(Name, Table)],
    named: &(Name, Table),
) -> Result<(), NetKind>
    ensures value { result ≡ demand (not (is_named (axis_names axes.now ++ table_names above.now) named.now.0)) Repeated }
    ensures table { IsNamedTable named.now }
{
    let (name, table) = named;
    let _values = table.len();
    let name = name.bytes();
    demand(!has_list(axes, above, name), NetKind::Repeated)
}

#[tactic(auto, unfolding(crate::specs::Faults::outs_tested))]
fn check_outs(outs: &[WireNo], count: usize) -> Result<(), NetKind>
    ensures { result ≡ outs_tested count [] outs.now }
{
    for i in 0..outs.len() {
        check_out(&outs[..i], outs[i], count)?;
    }
    Ok(())
}

// One output, below those above.
#[tactic(auto, unfolding(crate::specs::Faults::out_tested))]
fn check_out(above: &[WireNo], out: WireNo, count: usize) -> Result<(), NetKind>
    ensures { result ≡ out_tested count above.now out }
{
    demand!(!is_among(above, out), NetKind::Repeated);
    demand((out.0 as usize) < count, NetKind::LaterWire)
}

fn is_among(above: &[WireNo], out: WireNo) -> bool
    ensures { result ≡ is_among above.now out }
{
    above.iter().any(|other| out.0 == other.0)
}

/// Whether there is an input and an output.
pub fn has_ends(wires: &[Wire], outs: &[WireNo]) -> bool
    ensures { result ≡ has_ends wires.now outs.now }
{
    has_input(wires) && !outs.is_empty()
}

fn has_input(wires: &[Wire]) -> bool
    ensures { result ≡ list_any (λ w. is_input w.item) wires.now }
{
    wires.iter().any(|wire| wire.item.is_input())
}
