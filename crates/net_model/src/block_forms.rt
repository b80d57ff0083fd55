// The form of a block: what it is given.
ghost use Rattle.std.specs.Prelude.{◌≡◌, ◌==◌, pos};
ghost use Rattle.std.specs.List.{list_all};
ghost use Rattle.std.specs.Ordering.{int_eq};
ghost use Rattle.net_model.specs.Families.{list_or_zero};
ghost use Rattle.net_model.specs.BlockForms.{adds_no_number, form_of, repeats_first, typed, types_over};
ghost use Rattle.net_model.specs.Wires.{axis_at, table_at};

use crate::families::{first_of, held_by, list_or_zero, one_type, signature_of};
use crate::naming::Name;
use crate::rooms::Few;
use crate::signatures::Signature;
use crate::wires::{Block, WireNo};
use fx_core::Ty;
use fx_routines::{InterpolationOp, Routine, Types};
use ifx_curves::Table;
use ifx_search::Axis;

/// The form of a block: its routine, with its types, and what it is given. Wires stand before the numbers of
/// axes and tables, and these before numbers, each in the order of the routine's line.
#[derive(Drop)]
pub struct Form {
    pub routine: Routine,
    pub types: Types,
    pub wires: Few<WireNo>,
    pub lists: Few<u32>,
    pub numbers: Few<i64>,
}

/// The form of a block: of what it holds, as many wires and numbers as its routine has. It is without the
/// types of a curve, which its axis and its table have.
#[tactic(auto, unfolding(crate::specs::BlockForms::form_of))]
pub fn form_of(block: Block) -> Form
    ensures { result ≡ form_of block }
{
    let Form {
        routine,
        types,
        wires,
        lists,
        numbers,
    } = held_by(block);
    let Signature { sorts, ranges, .. } = signature_of(routine, types);
    Form {
        routine,
        types,
        wires: wires.first(sorts.as_slice().len()),
        lists,
        numbers: numbers.first(ranges.as_slice().len()),
    }
}

/// The form of a block of a network with these axes and tables, with all types.
pub fn form_in(axes: &[(Name, Axis)], tables: &[(Name, Table)], block: Block) -> Form
    ensures { result ≡ typed axes.now tables.now (form_of block) }
{
    let Form {
        routine,
        types,
        wires,
        lists,
        numbers,
    } = form_of(block);
    let types = types_over(axes, tables, routine, types, lists.as_slice());
    Form {
        routine,
        types,
        wires,
        lists,
        numbers,
    }
}

// The types of a routine over lists: a curve's are those of its axis and its table.
fn types_over(
    axes: &[(Name, Axis)],
    tables: &[(Name, Table)],
    routine: Routine,
    types: Types,
    lists: &[u32],
) -> Types
    ensures { result ≡ types_over axes.now tables.now routine types lists.now }
{
    match routine {
        Routine::Interpolation(InterpolationOp::Curve(_)) => {
            one_type(type_of_table(tables, list_or_zero(lists, 0)))
        }
        Routine::Interpolation(InterpolationOp::IntCurve(_)) => {
            let x = type_of_axis(axes, list_or_zero(lists, 0));
            Types {
                x,
                y: x,
                o: type_of_table(tables, list_or_zero(lists, 1)),
            }
        }
        _ => types,
    }
}

// The type of an axis. A number past the last is looked at as `u8`.
fn type_of_axis(axes: &[(Name, Axis)], axis: u32) -> Ty
    ensures { result ≡ (axis_at axes.now axis).ty }
{
    match axes.get(axis as usize) {
        Some(named) => named.1.ty(),
        None => Ty::U8,
    }
}

// The type of a table, likewise.
fn type_of_table(tables: &[(Name, Table)], table: u32) -> Ty
    ensures { result ≡ (table_at tables.now table).ty }
{
    match tables.get(table as usize) {
        Some(named) => named.1.ty(),
        None => Ty::U8,
    }
}

/// Whether each wire that a block holds beyond those that its routine has repeats the first.
pub fn repeats_first(block: &Block) -> bool
    ensures { result ≡ repeats_first block.now }
{
    let Form {
        routine,
        types,
        wires,
        ..
    } = held_by(*block);
    let sorts = signature_of(routine, types).sorts;
    let form = form_of(*block);
    let first = first_of(form.wires.as_slice());
    all_are(first, wires.behind(sorts.as_slice().len()))
}

fn all_are(first: WireNo, wires: &[WireNo]) -> bool
    ensures { result ≡ list_all (λ w. w.0 == first.0) wires.now }
{
    wires.iter().all(|wire| wire.0 == first.0)
}

/// Whether each number that a block holds beyond those that its routine has is 0.
pub fn adds_no_number(block: &Block) -> bool
    ensures { result ≡ adds_no_number block.now }
{
    let Form {
        routine,
        types,
        numbers,
        ..
    } = held_by(*block);
    let ranges = signature_of(routine, types).ranges;
    all_zero(numbers.behind(ranges.as_slice().len()))
}

fn all_zero(numbers: &[i64]) -> bool
    ensures { result ≡ list_all (λ n. int_eq n (pos 0)) numbers.now }
{
    numbers.iter().all(|number| *number == 0)
}
