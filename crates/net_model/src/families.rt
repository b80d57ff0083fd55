// The families, one arm each: which routines are built, what a routine takes and gives, what a block
// holds, and the block of what is given.
ghost use Rattle.std.specs.Prelude.{◌≡◌, [], ◌∷◌, map, pos, true};
ghost use Rattle.fx_routines.specs.Names.{takes};
ghost use Rattle.fx_routines.specs.Variants.{types};
ghost use Rattle.fx_routines.specs.declared.table.Routine.TheVariants.{Filter as NamedFilter, Interpolation as NamedInterpolation};
ghost use Rattle.mfx_arith.specs.Operations.{argument_types, is_smooth_operation, unsigned_of};
ghost use Rattle.mfx_scaled.specs.Operations.{argument_types as scaled_types};
ghost use Rattle.net_model.specs.declared.signatures.Sort.TheVariants.{Number};
ghost use Rattle.net_model.specs.declared.signatures.ListSort.TheVariants.{AxisOf, TableOver};
ghost use Rattle.net_model.specs.Families.{arith_ranges, block_of, filter_ranges, first_of, gains, held_by, is_built, list_or_zero, number_or_zero, signature_of, wire_or_first};
ghost use Rattle.net_model.specs.BlockForms.{in_range, in_ranges};

use crate::block_forms::Form;
use crate::rooms::Few;
use crate::signatures::{ListSort, Range, Signature, Sort};
use crate::wires::{Block, WireNo};
use fx_core::Ty;
use fx_routines::{ArithOp, CurveOp, FilterOp, InterpolationOp, Routine, ScaledOp, Types, Variant};

/// Whether the routine is built as a block.
pub fn is_built(routine: Routine) -> bool
    ensures { result ≡ is_built routine }
{
    match routine {
        Routine::Arith(op) => !matches!(op, ArithOp::Mod),
        Routine::Scaled(_) | Routine::Filter(_) => true,
        Routine::Interpolation(op) => is_built_interpolation(op),
        Routine::Bit(_) | Routine::Control(_) | Routine::Switch(_) => false,
    }
}

fn is_built_interpolation(op: InterpolationOp) -> bool
    ensures { result ≡ is_built (NamedInterpolation op) }
{
    match op {
        InterpolationOp::Search => true,
        InterpolationOp::Curve(op) | InterpolationOp::IntCurve(op) => op == CurveOp::Ipo,
        InterpolationOp::Map(_) | InterpolationOp::IntMap(_) => false,
    }
}

const NO_RANGE: Range = Range { low: 0, high: 0 };

const PLACES: Range = Range { low: 0, high: 15 };

// A gain, with 16 fractional bits.
const GAINS: Range = Range {
    low: i32::MIN,
    high: 2_147_483_647,
};

// The weight of an old state, in 1/65536.
const WEIGHTS: Range = Range {
    low: 0,
    high: 65_536,
};

// Over how many rows an average goes.
const COUNTS_OF_ROWS: Range = Range { low: 1, high: 1024 };

/// The signature of a routine at its types. One that isn't built has an empty one.
#[tactic(auto, unfolding(crate::specs::Families::signature_of))]
pub fn signature_of(routine: Routine, types: Types) -> Signature
    ensures { result ≡ signature_of routine types }
{
    match routine {
        Routine::Arith(op) => Signature {
            sorts: arith_sorts(op, types),
            lists: no_lists(),
            ranges: arith_ranges(op),
            gives: Sort::Number(types.o),
            smooth: op != ArithOp::Mod,
        },
        Routine::Scaled(op) => Signature {
            sorts: scaled_sorts(op, types),
            lists: no_lists(),
            ranges: Few::of([NO_RANGE; 4], 0),
            gives: Sort::Number(types.o),
            smooth: true,
        },
        Routine::Filter(op) => Signature {
            sorts: one(types.x),
            lists: no_lists(),
            ranges: filter_ranges(op),
            gives: Sort::Number(types.o),
            smooth: true,
        },
        Routine::Interpolation(op) => look_up_signature(op, types),
        _ => Signature {
            sorts: Few::of([Sort::Truth; 4], 0),
            lists: no_lists(),
            ranges: Few::of([NO_RANGE; 4], 0),
            gives: Sort::Number(types.o),
            smooth: false,
        },
    }
}

// The signature of an operation on axes, curves and maps.
#[tactic(auto, unfolding(crate::specs::Families::signature_of))]
fn look_up_signature(op: InterpolationOp, types: Types) -> Signature
    ensures { result ≡ signature_of (NamedInterpolation op) types }
{
    let ranges = Few::of([NO_RANGE; 4], 0);
    match op {
        InterpolationOp::Search => Signature {
            sorts: one(types.x),
            lists: Few::of([ListSort::AxisOf(types.x); 4], 1),
            ranges,
            gives: Sort::On(0),
            smooth: true,
        },
        InterpolationOp::Curve(op) => Signature {
            sorts: Few::of([Sort::Over(0); 4], 1),
            lists: Few::of([ListSort::TableOf(types.o); 4], 1),
            ranges,
            gives: Sort::Number(types.o),
            smooth: op == CurveOp::Ipo,
        },
        InterpolationOp::IntCurve(op) => Signature {
            sorts: one(types.x),
            lists: axis_and_table(types.x, types.o),
            ranges,
            gives: Sort::Number(types.o),
            smooth: op == CurveOp::Ipo,
        },
        InterpolationOp::Map(_) | InterpolationOp::IntMap(_) => Signature {
            sorts: Few::of([Sort::Truth; 4], 0),
            lists: no_lists(),
            ranges,
            gives: Sort::Number(types.o),
            smooth: false,
        },
    }
}

fn no_lists() -> Few<ListSort>
    ensures { result ≡ [] }
{
    Few::of([ListSort::AxisOf(Ty::U8); 4], 0)
}

// An axis, and a table with as many values.
fn axis_and_table(x: Ty, o: Ty) -> Few<ListSort>
    ensures { result ≡ AxisOf x ∷ TableOver o 0 ∷ [] }
{
    let axis = ListSort::AxisOf(x);
    Few::of([axis, ListSort::TableOver(o, 0), axis, axis], 2)
}

fn arith_sorts(op: ArithOp, types: Types) -> Few<Sort>
    ensures { result ≡ map Number (argument_types op types) }
{
    let Types { x, y, o } = types;
    match op {
        ArithOp::Abs => one(x),
        ArithOp::MulDiv => three(x, y, y),
        ArithOp::Limit => three(o, o, o),
        ArithOp::Min | ArithOp::Max => two(o, o),
        ArithOp::RateLimiter => three(o, o, unsigned_of(o)),
        ArithOp::Add
        | ArithOp::Sub
        | ArithOp::AbsDiff
        | ArithOp::Mul
        | ArithOp::Div
        | ArithOp::Mod
        | ArithOp::MulShRight
        | ArithOp::DivShLeft => two(x, y),
    }
}

// The unsigned type of a type's width.
fn unsigned_of(ty: Ty) -> Ty
    ensures { result ≡ unsigned_of ty }
{
    match ty {
        Ty::U8 | Ty::S8 => Ty::U8,
        Ty::U16 | Ty::S16 => Ty::U16,
        Ty::U32 | Ty::S32 => Ty::U32,
    }
}

// The ranges of the numbers in the lines of an operation.
fn arith_ranges(op: ArithOp) -> Few<Range>
    ensures { result ≡ arith_ranges op }
{
    match op {
        ArithOp::MulShRight | ArithOp::DivShLeft => Few::of([PLACES; 4], 1),
        _ => Few::of([NO_RANGE; 4], 0),
    }
}

// The ranges of the numbers in the lines of a filter.
fn filter_ranges(op: FilterOp) -> Few<Range>
    ensures { result ≡ filter_ranges op }
{
    match op {
        FilterOp::Gain => Few::of([GAINS; 4], 1),
        FilterOp::Average => Few::of([COUNTS_OF_ROWS; 4], 1),
        FilterOp::Pt1 | FilterOp::Dt1Typ1 | FilterOp::Dt1Typ2 => {
            Few::of([WEIGHTS, GAINS, NO_RANGE, NO_RANGE], 2)
        }
    }
}

fn scaled_sorts(op: ScaledOp, types: Types) -> Few<Sort>
    ensures { result ≡ map Number (scaled_types op types) }
{
    let Types { x, y, .. } = types;
    match op {
        ScaledOp::Convert => one(x),
        _ => two(x, y),
    }
}

fn one(x: Ty) -> Few<Sort>
    ensures { result ≡ Number x ∷ [] }
{
    Few::of([Sort::Number(x); 4], 1)
}

fn two(x: Ty, y: Ty) -> Few<Sort>
    ensures { result ≡ Number x ∷ Number y ∷ [] }
{
    Few::of(
        [Sort::Number(x), Sort::Number(y), Sort::Truth, Sort::Truth],
        2,
    )
}

fn three(x: Ty, y: Ty, z: Ty) -> Few<Sort>
    ensures { result ≡ Number x ∷ Number y ∷ Number z ∷ [] }
{
    let sorts = [
        Sort::Number(x),
        Sort::Number(y),
        Sort::Number(z),
        Sort::Truth,
    ];
    Few::of(sorts, 3)
}

/// All that a block holds, one arm a family: also the wires and numbers that its routine doesn't have.
pub fn held_by(block: Block) -> Form
    ensures { result ≡ held_by block }
{
    match block {
        Block::Arith { op, v, x, y, z, sh } => Form {
            routine: Routine::Arith(op),
            types: v.types(),
            wires: Few::of([x, y, z, x], 3),
            lists: no_list(),
            numbers: Few::of([i64::from(sh); 4], 1),
        },
        Block::Scaled { op, v, x, y } => Form {
            routine: Routine::Scaled(op),
            types: v.types(),
            wires: Few::of([x, y, x, x], 2),
            lists: no_list(),
            numbers: Few::of([0; 4], 0),
        },
        Block::Gain { xty, ty, x, k } => Form {
            routine: Routine::Filter(FilterOp::Gain),
            types: filter_types(xty, ty),
            wires: Few::of([x; 4], 1),
            lists: no_list(),
            numbers: Few::of([i64::from(k); 4], 1),
        },
        Block::Average { xty, ty, x, n } => Form {
            routine: Routine::Filter(FilterOp::Average),
            types: filter_types(xty, ty),
            wires: Few::of([x; 4], 1),
            lists: no_list(),
            numbers: Few::of([i64::from(n); 4], 1),
        },
        Block::Pt1 { xty, ty, x, teq, k } => Form {
            routine: Routine::Filter(FilterOp::Pt1),
            types: filter_types(xty, ty),
            wires: Few::of([x; 4], 1),
            lists: no_list(),
            numbers: weight_and_gain(teq, k),
        },
        Block::Dt1 {
            second,
            xty,
            ty,
            x,
            teq,
            k,
        } => Form {
            routine: Routine::Filter(if second {
                FilterOp::Dt1Typ2
            } else {
                FilterOp::Dt1Typ1
            }),
            types: filter_types(xty, ty),
            wires: Few::of([x; 4], 1),
            lists: no_list(),
            numbers: weight_and_gain(teq, k),
        },
        Block::Search { ty, x, axis } => Form {
            routine: Routine::Interpolation(InterpolationOp::Search),
            types: one_type(ty),
            wires: Few::of([x; 4], 1),
            lists: Few::of([axis; 4], 1),
            numbers: Few::of([0; 4], 0),
        },
        Block::Curve { op, dp, table } => Form {
            routine: Routine::Interpolation(InterpolationOp::Curve(op)),
            types: one_type(Ty::U8),
            wires: Few::of([dp; 4], 1),
            lists: Few::of([table; 4], 1),
            numbers: Few::of([0; 4], 0),
        },
        Block::IntCurve { op, x, axis, table } => Form {
            routine: Routine::Interpolation(InterpolationOp::IntCurve(op)),
            types: one_type(Ty::U8),
            wires: Few::of([x; 4], 1),
            lists: Few::of([axis, table, 0, 0], 2),
            numbers: Few::of([0; 4], 0),
        },
    }
}

fn no_list() -> Few<u32>
    ensures { result ≡ [] }
{
    Few::of([0; 4], 0)
}

/// One type for all inputs and the output.
pub fn one_type(ty: Ty) -> Types
    ensures { result ≡ types ty ty ty }
{
    Types {
        x: ty,
        y: ty,
        o: ty,
    }
}

// The types of a filter, which has one input.
fn filter_types(xty: Ty, ty: Ty) -> Types
    ensures { result ≡ types xty xty ty }
{
    Types {
        x: xty,
        y: xty,
        o: ty,
    }
}

// The numbers of a filter with a state.
fn weight_and_gain(teq: u32, k: i32) -> Few<i64>
    ensures { result ≡ pos teq ∷ k ∷ [] }
{
    Few::of([i64::from(teq), i64::from(k), 0, 0], 2)
}

/// The block of a form, one arm a family: at types that its routine takes, and with numbers in their
/// ranges.
#[tactic(auto, unfolding(crate::specs::Families::block_of, crate::specs::Families::signature_of), using(crate::proofs::FormTypes::one_width))]
pub fn block_of(form: &Form) -> Block
    requires built { is_built form.now.routine ≡ true }
    requires taken { takes form.now.routine form.now.types ≡ true }
    requires numbers { in_ranges (signature_of form.now.routine form.now.types).ranges form.now.numbers ≡ true }
    ensures { result ≡ block_of form.now }
{
    let wires = form.wires.as_slice();
    let numbers = form.numbers.as_slice();
    let x = wire_or_first(wires, 0);
    let y = wire_or_first(wires, 1);
    match form.routine {
        Routine::Arith(op) => Block::Arith {
            op,
            v: Variant::of(form.types),
            x,
            y,
            z: wire_or_first(wires, 2),
            sh: number_or_zero(numbers, 0).unsigned_abs() as u8,
        },
        Routine::Scaled(op) => Block::Scaled {
            op,
            v: Variant::of(form.types),
            x,
            y,
        },
        Routine::Filter(op) => filter_block(op, form.types, x, numbers),
        Routine::Interpolation(op) => look_up_block(op, form.types, x, form.lists.as_slice()),
        _ => unreachable!(),
    }
}

// The block of a filter.
#[tactic(auto, unfolding(crate::specs::Families::block_of))]
fn filter_block(op: FilterOp, types: Types, x: WireNo, numbers: &[i64]) -> Block
    requires { in_ranges (filter_ranges op) numbers.now ≡ true }
    ensures { result ≡ block_of (record { routine = NamedFilter op; types = types; wires = x ∷ []; lists = []; numbers = numbers.now }) }
{
    let xty = types.x;
    let ty = types.o;
    match op {
        FilterOp::Gain => Block::Gain {
            xty,
            ty,
            x,
            k: gain_of(number_or_zero(numbers, 0)),
        },
        FilterOp::Average => Block::Average {
            xty,
            ty,
            x,
            n: number_or_zero(numbers, 0).unsigned_abs() as u16,
        },
        FilterOp::Pt1 => Block::Pt1 {
            xty,
            ty,
            x,
            teq: number_or_zero(numbers, 0).unsigned_abs() as u32,
            k: gain_of(number_or_zero(numbers, 1)),
        },
        FilterOp::Dt1Typ1 | FilterOp::Dt1Typ2 => Block::Dt1 {
            second: op == FilterOp::Dt1Typ2,
            xty,
            ty,
            x,
            teq: number_or_zero(numbers, 0).unsigned_abs() as u32,
            k: gain_of(number_or_zero(numbers, 1)),
        },
    }
}

// The block of a look-up.
#[tactic(auto, unfolding(crate::specs::Families::block_of))]
fn look_up_block(op: InterpolationOp, types: Types, x: WireNo, lists: &[u32]) -> Block
    requires { is_built (NamedInterpolation op) ≡ true }
    ensures { result ≡ block_of (record { routine = NamedInterpolation op; types = types; wires = x ∷ []; lists = lists.now; numbers = [] }) }
{
    match op {
        InterpolationOp::Search => Block::Search {
            ty: types.x,
            x,
            axis: list_or_zero(lists, 0),
        },
        InterpolationOp::Curve(op) => Block::Curve {
            op,
            dp: x,
            table: list_or_zero(lists, 0),
        },
        InterpolationOp::IntCurve(op) => Block::IntCurve {
            op,
            x,
            axis: list_or_zero(lists, 0),
            table: list_or_zero(lists, 1),
        },
        InterpolationOp::Map(_) | InterpolationOp::IntMap(_) => unreachable!(),
    }
}

// A gain, as the integer of its type.
fn gain_of(number: i64) -> i32
    requires { in_range gains number ≡ true }
    ensures { result ≡ number }
{
    number as i32
}

fn wire_or_first(wires: &[WireNo], p: usize) -> WireNo
    ensures { result ≡ wire_or_first wires.now p }
{
    match wires.get(p) {
        Some(wire) => *wire,
        None => first_of(wires),
    }
}

/// The first wire, and wire 0 where there is none.
pub fn first_of(wires: &[WireNo]) -> WireNo
    ensures { result ≡ first_of wires.now }
{
    match wires.first() {
        Some(first) => *first,
        None => WireNo(0),
    }
}

/// The list of a place, and list 0 where there is none.
pub fn list_or_zero(lists: &[u32], p: usize) -> u32
    ensures { result ≡ list_or_zero lists.now p }
{
    match lists.get(p) {
        Some(list) => *list,
        None => 0,
    }
}

fn number_or_zero(numbers: &[i64], p: usize) -> i64
    ensures { result ≡ number_or_zero numbers.now p }
{
    match numbers.get(p) {
        Some(number) => *number,
        None => 0,
    }
}
