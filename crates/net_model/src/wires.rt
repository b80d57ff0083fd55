use crate::naming::Name;
use fx_core::Ty;
use ifx_curves::CurveOp;
use mfx_arith::{ArithOp, Variant};
use mfx_scaled::ScaledOp;

/// The number of a wire, from 0, in the order of the network's text.
#[derive(Clone, Copy, Debug, PartialEq, Eq)]
pub struct WireNo(pub u32);

/// The number of a part, from 0, in the order of the wires, a wire's states before the wire.
#[derive(Clone, Copy, Debug, PartialEq, Eq)]
pub struct PartNo(pub u32);

/// What a wire carries: raw counts of a type with a binary point of 0 to 15, a truth value of 0 or 1, or a
/// position on the axis of this number, 65536 for each of its segments.
#[derive(Clone, Copy, Debug, PartialEq, Eq)]
pub enum Kind {
    Num(Ty, u8),
    Truth,
    Position(u32),
}

/// A block: a routine, the wires that it reads, and the numbers of the axes and tables that it goes over.
/// An argument that a routine doesn't have repeats the first one.
#[derive(Clone, Copy, Debug, PartialEq, Eq)]
pub enum Block {
    /// Mfx arithmetic on raw counts; `sh` is at most 15, and 0 where the routine has no shift.
    Arith {
        op: ArithOp,
        v: Variant,
        x: WireNo,
        y: WireNo,
        z: WireNo,
        sh: u8,
    },
    /// A form with binary points, which are those of its wires.
    Scaled {
        op: ScaledOp,
        v: Variant,
        x: WireNo,
        y: WireNo,
    },
    /// A proportional block: the input times `k`, which has 16 fractional bits. Here and below `xty` is the
    /// type of the input and `ty` that of the output.
    Gain {
        xty: Ty,
        ty: Ty,
        x: WireNo,
        k: i32,
    },
    /// The mean of this row's input and of those of the `n - 1` rows before; `n` is 1 to 1024.
    Average {
        xty: Ty,
        ty: Ty,
        x: WireNo,
        n: u16,
    },
    /// A lag of first order: `teq`, at most 65536, is the weight of the old state in 1/65536, and `k` the
    /// gain with 16 fractional bits.
    Pt1 {
        xty: Ty,
        ty: Ty,
        x: WireNo,
        teq: u32,
        k: i32,
    },
    /// The same of a difference of two rows' inputs: of this row's and the one's before where it is of the
    /// second type, else of the one's before and the one's before that.
    Dt1 {
        second: bool,
        xty: Ty,
        ty: Ty,
        x: WireNo,
        teq: u32,
        k: i32,
    },
    /// The position of `x`, which is of the type `ty`, on an axis of that type.
    Search {
        ty: Ty,
        x: WireNo,
        axis: u32,
    },
    /// A table's curve at the position `dp`.
    Curve {
        op: CurveOp,
        dp: WireNo,
        table: u32,
    },
    /// A table's curve at the position of `x` on an axis, which isn't rounded.
    IntCurve {
        op: CurveOp,
        x: WireNo,
        axis: u32,
        table: u32,
    },
}

/// What gives a wire its value.
#[derive(Clone, Copy, Debug, PartialEq, Eq)]
pub enum Item {
    /// The recording's value of the row, which is declared to lie from `lo` to `hi`, in raw counts.
    Input { lo: i64, hi: i64 },
    /// The same value in each row.
    Const { value: i64 },
    /// `init` in the first row, and later the value that the source had in the row before. The source may
    /// be any wire of the same kind, also a later one or the delay itself.
    Delay { init: i64, source: WireNo },
    Block(Block),
}

impl Item {
    ghost use Rattle.std.specs.Prelude.{◌≡◌};
    ghost use Rattle.net_model.specs.Wires.{is_input, roles_of, window_of};

    /// Whether the wire is an input.
    pub fn is_input(self) -> bool
        ensures { result ≡ is_input self }
    {
        matches!(self, Item::Input { .. })
    }

    /// Over how many rows the wire takes the mean; 0 where it takes none.
    pub fn window(self) -> u16
        ensures { result ≡ window_of self }
    {
        match self {
            Item::Block(block) => block.window(),
            _ => 0,
        }
    }

    /// The parts of the wire, in order: its states, then its value.
    pub fn roles(self) -> &'static [Role]
        ensures { result.now ≡ roles_of self }
    {
        match self {
            Item::Input { .. } | Item::Const { .. } | Item::Delay { .. } => &[Role::Value],
            Item::Block(block) => block.roles(),
        }
    }
}

impl Block {
    ghost use Rattle.std.specs.Prelude.{◌≡◌};
    ghost use Rattle.net_model.specs.Wires.{block_roles, window_in};

    /// Over how many rows the block takes the mean; 0 where it takes none.
    pub fn window(self) -> u16
        ensures { result ≡ window_in self }
    {
        match self {
            Block::Average { n, .. } => n,
            _ => 0,
        }
    }

    /// The parts of a wire with this block, in order: its states, then its value.
    pub fn roles(self) -> &'static [Role]
        ensures { result.now ≡ block_roles self }
    {
        match self {
            Block::Pt1 { .. } => &[Role::Y, Role::X1, Role::Value],
            Block::Dt1 { second: true, .. } => &[Role::Y, Role::X1, Role::Value],
            Block::Dt1 { second: false, .. } => &[Role::Y, Role::X1, Role::X2, Role::Value],
            Block::Average { .. } => &[Role::W, Role::Value],
            _ => &[Role::Value],
        }
    }
}

/// A wire: its name, its kind and what gives it its value.
#[derive(Drop)]
pub struct Wire {
    pub name: Name,
    pub kind: Kind,
    pub item: Item,
}

/// What a part of a wire is.
#[derive(Clone, Copy, Debug, PartialEq, Eq)]
pub enum Role {
    /// The state of a block that has one, a raw count with 16 fractional bits.
    Y,
    /// The input of this row, kept for the row behind.
    X1,
    /// The input of the row before, kept likewise.
    X2,
    /// The last inputs of an average, one fewer than it goes over.
    W,
    /// The wire's value.
    Value,
}

/// A part: a wire or a state of its block.
#[derive(Clone, Copy, Debug, PartialEq, Eq)]
pub struct Part {
    pub wire: WireNo,
    pub role: Role,
}
