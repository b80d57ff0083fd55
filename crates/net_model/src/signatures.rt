// What a routine takes and gives.
use crate::rooms::Few;
use fx_core::Ty;

/// What a wire carries, as a routine takes it or gives it.
#[derive(Clone, Copy, Debug, PartialEq, Eq)]
pub enum Sort {
    /// Raw counts of a type, at any binary point.
    Number(Ty),
    /// A truth value.
    Truth,
    /// A position on the axis that is the routine's list of this place.
    On(u8),
    /// A position on an axis with as many points as the routine's list of this place, a table, has values.
    Over(u8),
}

/// What an axis or a table is, as a routine takes it.
#[derive(Clone, Copy, Debug, PartialEq, Eq)]
pub enum ListSort {
    /// An axis of a type.
    AxisOf(Ty),
    /// A table of a type.
    TableOf(Ty),
    /// A table of a type, with as many values as the axis that is the routine's list of this place has points.
    TableOver(Ty, u8),
}

/// The numbers from `low` to `high`.
#[derive(Clone, Copy, Debug, PartialEq, Eq)]
pub struct Range {
    pub low: i32,
    pub high: u32,
}

/// What a routine takes and gives: the sorts of the wires that it reads, of the axes and tables behind them
/// in its line, and the ranges of the numbers behind these, and the sort of the wire that it gives; and
/// whether it is smooth.
#[derive(Drop)]
pub struct Signature {
    pub sorts: Few<Sort>,
    pub lists: Few<ListSort>,
    pub ranges: Few<Range>,
    pub gives: Sort,
    pub smooth: bool,
}
