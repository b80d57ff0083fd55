// The operations on axes, curves and maps.

/// What a curve answers between two points of its axis.
#[derive(Clone, Copy, Debug, PartialEq, Eq)]
pub enum CurveOp {
    /// The value on the straight line between the two.
    Ipo,
    /// The value at the nearer one.
    LkUp,
}

/// What a map answers between the points of its two axes.
#[derive(Clone, Copy, Debug, PartialEq, Eq)]
pub enum MapOp {
    /// The value on the straight lines along `y`, and then along `x`.
    Ipo,
    /// The value at the nearer point in each direction.
    LkUp,
    /// The value at the lower point in each direction.
    LkUpBase,
}

/// An operation on an axis, a curve or a map; each answer is rounded down and saturated.
#[derive(Clone, Copy, Debug, PartialEq, Eq)]
pub enum InterpolationOp {
    /// The position of `x` on an axis.
    Search,
    /// A curve at a position.
    Curve(CurveOp),
    /// A curve at `x`, whose position on an axis isn't rounded in between.
    IntCurve(CurveOp),
    /// A map at two positions.
    Map(MapOp),
    /// A map at `x` and `y`, whose positions on two axes aren't rounded in between.
    IntMap(MapOp),
}
