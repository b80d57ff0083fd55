// The filters, controllers and switches, which keep states from row to row.

/// A filter; its answer is rounded to the nearest and saturated.
#[derive(Clone, Copy, Debug, PartialEq, Eq)]
pub enum FilterOp {
    /// A proportional block, which has no state.
    Gain,
    /// A lag of first order.
    Pt1,
    /// A differentiating lag of first order, by the input of the row before and the one before that.
    Dt1Typ1,
    /// A differentiating lag of first order, by the input of this row and of the row before.
    Dt1Typ2,
    /// The mean of this input and those of the rows before.
    Average,
}

/// A controller; its answer is rounded to the nearest and saturated.
#[derive(Clone, Copy, Debug, PartialEq, Eq)]
pub enum ControlOp {
    /// A proportional and integral controller, which adds up the input of the row before.
    PiTyp1,
    /// A proportional and integral controller, which adds up the input of this row.
    PiTyp2,
    /// The first with its state held between two limits.
    PiTyp1Lim,
    /// The second with its state held between two limits.
    PiTyp2Lim,
    /// The input followed by at most one step upward or downward a row.
    Ramp,
}

/// How the ends of a hysteresis are given.
#[derive(Clone, Copy, Debug, PartialEq, Eq)]
pub enum HystOp {
    /// Both ends.
    LeftRight,
    /// The middle, and its distance to each end.
    CenterHalfDelta,
    /// The left end, and the distance of the two.
    LeftDelta,
    /// The distance of the two, and the right end.
    DeltaRight,
}

/// Which changes of a truth value are edges.
#[derive(Clone, Copy, Debug, PartialEq, Eq)]
pub enum EdgeOp {
    /// From false to true.
    Rising,
    /// From true to false.
    Falling,
    /// Either.
    Both,
}

/// A block that switches; its answer is a truth value.
#[derive(Clone, Copy, Debug, PartialEq, Eq)]
pub enum SwitchOp {
    /// True above the right end, false below the left one, and between them what it was.
    Hyst(HystOp),
    /// The input, once it has stayed the same for a number of rows.
    Debounce,
    /// Whether the input changed since the row before.
    Edge(EdgeOp),
}
