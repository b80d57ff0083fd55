use net_model::WireNo;

/// Why a line is no header of a network's recording.
#[derive(Clone, Copy, Debug, PartialEq, Eq)]
pub enum HeadFault {
    /// The line has more than 65,536 bytes, or isn't exactly one record.
    BadLine,
    /// No column is named as this input.
    Missing(WireNo),
    /// More than one column is named as this input.
    Twice(WireNo),
    OutOfMemory,
}

/// Why a line gives no values.
#[derive(Clone, Copy, Debug, PartialEq, Eq)]
pub enum RowFault {
    /// The line has more than 65,536 bytes, or isn't exactly one record.
    BadLine,
    /// There are fewer fields than in the header.
    BadWidth,
    /// The field of this input isn't a number.
    BadNumber(WireNo),
    /// The number of this input lies outside its kind.
    OutOfType(WireNo),
    OutOfMemory,
}
