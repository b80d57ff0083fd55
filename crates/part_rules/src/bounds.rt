/// Bounds of a part: its values lie from `lo` to `hi`, in raw counts, and differ from the exact values by at
/// most `err`, in units of 1/65536 of a raw count.
#[derive(Clone, Copy, Debug, PartialEq, Eq)]
pub struct Bounds {
    pub lo: i64,
    pub hi: i64,
    pub err: i64,
}
