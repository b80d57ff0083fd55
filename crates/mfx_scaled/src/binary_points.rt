// The binary points that the forms stand at.

/// The binary points of the first input, the second input and the output, each 0 to 15: how many
/// of a raw count's lowest bits stand behind the point.
#[derive(Clone, Copy, Debug, PartialEq, Eq)]
pub struct Points {
    /// The point of the first input.
    pub a: u8,
    /// The point of the second input.
    pub b: u8,
    /// The point of the output.
    pub c: u8,
}
