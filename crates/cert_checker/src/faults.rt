// What may be wrong with a certificate's text.

/// A fault of a certificate's text, in the order in which one line is tested.
#[derive(Clone, Copy, Debug, PartialEq, Eq)]
pub enum CertKind {
    /// The first line with words isn't `cert 1`.
    NoHead,
    /// The first word isn't `part`, or there aren't five words.
    BadLine,
    /// The name isn't that of the next part, or all parts were named.
    WrongPart,
    /// A word in the place of a number isn't one, a bound is outside -2^62 to 2^62, or an error outside 0 to
    /// 2^62.
    BadNumber,
    /// The lower end of the range is above the upper one.
    EmptyRange,
    /// The text ends before the last part.
    Missing,
}

/// A fault of a certificate's text: the number of its line, from 1, and what is wrong there. Of a missing part
/// it is the number of lines.
#[derive(Clone, Copy, Debug, PartialEq, Eq)]
pub struct CertFault {
    pub line: u32,
    pub kind: CertKind,
}

/// Why a text gives no certificate.
#[derive(Clone, Copy, Debug, PartialEq, Eq)]
pub enum CertError {
    /// The first fault of the text.
    Fault(CertFault),
    OutOfMemory,
}
