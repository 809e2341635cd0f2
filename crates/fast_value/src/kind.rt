//! The words of a field instruction.

/// The most characters of an ASCII string, and the most bytes of a Unicode string or a byte vector.
pub const UNIT_LIMIT: usize = 65_535;

/// The type of a field's values.
#[derive(Clone, Copy, Debug, PartialEq, Eq)]
pub enum Kind {
    /// Integers from -2^31 up to below 2^31.
    Int32,
    /// Integers from 0 up to below 2^32.
    UInt32,
    /// Integers from -2^63 up to below 2^63.
    Int64,
    /// Integers from 0 up to below 2^64.
    UInt64,
    /// A mantissa in int64 times ten to an exponent in -63..63.
    Decimal,
    /// Up to 65,535 characters from 0 to 127.
    Ascii,
    /// Up to 65,535 bytes of UTF-8.
    Unicode,
    /// Up to 65,535 bytes.
    Bytes,
}

/// Whether each message has the field.
#[derive(Clone, Copy, Debug, PartialEq, Eq)]
pub enum Presence {
    Mandatory,
    Optional,
}

/// How a field's value follows from what was sent before. (Those that always ask for a bit of the presence map stand last, so
/// that one comparison tells.)
#[derive(Clone, Copy, Debug, PartialEq, Eq)]
pub enum Operator {
    /// No operator: the value itself is sent.
    Plain,
    Delta,
    Constant,
    Default,
    Copy,
    Increment,
    Tail,
}

/// Which part of its instruction a piece of the stream is.
#[derive(Clone, Copy, Debug, PartialEq, Eq, PartialOrd, Ord)]
pub enum Part {
    /// A whole field.
    Whole,
    /// The exponent of a decimal whose parts have operators of their own.
    Exponent,
    /// The mantissa of such a decimal.
    Mantissa,
    /// The length of a sequence.
    Length,
}
