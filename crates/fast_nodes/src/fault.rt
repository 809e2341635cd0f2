//! Why a message is not written.

use thiserror::Error;

/// Why a message is not written. Numbers with D are those of FAST 1.1, Error Handling, as far as it names them.
#[derive(Clone, Copy, Debug, PartialEq, Eq, Error)]
pub enum EncodeCause {
    /// A decimal does not have the exponent or the mantissa that its part must have.
    #[error("D3")]
    D3,
    /// An earlier value under the key is of another type.
    #[error("D4")]
    D4,
    /// A delta or a tail needs an earlier value, and the last one was absent.
    #[error("D6")]
    D6,
    /// No template has the identifier.
    #[error("D9")]
    D9,
    /// A decimal is out of range.
    #[error("R1")]
    R1,
    /// A value is not the constant of its field.
    #[error("NotConstant")]
    NotConstant,
    /// A value is shorter than the earlier value whose end it changes.
    #[error("TooShort")]
    TooShort,
    /// The message is not of its template's shape, or a value is not of its field's type.
    #[error("Mismatch")]
    Mismatch,
    /// A string, a vector, a sequence, a map or the message is larger than this crate writes.
    #[error("Limit")]
    Limit,
    /// An allocation was refused.
    #[error("Memory")]
    Memory,
    /// The writer answered an error, or took no byte of a list that is not empty.
    #[error("Write")]
    Write,
}

/// Why a message is not written, and which instruction of its template refused it.
#[derive(Clone, Copy, Debug, PartialEq, Eq, Error)]
#[error("{cause} instruction={instruction}")]
pub struct EncodeFault {
    pub cause: EncodeCause,
    /// The number of the refused field's instruction; 0 for `D9`, `Mismatch`, `Limit`, `Memory` and `Write`.
    pub instruction: u32,
}
