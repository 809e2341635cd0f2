//! Values of fields.

ghost use Rattle.std.specs.Prelude.{◌≡◌, IfOk, nat_eq};
ghost use Rattle.std.specs.Cmp.{partial_equiv_from_equiv};
ghost use Rattle.std.specs.Cmp.Lexicographic.{nat_list_eq_equiv, pointwise};

use crate::unicode_text::UnicodeText;
use std::alloc::{AllocError, Global};
use std::marker::Model;

/// Characters of ASCII, or bytes. A contract sees the list of them.
#[derive(Debug, Drop)]
pub struct ByteString {
    bytes: Vec<u8>,
}

impl Model for ByteString {
    ghost use Rattle.std.specs.Prelude.{List, ℕ};

    ghost Value = { List ℕ };

    ghost view = { λ s. s.bytes.items };
}

impl ByteString {
    ghost use Rattle.std.specs.Borrow.{sem};
    ghost use Rattle.fast_value.specs.Overwritten.{LendsBytes};

    /// The bytes of a vector. Takes no memory.
    pub fn from_vec(bytes: Vec<u8>) -> ByteString
        ensures { result ≡ bytes.items }
    {
        Self { bytes }
    }

    /// The vector of these bytes. Takes no memory.
    pub fn into_vec(self) -> Vec<u8>
        ensures { result.items ≡ self }
    {
        let ByteString { bytes } = self;
        bytes
    }

    /// The bytes, in order.
    pub fn as_slice(&self) -> &[u8]
        ensures { result.now ≡ self.now }
    {
        self.bytes.as_slice()
    }

    /// The bytes, in order, for writing: as many stay. Takes no memory.
    pub fn as_mut_slice(&mut self) -> &mut [u8]
        ensures* writes_back { sem 𝓛 (LendsBytes self.entry result) }
        ensures value { result.now ≡ self.old }
    {
        self.bytes.as_mut_slice()
    }

    /// The same bytes once more.
    ///
    /// # Errors
    ///
    /// Where memory is refused.
    pub fn copy(&self, alloc: Global) -> Result<ByteString, AllocError>
        ensures { IfOk result (λ other. other ≡ self.now) }
    {
        let bytes = self.as_slice().to_vec(alloc)?;
        Ok(ByteString { bytes })
    }
}

impl PartialEq for ByteString {
    ghost eq = { pointwise nat_eq };

    ghost laws = { partial_equiv_from_equiv nat_list_eq_equiv };

    fn eq(&self, other: &ByteString) -> bool {
        self.as_slice() == other.as_slice()
    }
}

impl Eq for ByteString {
    ghost laws = { nat_list_eq_equiv };
}

/// A value of a field.
#[derive(Debug, PartialEq, Eq, Drop)]
pub enum Scalar {
    I32(i32),
    U32(u32),
    I64(i64),
    U64(u64),
    /// The mantissa times ten to the exponent.
    Decimal { exponent: i32, mantissa: i64 },
    Ascii(ByteString),
    Unicode(UnicodeText),
    Bytes(ByteString),
}

impl Scalar {
    ghost use Rattle.std.specs.Prelude.{IsTrue, OnErr};
    ghost use Rattle.fast_value.specs.Scalar.{has_units, kind_of};

    /// The same value once more.
    ///
    /// # Errors
    ///
    /// Where memory is refused, which only strings and bytes ask for.
    pub fn copy(&self, alloc: Global) -> Result<Scalar, AllocError>
        ensures value { IfOk result (λ other. other ≡ self.now) }
        ensures memory { OnErr result (IsTrue (has_units (kind_of self.now))) }
    {
        match self {
            Scalar::U32(number) => Ok(Scalar::U32(*number)),
            Scalar::I32(number) => Ok(Scalar::I32(*number)),
            Scalar::U64(number) => Ok(Scalar::U64(*number)),
            Scalar::I64(number) => Ok(Scalar::I64(*number)),
            Scalar::Decimal { exponent, mantissa } => Ok(Scalar::Decimal {
                exponent: *exponent,
                mantissa: *mantissa,
            }),
            Scalar::Ascii(characters) => Ok(Scalar::Ascii(characters.copy(alloc)?)),
            Scalar::Unicode(text) => Ok(Scalar::Unicode(text.copy(alloc)?)),
            Scalar::Bytes(bytes) => Ok(Scalar::Bytes(bytes.copy(alloc)?)),
        }
    }
}
