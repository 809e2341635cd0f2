//! Whether a value is of a type.

ghost use Rattle.std.specs.Prelude.{◌≡◌};
ghost use Rattle.fast_value.specs.Scalar.{is_of};

use crate::kind::Kind;
use crate::scalar::Scalar;

/// Whether a value is of a type.
#[inline(always)]
pub fn is_of_kind(kind: Kind, value: &Scalar) -> bool
    ensures { result ≡ is_of kind value.now }
{
    // types and values have one order, so that this is one comparison
    let own = match value {
        Scalar::I32(_) => Kind::Int32,
        Scalar::U32(_) => Kind::UInt32,
        Scalar::I64(_) => Kind::Int64,
        Scalar::U64(_) => Kind::UInt64,
        Scalar::Decimal { .. } => Kind::Decimal,
        Scalar::Ascii(_) => Kind::Ascii,
        Scalar::Unicode(_) => Kind::Unicode,
        Scalar::Bytes(_) => Kind::Bytes,
    };
    kind == own
}
