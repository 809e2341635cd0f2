//! Laws of the byte forms: the contracts of functions that do nothing, with a clause for each form.
//!
//! A form *is read* (`IsReader`): what the function that reads the front of a list takes is a form, each form
//! is taken whatever follows it, and a fault other than want of bytes stays whatever follows. The function *goes
//! on* (`GoesOn`): what it takes it takes whatever follows, with no premise on the bytes. The form's *sizes*
//! (`HasSizes`): which values have a form, how many bytes the shortest takes, and that two forms of one value
//! that are as long are the same bytes.

ghost use Rattle.std.specs.Prelude.{◌≡◌, ◌≤◌, ◌<◌, ◌^◌, ℕ, ℤ, pos, negsuc, List, length};
ghost use Rattle.fast_wire.specs.Ascii.{IsAscii, IsAsciiNullable, IsAsciiText};
ghost use Rattle.fast_wire.specs.Entity.{IsEntityWithin};
ghost use Rattle.fast_wire.specs.Integer.{IsNoCloser, IsSigned, IsUnsigned};
ghost use Rattle.fast_wire.specs.Nullable.{IsNullOr, IsSignedNullable, IsUnsignedNullable, sent_signed, sent_unsigned, units};
ghost use Rattle.fast_wire.specs.PresenceMap.{IsWholeMap};
ghost use Rattle.fast_wire.specs.Reader.{GoesOn, IsReader};
ghost use Rattle.fast_wire.specs.Reading.{ascii_at, ascii_nullable_at, bytes_at, entity_at, map_at, signed_at, signed_nullable_at, unsigned_at, unsigned_nullable_at, vector_at, vector_nullable_at};
ghost use Rattle.fast_wire.specs.Sizes.{ascii_nullable_size, ascii_size, CanBeSigned, CanBeSignedNullable, CanBeUnsigned, CanBeUnsignedNullable, CanBeVector, HasSizes, signed_nullable_size, signed_size, unsigned_nullable_size, unsigned_size, vector_nullable_size, vector_size};
ghost use Rattle.fast_wire.specs.Vector.{IsVector, IsVectorNullable};
ghost use Rattle.fast_wire.specs.Writing.{IsShortest};
ghost use Rattle.fast_wire.specs.declared.nullable.Nullable.{Nullable};

use crate::fault::WireFault;
use crate::nullable::Nullable;

/// Each form is read from the front of a list, and nothing else is.
pub fn forms_are_read()
    ensures entity { (limit : ℕ)
        → IsReader WireFault.NeedMore (entity_at limit) (IsEntityWithin limit) }
    ensures unsigned { IsReader WireFault.NeedMore unsigned_at IsUnsigned }
    ensures signed { IsReader WireFault.NeedMore signed_at IsSigned }
    ensures unsigned_nullable { IsReader WireFault.NeedMore unsigned_nullable_at
        IsUnsignedNullable }
    ensures signed_nullable { IsReader WireFault.NeedMore signed_nullable_at IsSignedNullable }
    ensures ascii { IsReader WireFault.NeedMore ascii_at IsAscii }
    ensures ascii_nullable { IsReader WireFault.NeedMore ascii_nullable_at IsAsciiNullable }
    ensures vector { IsReader WireFault.NeedMore vector_at IsVector }
    ensures vector_nullable { IsReader WireFault.NeedMore vector_nullable_at IsVectorNullable }
    ensures map { IsReader WireFault.NeedMore map_at IsWholeMap }
{}

/// What is read from the front of a list is read whatever follows, with no premise on the bytes.
pub fn readings_go_on()
    ensures entity { (limit : ℕ) → GoesOn (entity_at limit) }
    ensures unsigned { GoesOn unsigned_at }
    ensures signed { GoesOn signed_at }
    ensures unsigned_nullable { GoesOn unsigned_nullable_at }
    ensures signed_nullable { GoesOn signed_nullable_at }
    ensures ascii { GoesOn ascii_at }
    ensures ascii_nullable { GoesOn ascii_nullable_at }
    ensures bytes { (n : ℕ) → GoesOn (bytes_at n) }
    ensures vector { GoesOn vector_at }
    ensures vector_nullable { GoesOn vector_nullable_at }
    ensures map { GoesOn map_at }
{}

/// Which values have a form, and how long the shortest is.
pub fn forms_have_sizes()
    ensures unsigned { HasSizes IsUnsigned CanBeUnsigned unsigned_size }
    ensures signed { HasSizes IsSigned CanBeSigned signed_size }
    ensures unsigned_nullable { HasSizes IsUnsignedNullable CanBeUnsignedNullable
        unsigned_nullable_size }
    ensures signed_nullable { HasSizes IsSignedNullable CanBeSignedNullable signed_nullable_size }
    ensures ascii { HasSizes IsAscii IsAsciiText ascii_size }
    ensures ascii_nullable { HasSizes IsAsciiNullable (IsNullOr IsAsciiText) ascii_nullable_size }
    ensures vector { HasSizes IsVector CanBeVector vector_size }
    ensures vector_nullable { HasSizes IsVectorNullable (IsNullOr CanBeVector)
        vector_nullable_size }
{}

/// The shortest form of a larger unsigned number is not shorter; nor is that of a signed number that is farther
/// from zero on the same side, in the form without NULL and in the nullable one. None is longer than ten bytes.
pub fn sizes_grow()
    ensures unsigned { (v w : ℕ) → v ≤ w → unsigned_size v ≤ unsigned_size w }
    ensures unsigned_few { (v : ℕ) → (0 < unsigned_size v) × (unsigned_size v ≤ 10) }
    ensures signed { (v w : ℤ) → IsNoCloser v w → signed_size v ≤ signed_size w }
    ensures signed_nullable { (v w : ℤ) → IsNoCloser v w
        → signed_nullable_size (Nullable.Value v) ≤ signed_nullable_size (Nullable.Value w) }
    ensures signed_few { (v : ℤ) → (0 < signed_size v) × (signed_size v ≤ 10) }
    // the same of the forms themselves
    ensures signed_forms { (v w : ℤ) (b c : List ℕ) → IsNoCloser v w
        → IsShortest IsSigned b v → IsShortest IsSigned c w → length b ≤ length c }
    ensures signed_nullable_forms { (v w : ℤ) (b c : List ℕ) → IsNoCloser v w
        → IsShortest IsSignedNullable b (Nullable.Value v)
        → IsShortest IsSignedNullable c (Nullable.Value w) → length b ≤ length c }
{}
