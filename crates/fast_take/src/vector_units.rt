//! Unicode strings and byte vectors, whose bytes stand behind their length: they are copied from the bytes that were read
//! into the entry, and what is asked of both.

ghost use Rattle.std.specs.Prelude.{◌≡◌, ◌≤◌, ◌<◌, ◌+◌, ◌++◌, Ok, pos, true, false, length, drop, slice_range, take, Some, IfSome, IsUtf8, IsCharBoundary};
ghost use Rattle.fast_wire.specs.declared.level.Level.TheVariants.{Usual};
ghost use Rattle.fast_wire.specs.declared.nullable.Nullable.TheVariants.{Value};
ghost use Rattle.fast_value.specs.declared.kind.Kind.TheVariants as kind_type;
ghost use Rattle.fast_field.specs.Bases.{next_of};
ghost use Rattle.fast_field.specs.FieldReading.{units_at};
ghost use Rattle.fast_field.specs.Planning.{left_out_of};
ghost use Rattle.fast_field.specs.Values.{of_units, units_of};
ghost use Rattle.fast_take.specs.Numbers.{SpellsWhole};
ghost use Rattle.fast_take.specs.Texts.{IsText, IsVectorKind};

use crate::characters::are_few;
use crate::integers::read_short;
use crate::utf8::is_utf8;
use fast_dictionary::{Entry, Spare};
use fast_field::units;
use fast_template::{ByteString, FieldPart, Kind, Operator, Presence, Scalar, UnicodeText};
use fast_value::UNIT_LIMIT;
use std::alloc::Global;
use std::mem;

/// How many bytes a length says, if they are not too many.
#[inline(always)]
pub(crate) fn few_bytes(length: i128) -> Option<usize>
    ensures { IfSome result (λ n. (length ≡ pos n) × (n ≤ 65535)) }
{
    match usize::try_from(length) {
        Ok(count) if count <= UNIT_LIMIT => Some(count),
        _ => None,
    }
}

/// Where the bytes of a string or vector begin and end; none where it is NULL or not well.
#[inline(always)]
pub(crate) fn find_bytes(
    kind: Kind,
    presence: Presence,
    bytes: &[u8],
    at: usize,
) -> Option<(usize, usize)>
    requires at { at ≤ length bytes.now }
    requires kind { IsVectorKind kind }
    ensures start { IfSome result (λ x. (at ≤ x.0) × (x.0 ≤ x.1)) }
    ensures end { IfSome result (λ x. x.1 ≤ length bytes.now) }
    ensures gives { IfSome result (λ x. units_at Usual kind presence (drop at bytes.now)
        ≡ Ok (Value (slice_range bytes.now x.0 x.1), drop x.1 bytes.now)) }
{
    let (length, start) = read_short(true, presence, bytes, at)?;
    let count = few_bytes(length)?;
    if bytes.len() - start < count {
        return None;
    }
    Some((start, start + count))
}

/// Whether bytes are a string or vector of a type, and within it.
#[inline(always)]
pub(crate) fn are_text(kind: Kind, units: &[u8]) -> bool
    requires { IsVectorKind kind }
    ensures { result ≡ true → IsText kind (of_units kind units.now) }
{
    match kind {
        Kind::Unicode => are_few(units) && is_utf8(units),
        _ => are_few(units),
    }
}

/// Puts bytes behind so many units, in place of the others; answers false, and leaves these as they were, where memory
/// is refused.
#[inline(always)]
fn put_behind(units: &mut Vec<u8>, kept: usize, part: &[u8]) -> bool
    requires { kept ≤ length units.now.items }
    ensures put { result ≡ true → units.new.items ≡ take kept units.old.items ++ part.now }
    ensures unchanged { result ≡ false → units.new.items ≡ units.old.items }
{
    match units.reserve(part.len()) {
        Err(_) => false,
        Ok(()) => {
            units.truncate(kept);
            units.extend_from_slice(part).unwrap();
            true
        }
    }
}

/// The same of a byte vector.
#[inline(always)]
pub(crate) fn put_bytes(alloc: Global, bytes: &mut ByteString, kept: usize, part: &[u8]) -> bool
    requires { kept ≤ length bytes.now }
    ensures put { result ≡ true → bytes.new ≡ take kept bytes.old ++ part.now }
    ensures unchanged { result ≡ false → bytes.new ≡ bytes.old }
{
    let empty = ByteString::from_vec(Vec::new(alloc));
    let mut units = mem::replace(bytes, empty).into_vec();
    let put = put_behind(&mut units, kept, part);
    *bytes = ByteString::from_vec(units);
    put
}

/// The same of a Unicode string, which stays one.
#[inline(always)]
fn put_text(alloc: Global, text: &mut UnicodeText, kept: usize, part: &[u8]) -> bool
    requires kept { kept ≤ length text.now }
    requires utf8 { IsUtf8 (take kept text.now ++ part.now) }
    ensures put { result ≡ true → text.new ≡ take kept text.old ++ part.now }
    ensures unchanged { result ≡ false → text.new ≡ text.old }
{
    let empty = UnicodeText::from_utf8(Vec::new(alloc));
    let mut units = mem::replace(text, empty).into_bytes();
    let put = put_behind(&mut units, kept, part);
    *text = UnicodeText::from_utf8(units);
    put
}

/// The same of a value of such a type; of another one nothing is done.
#[inline(always)]
pub(crate) fn put_units(
    alloc: Global,
    kind: Kind,
    value: &mut Scalar,
    kept: usize,
    part: &[u8],
) -> bool
    requires kept { kept ≤ length (units_of value.now) }
    requires text { IsText kind (of_units kind (take kept (units_of value.now) ++ part.now)) }
    ensures put { result ≡ true
        → value.new ≡ of_units kind (take kept (units_of value.old) ++ part.now) }
    ensures unchanged { result ≡ false → value.new ≡ value.old }
{
    match (kind, value) {
        (Kind::Unicode, Scalar::Unicode(text)) => put_text(alloc, text, kept, part),
        (Kind::Bytes, Scalar::Bytes(bytes)) => put_bytes(alloc, bytes, kept, part),
        _ => false,
    }
}

/// The string or vector that bytes are; none where memory is refused.
#[inline(always)]
pub(crate) fn make_units(spare: &mut Spare, kind: Kind, part: &[u8]) -> Option<Scalar>
    requires { IsText kind (of_units kind part.now) }
    ensures { IfSome result (λ value. value ≡ of_units kind part.now) }
{
    let mut units = spare.take();
    if units.extend_from_slice(part).is_err() {
        return None;
    }
    match kind {
        Kind::Unicode => Some(Scalar::Unicode(UnicodeText::from_utf8(units))),
        Kind::Bytes => Some(Scalar::Bytes(ByteString::from_vec(units))),
        _ => None,
    }
}

/// Makes an entry the one that bytes leave which are spelled whole; answers false, and leaves it as it was, where it
/// has a value of another type, or memory is refused.
#[inline(always)]
pub(crate) fn keep_bytes(
    spare: &mut Spare,
    kind: Kind,
    operator: Operator,
    entry: &mut Entry,
    part: &[u8],
) -> bool
    requires operator { SpellsWhole operator }
    requires text { IsText kind (of_units kind part.now) }
    ensures kept { result ≡ true
        → entry.new ≡ next_of operator entry.old (Some (of_units kind part.now)) }
    ensures unchanged { result ≡ false → entry.new ≡ entry.old }
{
    match operator {
        Operator::Copy | Operator::Increment => match entry {
            Entry::Assigned(value) => put_units(spare.alloc(), kind, value, 0, part),
            Entry::Empty | Entry::Undefined => match make_units(spare, kind, part) {
                Some(value) => {
                    *entry = Entry::Assigned(value);
                    true
                }
                None => false,
            },
        },
        _ => true,
    }
}

/// Whether a string or vector of a type may end at a place, in UTF-8 no character stands across it.
#[inline(always)]
pub(crate) fn may_end(kind: Kind, base: &[u8], kept: usize) -> bool
    requires { kept ≤ length base.now }
    ensures { result ≡ true → kind ≡ kind_type.Unicode → IsCharBoundary base.now kept }
{
    match kind {
        Kind::Unicode => kept == base.len() || base[kept] < 128 || base[kept] >= 192,
        _ => true,
    }
}
