//! The value that a node says.

ghost use Rattle.std.specs.Prelude.{◌≡◌, ◌⊎◌, ℕ, ℤ, List, length, true, false, Some, None, IfOk, IfSome, IfNone, MatchOption, Option};
ghost use Rattle.fast_value.specs.declared.scalar.Scalar.{Scalar as ScalarOf};
ghost use Rattle.fast_stream.specs.Nodes.{item_of, single};
ghost use Rattle.fast_tape.specs.Tapes.{LiesAt, Says, decimal_kind, int32_kind, int64_kind, long_node, signed_node, tells, uint32_kind, uint64_kind};
ghost use Rattle.fast_untape.specs.Reading.{IsNoText, IsTextKind, LiesNowhere, SaysNone, SaysNoValue, text_of};

use fast_stream::Node;
use fast_tape::{ABSENT, ASCII, BYTES, DECIMAL, INT32, INT64, TapeNode, UINT32, UINT64, UNICODE};
use fast_template::{ByteString, Scalar};
use fast_value::UnicodeText;
use std::alloc::{AllocError, Global};
use std::str;

/// Whether a node has no mantissa and no exponent.
#[inline(always)]
pub(crate) fn is_long(node: &TapeNode) -> bool
    ensures yes { result ≡ true
        → node.now ≡ long_node node.now.kind node.now.instruction node.now.number node.now.length }
    ensures no { result ≡ false → (kind instruction number length : ℕ)
        → node.now ≡ long_node kind instruction number length → ⊥ }
{
    node.mantissa == 0 && node.exponent == 0
}

/// Whether a node has no number and no length.
#[inline(always)]
fn is_signed(node: &TapeNode) -> bool
    ensures yes { result ≡ true
        → node.now ≡ signed_node node.now.kind node.now.instruction node.now.mantissa node.now.exponent }
    ensures no { result ≡ false → (kind instruction : ℕ) (mantissa exponent : ℤ)
        → node.now ≡ signed_node kind instruction mantissa exponent → ⊥ }
{
    node.number == 0 && node.length == 0
}

/// Whether a node says that there is no value.
#[inline(always)]
pub(crate) fn is_absent(node: &TapeNode) -> bool
    ensures yes { result ≡ true → (bytes : List ℕ) → Says bytes (tells None) node.now }
    ensures no { result ≡ false → (bytes : List ℕ) → Says bytes (tells None) node.now → ⊥ }
{
    if node.kind != ABSENT {
        return false;
    }
    if !is_long(node) {
        return false;
    }
    node.number == 0 && node.length == 0
}

/// The bytes of a string, where they lie.
#[inline(always)]
fn units_at<'a>(node: &TapeNode, bytes: &'a [u8]) -> Option<&'a [u8]>
    ensures some { IfSome result (λ units. LiesAt bytes.now node.now.number units.now × (length units.now ≡ node.now.length)) }
    ensures none { IfNone result (LiesNowhere bytes.now node.now.number node.now.length) }
{
    let place = node.number as usize;
    let size = node.length as usize;
    if place > bytes.len() {
        return None;
    }
    if size > bytes.len() - place {
        return None;
    }
    Some(&bytes[place..place + size])
}

/// A number without sign that a node of such a kind says.
#[inline(always)]
fn unsigned_at(node: &TapeNode) -> Option<Scalar>
    requires kind { (node.now.kind ≡ uint32_kind) ⊎ (node.now.kind ≡ uint64_kind) }
    ensures { MatchOption result (SaysNone node.now) (λ v. (bytes : List ℕ) → Says bytes (tells (Some v)) node.now) }
{
    if !is_long(node) {
        return None;
    }
    if node.length != 0 {
        return None;
    }
    if node.kind == UINT64 {
        return Some(Scalar::U64(node.number));
    }
    match u32::try_from(node.number) {
        Ok(number) => Some(Scalar::U32(number)),
        Err(_) => None,
    }
}

/// A number with a sign that a node of such a kind says.
#[inline(always)]
fn signed_at(node: &TapeNode) -> Option<Scalar>
    requires kind { (node.now.kind ≡ int32_kind) ⊎ (node.now.kind ≡ int64_kind) }
    ensures { MatchOption result (SaysNone node.now) (λ v. (bytes : List ℕ) → Says bytes (tells (Some v)) node.now) }
{
    if !is_signed(node) {
        return None;
    }
    if node.exponent != 0 {
        return None;
    }
    if node.kind == INT64 {
        return Some(Scalar::I64(node.mantissa));
    }
    match i32::try_from(node.mantissa) {
        Ok(number) => Some(Scalar::I32(number)),
        Err(_) => None,
    }
}

/// A decimal that a node of that kind says.
#[inline(always)]
fn decimal_at(node: &TapeNode) -> Option<Scalar>
    requires kind { node.now.kind ≡ decimal_kind }
    ensures { MatchOption result (SaysNone node.now) (λ v. (bytes : List ℕ) → Says bytes (tells (Some v)) node.now) }
{
    if !is_signed(node) {
        return None;
    }
    Some(Scalar::Decimal {
        exponent: node.exponent,
        mantissa: node.mantissa,
    })
}

/// A string or vector of these units, by the kind of its node; none of Unicode that is not UTF-8.
fn value_of(alloc: Global, kind: u32, units: &[u8]) -> Result<Option<Scalar>, AllocError>
    requires kind { IsTextKind kind }
    ensures { IfOk result (λ read. MatchOption read (IsNoText kind units.now) (λ v. v ≡ text_of kind units.now)) }
{
    if kind == UNICODE && str::from_utf8(units).is_err() {
        return Ok(None);
    }
    let units = units.to_vec(alloc)?;
    if kind == ASCII {
        Ok(Some(Scalar::Ascii(ByteString::from_vec(units))))
    } else if kind == BYTES {
        Ok(Some(Scalar::Bytes(ByteString::from_vec(units))))
    } else {
        Ok(Some(Scalar::Unicode(UnicodeText::from_utf8(units))))
    }
}

/// A string or vector that a node of such a kind says.
fn text_at(alloc: Global, node: &TapeNode, bytes: &[u8]) -> Result<Option<Scalar>, AllocError>
    requires kind { IsTextKind node.now.kind }
    ensures { IfOk result (λ read. MatchOption read (SaysNoValue bytes.now node.now) (λ v. Says bytes.now (tells (Some v)) node.now)) }
{
    if !is_long(node) {
        return Ok(None);
    }
    match units_at(node, bytes) {
        None => Ok(None),
        Some(units) => value_of(alloc, node.kind, units),
    }
}

/// A value, or none, as a node of a message.
#[inline(always)]
pub(crate) fn node_of(value: Option<Scalar>) -> Node
    ensures { item_of result ≡ single value }
{
    match value {
        None => Node::Absent,
        Some(value) => Node::Value(value),
    }
}

/// Whether this is the kind of numbers without sign.
#[inline(always)]
fn is_unsigned_kind(kind: u32) -> bool
    ensures yes { result ≡ true → (kind ≡ uint32_kind) ⊎ (kind ≡ uint64_kind) }
    ensures no { result ≡ false → (kind ≡ uint32_kind → ⊥) × (kind ≡ uint64_kind → ⊥) }
{
    kind == UINT32 || kind == UINT64
}

/// Whether this is the kind of numbers with a sign.
#[inline(always)]
fn is_signed_kind(kind: u32) -> bool
    ensures yes { result ≡ true → (kind ≡ int32_kind) ⊎ (kind ≡ int64_kind) }
    ensures no { result ≡ false → (kind ≡ int32_kind → ⊥) × (kind ≡ int64_kind → ⊥) }
{
    kind == INT32 || kind == INT64
}

/// Whether this is the kind of strings or vectors.
#[inline(always)]
fn is_text_kind(kind: u32) -> bool
    ensures yes { result ≡ true → IsTextKind kind }
    ensures no { result ≡ false → IsTextKind kind → ⊥ }
{
    kind == ASCII || kind == UNICODE || kind == BYTES
}

/// A number or a decimal that a node says.
#[inline(always)]
fn number_at(node: &TapeNode) -> Option<Scalar>
    requires kind { IsTextKind node.now.kind → ⊥ }
    ensures { MatchOption result (SaysNone node.now) (λ v. (bytes : List ℕ) → Says bytes (tells (Some v)) node.now) }
{
    if is_unsigned_kind(node.kind) {
        return unsigned_at(node);
    }
    if is_signed_kind(node.kind) {
        return signed_at(node);
    }
    if node.kind == DECIMAL {
        return decimal_at(node);
    }
    None
}

/// The node of a message that a field's node says: its value, or that there is none. None: it says neither.
pub(crate) fn value_at(
    alloc: Global,
    node: &TapeNode,
    bytes: &[u8],
) -> Result<Option<Node>, AllocError>
    ensures { IfOk result (λ read. MatchOption read (SaysNoValue bytes.now node.now) (λ n. (v : Option ScalarOf)
        × (item_of n ≡ single v) × Says bytes.now (tells v) node.now)) }
{
    if is_absent(node) {
        return Ok(Some(node_of(None)));
    }
    if is_text_kind(node.kind) {
        return match text_at(alloc, node, bytes)? {
            None => Ok(None),
            Some(value) => Ok(Some(node_of(Some(value)))),
        };
    }
    match number_at(node) {
        None => Ok(None),
        Some(value) => Ok(Some(node_of(Some(value)))),
    }
}
