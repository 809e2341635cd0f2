//! Lengths and removals in one byte, as most are, which is their shortest form; and those behind one needless group or two.

ghost use Rattle.std.specs.Prelude.{◌≡◌, ◌≢◌, ℕ, ◌+◌, ◌<◌, ◌≤◌, ◌∷◌, [], pos, true, false, length, drop, IfNone, IfSome};
ghost use Rattle.fast_dictionary.specs.declared.entry.Entry.TheVariants.{Assigned};
ghost use Rattle.fast_value.specs.declared.scalar.Scalar.TheVariants.{U32};
ghost use Rattle.fast_field.specs.Chosen.{ShortestSigned};
ghost use Rattle.fast_take.specs.Judged.{StandsAt, StandsFrom, zero_byte};
ghost use Rattle.fast_take.specs.Numbers.{Spelt};
ghost use Rattle.fast_take.specs.OneByte.{RelaysByte, StandsByte};
ghost use Rattle.fast_template.specs.Resolved.{part_needs_bit};
ghost use Rattle.fast_value.specs.declared.kind.Kind.TheVariants.{UInt32};
ghost use Rattle.fast_value.specs.declared.kind.Part.TheVariants.{Length, Whole};

use crate::judged::{read_behind, read_number, read_shortest};
use crate::null::begins_with_null;
use crate::vector_units::few_bytes;
use fast_dictionary::Entry;
use fast_field::is_left_out;
use fast_template::{FieldPart, Operator, Presence, Scalar};

/// A removal below this takes one byte, with NULL and without.
const FEW: u8 = 63;

/// The byte that spells 0 of a number that is always there.
const ZERO: u8 = 128;

/// The byte that spells 0 in the form of a presence.
#[inline(always)]
fn zero_byte(presence: Presence) -> u8
    ensures { result ≡ zero_byte presence }
{
    match presence {
        Presence::Mandatory => ZERO,
        Presence::Optional => ZERO + 1,
    }
}

/// How many units a subtraction length removes at the end, if they are few and it stands in its shortest form.
#[inline(always)]
pub(crate) fn read_removal(presence: Presence, bytes: &[u8], at: usize) -> Option<usize>
    requires { at ≤ length bytes.now }
    ensures place { IfSome result (λ removed. at < length bytes.now) }
    ensures few { IfSome result (λ removed. removed < 63) }
    ensures stands { IfSome result (λ removed. StandsAt false presence bytes.now at (at + 1) (pos removed)) }
{
    let zero = zero_byte(presence);
    if at >= bytes.len() {
        return None;
    }
    // a byte below that of 0 wraps around, and leaves more than few
    let removed = bytes[at].wrapping_sub(zero);
    if removed < FEW {
        Some(usize::from(removed))
    } else {
        None
    }
}

/// The byte that is the shortest form of a removal of few units at the end.
#[inline(always)]
pub(crate) fn removal_byte(presence: Presence, removed: usize) -> u8
    requires { removed < 63 }
    ensures { ShortestSigned presence (pos removed) (result ∷ []) }
{
    zero_byte(presence) + removed as u8
}

/// The same as `read_any_removal`, of a removal of more bytes.
#[inline(never)]
fn read_long_removal(presence: Presence, bytes: &[u8], at: usize) -> Option<(usize, usize)>
    requires { at ≤ length bytes.now }
    ensures place { IfSome result (λ x. (at ≤ x.1) × (x.1 ≤ length bytes.now)) }
    ensures few { IfSome result (λ x. x.0 < 63) }
    ensures gives { IfSome result (λ x. Spelt false presence (drop at bytes.now)
        (pos x.0) (drop x.1 bytes.now)) }
{
    let (removal, next) = read_number(false, presence, bytes, at)?;
    let removed = few_bytes(i128::from(removal))?;
    (removed < usize::from(FEW)).then_some((removed, next))
}

/// How many units a subtraction length removes at the end, if they are few, in any form, and the place behind it.
#[inline(always)]
pub(crate) fn read_any_removal(
    presence: Presence,
    bytes: &[u8],
    at: usize,
) -> Option<(usize, usize)>
    requires { at ≤ length bytes.now }
    ensures place { IfSome result (λ x. (at ≤ x.1) × (x.1 ≤ length bytes.now)) }
    ensures few { IfSome result (λ x. x.0 < 63) }
    ensures gives { IfSome result (λ x. Spelt false presence (drop at bytes.now)
        (pos x.0) (drop x.1 bytes.now)) }
{
    match read_removal(presence, bytes, at) {
        Some(removed) => Some((removed, at + 1)),
        None => read_long_removal(presence, bytes, at),
    }
}

/// How many units a subtraction length removes at the end, if they are few and its shortest form stands behind one needless
/// group or two, the place where that begins, and the one behind it. (A call of its own, so that others do not pay for it.)
#[inline(never)]
fn read_removal_behind(presence: Presence, bytes: &[u8], at: usize) -> Option<(usize, usize, usize)>
    requires { at ≤ length bytes.now }
    ensures first { IfSome result (λ x. (at + 1 ≤ x.1) × (x.1 ≤ at + 2)) }
    ensures place { IfSome result (λ x. (x.1 ≤ x.2) × (x.2 ≤ length bytes.now)) }
    ensures few { IfSome result (λ x. x.0 < 63) }
    ensures stands { IfSome result (λ x. StandsFrom false presence bytes.now at x.1 x.2 (pos x.0)) }
{
    let (removed, first, next) = read_behind(false, presence, bytes, at)?;
    let count = few_bytes(i128::from(removed))?;
    (count < usize::from(FEW)).then_some((count, first, next))
}

/// The same where its shortest form stands here, or behind one needless group or two.
#[inline(always)]
pub(crate) fn find_removal(
    presence: Presence,
    bytes: &[u8],
    at: usize,
) -> Option<(usize, usize, usize)>
    requires { at ≤ length bytes.now }
    ensures first { IfSome result (λ x. (at ≤ x.1) × (x.1 ≤ at + 2)) }
    ensures place { IfSome result (λ x. (x.1 ≤ x.2) × (x.2 ≤ length bytes.now)) }
    ensures few { IfSome result (λ x. x.0 < 63) }
    ensures stands { IfSome result (λ x. StandsFrom false presence bytes.now at x.1 x.2 (pos x.0)) }
{
    match read_removal(presence, bytes, at) {
        Some(removed) => Some((removed, at, at + 1)),
        None => read_removal_behind(presence, bytes, at),
    }
}

/// A length that is not too large and whose shortest form stands behind one needless group or two, the place where that begins, and
/// the one behind it.
#[inline(always)]
pub(crate) fn read_length_behind(
    presence: Presence,
    bytes: &[u8],
    at: usize,
) -> Option<(usize, usize, usize)>
    requires { at ≤ length bytes.now }
    ensures first { IfSome result (λ x. (at + 1 ≤ x.1) × (x.1 ≤ at + 2)) }
    ensures place { IfSome result (λ x. (x.1 ≤ x.2) × (x.2 ≤ length bytes.now)) }
    ensures few { IfSome result (λ x. x.0 ≤ 65535) }
    ensures stands { IfSome result (λ x. StandsFrom true presence bytes.now at x.1 x.2 (pos x.0)) }
{
    let (length, first, start) = read_behind(true, presence, bytes, at)?;
    Some((few_bytes(i128::from(length))?, first, start))
}

/// The same as `read_length`, of a length of more bytes.
#[inline(never)]
fn read_long_length(presence: Presence, bytes: &[u8], at: usize) -> Option<(usize, usize)>
    requires { at ≤ length bytes.now }
    ensures place { IfSome result (λ x. (at ≤ x.1) × (x.1 ≤ length bytes.now)) }
    ensures few { IfSome result (λ x. x.0 ≤ 65535) }
    ensures stands { IfSome result (λ x. StandsAt true presence bytes.now at x.1 (pos x.0)) }
{
    let (length, start) = read_shortest(true, presence, bytes, at)?;
    Some((few_bytes(i128::from(length))?, start))
}

/// A length that stands in its shortest form and is not too large, and the place behind it.
#[inline(always)]
pub(crate) fn read_length(presence: Presence, bytes: &[u8], at: usize) -> Option<(usize, usize)>
    requires { at ≤ length bytes.now }
    ensures place { IfSome result (λ x. (at ≤ x.1) × (x.1 ≤ length bytes.now)) }
    ensures few { IfSome result (λ x. x.0 ≤ 65535) }
    ensures stands { IfSome result (λ x. StandsAt true presence bytes.now at x.1 (pos x.0)) }
{
    let zero = zero_byte(presence);
    if at < bytes.len() && bytes[at] >= zero {
        return Some((usize::from(bytes[at] - zero), at + 1));
    }
    // NULL
    if at < bytes.len() && bytes[at] >= 128 {
        return None;
    }
    read_long_length(presence, bytes, at)
}

/// Reads the length of a sequence, or NULL, that is always sent, kept nowhere, and stands in one byte, which is its best form.
/// None: another way tells.
#[inline(always)]
pub fn read_short_length(instr: &FieldPart, bytes: &[u8], at: usize) -> Option<Option<u32>>
    requires place { at ≤ length bytes.now }
    requires kind { instr.now.kind ≡ UInt32 }
    requires part { instr.now.part ≡ Length }
    ensures place { IfSome result (λ number. at < length bytes.now) }
    ensures bit { IfSome result (λ number. part_needs_bit instr.now ≡ false) }
    ensures relays { IfSome result (λ number. RelaysByte instr.now number bytes.now at) }
{
    if instr.operator != Operator::Plain {
        return None;
    }
    if instr.presence == Presence::Optional && begins_with_null(bytes, at) {
        return Some(None);
    }
    let zero = zero_byte(instr.presence);
    if at < bytes.len() && bytes[at] >= zero {
        Some(Some(u32::from(bytes[at] - zero)))
    } else {
        None
    }
}

/// Puts a number in the place of another one that an entry has; answers whether it did.
#[inline(always)]
fn put_other(entry: &mut Entry, number: u32) -> bool
    ensures put { result ≡ true → (before : ℕ) × (entry.old ≡ Assigned (U32 before)) × (before ≢ number)
        × (entry.new ≡ Assigned (U32 number)) }
    ensures unchanged { result ≡ false → entry.new ≡ entry.old }
{
    match entry {
        Entry::Assigned(Scalar::U32(before)) => {
            if *before == number {
                return false;
            }
            *before = number;
            true
        }
        _ => false,
    }
}

/// Takes a number without sign that is always there and kept, that stands in one byte and that bit 0 does not give: the byte is its
/// best form. The entry is the one afterwards. None: nothing has changed, and another way tells.
#[inline(always)]
pub fn take_short_number(
    instr: &FieldPart,
    entry: &mut Entry,
    bytes: &[u8],
    at: usize,
) -> Option<u32>
    requires place { at ≤ length bytes.now }
    requires kind { instr.now.kind ≡ UInt32 }
    requires part { instr.now.part ≡ Whole }
    ensures place { IfSome result (λ number. at < length bytes.now) }
    ensures stands { IfSome result (λ number. StandsByte instr.now entry.old entry.new number bytes.now at) }
    ensures unchanged { IfNone result (entry.new ≡ entry.old) }
{
    if instr.operator != Operator::Copy || instr.presence == Presence::Optional {
        return None;
    }
    if at >= bytes.len() || bytes[at] < ZERO {
        return None;
    }
    let number = u32::from(bytes[at] - ZERO);
    // most have a number before, which is another one
    if put_other(entry, number) {
        return Some(number);
    }
    if is_left_out(instr, entry.view(), Some(&Scalar::U32(number))) {
        return None;
    }
    *entry = Entry::Assigned(Scalar::U32(number));
    Some(number)
}
