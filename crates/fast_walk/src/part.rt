//! Taking the number of a part from the bytes.

ghost use Rattle.std.specs.Prelude.{◌≡◌, ◌≢◌, ◌≤◌, false, true, IfOk, IsTrue, None, Some, length};
ghost use Rattle.fast_value.specs.declared.kind.Kind.TheVariants.{Int32, Int64, UInt32};
ghost use Rattle.fast_value.specs.declared.kind.Part.TheVariants.{Exponent, Length, Mantissa};
ghost use Rattle.fast_value.specs.declared.kind.Presence.TheVariants.{Mandatory};
ghost use Rattle.fast_value.specs.declared.scalar.Scalar.TheVariants.{I64, U32};
ghost use Rattle.fast_template.specs.Resolved.{part_needs_bit};
ghost use Rattle.fast_field.specs.Parts.{IsBitOf, IsFieldPart};
ghost use Rattle.fast_field.specs.Within.{HoldsScalar};
ghost use Rattle.fast_take.specs.Lying.{of_mantissa};
ghost use Rattle.fast_stream.specs.Streams.{identifier as identifier_part};
ghost use Rattle.fast_walk.specs.Received.{exponent_of, length_of};
ghost use Rattle.fast_walk.specs.PartTaking.{Takes, TakesFrom};
ghost use Rattle.fast_walk.specs.Told.{IsTold, KeepScalars};

use fast_dictionary::{Entries, Entry};
use fast_field::FieldFault;
use fast_take::{Aside, take};
use fast_template::FieldPart;
use fast_wire::Level;

/// Takes a number without sign of 32 bits, and makes its entry the one afterwards.
#[inline(always)]
fn take_count(
    part: &FieldPart,
    entry: &mut Entry,
    bit: bool,
    level: Level,
    bytes: &[u8],
    at: usize,
    aside: &mut Aside,
) -> Result<(Option<u32>, usize), FieldFault>
    requires place { at ≤ length bytes.now }
    requires bit { IsBitOf part.now bit }
    requires part { IsFieldPart part.now }
    requires kind { part.now.kind ≡ UInt32 }
    requires entry { HoldsScalar entry.old }
    ensures taken { TakesFrom length_of level part.now bit bytes.now at entry.old entry.new result }
    ensures there { part.now.presence ≡ Mandatory → IfOk result (λ x. x.0 ≢ None) }
{
    let took = take(part, entry, bit, level, bytes, at, aside)?;
    Ok((aside.count_in(took, part, entry, bit), took.place()))
}

/// The same of an exponent.
#[inline(always)]
fn take_exponent_of(
    part: &FieldPart,
    entry: &mut Entry,
    bit: bool,
    level: Level,
    bytes: &[u8],
    at: usize,
    aside: &mut Aside,
) -> Result<(Option<i32>, usize), FieldFault>
    requires place { at ≤ length bytes.now }
    requires bit { IsBitOf part.now bit }
    requires part { IsFieldPart part.now }
    requires kind { part.now.kind ≡ Int32 }
    requires entry { HoldsScalar entry.old }
    ensures { TakesFrom exponent_of level part.now bit bytes.now at entry.old entry.new result }
{
    let took = take(part, entry, bit, level, bytes, at, aside)?;
    Ok((aside.exponent_in(took, part, entry, bit), took.place()))
}

/// The same of a mantissa.
#[inline(always)]
fn take_mantissa_of(
    part: &FieldPart,
    entry: &mut Entry,
    bit: bool,
    level: Level,
    bytes: &[u8],
    at: usize,
    aside: &mut Aside,
) -> Result<(Option<i64>, usize), FieldFault>
    requires place { at ≤ length bytes.now }
    requires bit { IsBitOf part.now bit }
    requires part { IsFieldPart part.now }
    requires kind { part.now.kind ≡ Int64 }
    requires entry { HoldsScalar entry.old }
    ensures taken { TakesFrom of_mantissa level part.now bit bytes.now at entry.old entry.new result }
    ensures there { part.now.presence ≡ Mandatory → IfOk result (λ x. x.0 ≢ None) }
{
    let took = take(part, entry, bit, level, bytes, at, aside)?;
    Ok((aside.mantissa_in(took, part, entry, bit), took.place()))
}

/// Takes a template's identifier, which it answers with the place behind it.
///
/// # Errors
///
/// The first fault of the part, and the entries are as they were. Memory: a growth was refused.
#[inline(always)]
pub fn take_identifier<E: Entries>(
    entries: &mut E,
    identifier: &FieldPart,
    bit: bool,
    level: Level,
    bytes: &[u8],
    at: usize,
    aside: &mut Aside,
) -> Result<(u32, usize), FieldFault>
    requires place { at ≤ length bytes.now }
    requires bit { part_needs_bit identifier.now ≡ false → bit ≡ true }
    requires served { IsTrue (E.serves entries.now identifier.now.key) }
    requires told { identifier.now ≡ identifier_part }
    requires kept { KeepScalars (E.contents entries.now) }
    ensures takes { Takes (λ id. Some (U32 id)) level identifier.now bit bytes.now at (E.contents entries.old)
        (E.contents entries.new) result }
    ensures same_keys { E.serves entries.new ≡ E.serves entries.old }
{
    let entry = entries.entry_mut(&identifier.key)?;
    match take_count(identifier, entry, bit, level, bytes, at, aside)? {
        (Some(id), next) => Ok((id, next)),
        (None, _next) => unreachable!(),
    }
}

/// Takes the length of a sequence, none where that is absent, and the place behind it.
///
/// # Errors
///
/// As `take_identifier`.
#[inline(always)]
pub fn take_length<E: Entries>(
    entries: &mut E,
    part: &FieldPart,
    bit: bool,
    level: Level,
    bytes: &[u8],
    at: usize,
    aside: &mut Aside,
) -> Result<(Option<u32>, usize), FieldFault>
    requires place { at ≤ length bytes.now }
    requires bit { part_needs_bit part.now ≡ false → bit ≡ true }
    requires served { IsTrue (E.serves entries.now part.now.key) }
    requires told { IsTold Length UInt32 part.now }
    requires kept { KeepScalars (E.contents entries.now) }
    ensures takes { Takes length_of level part.now bit bytes.now at (E.contents entries.old)
        (E.contents entries.new) result }
    ensures same_keys { E.serves entries.new ≡ E.serves entries.old }
{
    let entry = entries.entry_mut(&part.key)?;
    take_count(part, entry, bit, level, bytes, at, aside)
}

/// Takes the exponent of a decimal in parts, none where that is absent, and the place behind it.
///
/// # Errors
///
/// As `take_identifier`.
#[inline(always)]
pub fn take_exponent<E: Entries>(
    entries: &mut E,
    part: &FieldPart,
    bit: bool,
    level: Level,
    bytes: &[u8],
    at: usize,
    aside: &mut Aside,
) -> Result<(Option<i32>, usize), FieldFault>
    requires place { at ≤ length bytes.now }
    requires bit { part_needs_bit part.now ≡ false → bit ≡ true }
    requires served { IsTrue (E.serves entries.now part.now.key) }
    requires told { IsTold Exponent Int32 part.now }
    requires kept { KeepScalars (E.contents entries.now) }
    ensures takes { Takes exponent_of level part.now bit bytes.now at (E.contents entries.old)
        (E.contents entries.new) result }
    ensures same_keys { E.serves entries.new ≡ E.serves entries.old }
{
    let entry = entries.entry_mut(&part.key)?;
    take_exponent_of(part, entry, bit, level, bytes, at, aside)
}

/// Takes the mantissa of a decimal whose exponent is there, and the place behind it.
///
/// # Errors
///
/// As `take_identifier`.
#[inline(always)]
pub fn take_mantissa<E: Entries>(
    entries: &mut E,
    part: &FieldPart,
    bit: bool,
    level: Level,
    bytes: &[u8],
    at: usize,
    aside: &mut Aside,
) -> Result<(i64, usize), FieldFault>
    requires place { at ≤ length bytes.now }
    requires bit { part_needs_bit part.now ≡ false → bit ≡ true }
    requires served { IsTrue (E.serves entries.now part.now.key) }
    requires told { IsTold Mantissa Int64 part.now }
    requires kept { KeepScalars (E.contents entries.now) }
    requires mandatory { part.now.presence ≡ Mandatory }
    ensures takes { Takes (λ mantissa. Some (I64 mantissa)) level part.now bit bytes.now at (E.contents entries.old)
        (E.contents entries.new) result }
    ensures same_keys { E.serves entries.new ≡ E.serves entries.old }
{
    let entry = entries.entry_mut(&part.key)?;
    match take_mantissa_of(part, entry, bit, level, bytes, at, aside)? {
        (Some(mantissa), next) => Ok((mantissa, next)),
        (None, _next) => unreachable!(),
    }
}
