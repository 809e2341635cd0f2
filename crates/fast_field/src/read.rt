//! Reading one field.

ghost use Rattle.std.specs.Prelude.{◌≡◌, ℕ, ◌≤◌, List, ◌++◌, length, drop, Option, Ok, ◌⊎◌, IfOk, MatchResult, OnErr};
ghost use Rattle.fast_wire.specs.declared.level.Level.TheVariants.{Usual};
ghost use Rattle.fast_dictionary.specs.Dictionary.{entry_of};
ghost use Rattle.fast_value.specs.declared.scalar.Scalar as scalar;
ghost use Rattle.fast_wire.specs.Reading.{Gives, GivesAt, Reads};
ghost use Rattle.fast_field.specs.Bases.{next};
ghost use Rattle.fast_field.specs.Calls.{Answers, OrRefused};
ghost use Rattle.fast_field.specs.FieldReading.{IsFieldFault, field_at, part_checked, row_at};
ghost use Rattle.fast_field.specs.Fields.{Form};
ghost use Rattle.fast_field.specs.Found.{CanLie, value_found};
ghost use Rattle.fast_field.specs.Parts.{HasDefault, IsBitOf};

use crate::afterwards::{next_entry, settle};
use crate::base::{integer, predicted_value};
use crate::delta::read_delta;
use crate::fault::FieldFault;
use crate::found::Found;
use crate::passed::pass_found;
use crate::tail::read_tail;
use crate::whole::{exponent_within, read_whole};
use fast_dictionary::{Entry, EntryRef, Spare};
use fast_template::{FieldPart, Operator, Part, Scalar};
use fast_wire::Level;
use std::alloc::Global;

/// The most elements of a sequence.
pub(crate) const LENGTH_LIMIT: i128 = 65_535;

/// The value that this bit and the bytes give, before the limits of a part.
#[tactic(auto, using(crate::proofs::CallSteps::call_steps), unfolding(crate::specs::FieldReading::row_at, crate::specs::FieldReading::whole_at, crate::specs::FieldReading::predicted_at))]
#[inline(always)]
fn read_row(
    spare: &mut Spare,
    instr: &FieldPart,
    kept: EntryRef,
    bit: bool,
    level: Level,
    bytes: &[u8],
    at: usize,
) -> Result<(Found, usize), FieldFault>
    requires { at ≤ length bytes.now }
    ensures place { IfOk result (λ x. (at ≤ x.1) × (x.1 ≤ length bytes.now)) }
    ensures lies { IfOk result (λ x. CanLie (entry_of kept.entry) x.0) }
    ensures gives { GivesAt OrRefused
        (row_at level instr.now.operator instr.now (entry_of kept.entry) bit)
        (value_found instr.now (entry_of kept.entry)) bytes.now at result }
{
    match instr.operator {
        Operator::Constant => {
            let value = if bit { Found::Initial } else { Found::Absent };
            Ok((value, at))
        }
        Operator::Default if !bit => Ok((Found::Initial, at)),
        Operator::Copy | Operator::Increment | Operator::Tail if !bit => {
            Ok((predicted_value(instr, kept)?, at))
        }
        Operator::Plain | Operator::Default | Operator::Copy | Operator::Increment => {
            let (value, next) = read_whole(
                spare,
                instr.part,
                instr.kind,
                instr.presence,
                level,
                bytes,
                at,
            )?;
            Ok((Found::own(value), next))
        }
        Operator::Delta => {
            let (value, next) = read_delta(spare, instr, kept, level, bytes, at)?;
            Ok((Found::own(value), next))
        }
        Operator::Tail => {
            let (value, next) = read_tail(spare, instr, kept, level, bytes, at)?;
            Ok((Found::own(value), next))
        }
    }
}

/// The limits of an exponent and of a length.
#[tactic(auto, unfolding(crate::specs::FieldReading::part_checked))]
#[inline(always)]
fn check_part(instr: &FieldPart, kept: EntryRef, found: &Found) -> Result<(), FieldFault>
    ensures { Answers (λ _. value_found instr.now (entry_of kept.entry) found.now) result
        (part_checked instr.now.part (value_found instr.now (entry_of kept.entry) found.now)) }
{
    let Some(value) = found.value(instr, kept) else {
        return Ok(());
    };
    match instr.part {
        Part::Exponent if exponent_within(integer(value)).is_none() => Err(FieldFault::R1),
        Part::Length if integer(value) > LENGTH_LIMIT => Err(FieldFault::Limit),
        _ => Ok(()),
    }
}

/// Reads a field that begins at `at`, and answers where its value lies and the place after it. The entry stays
/// as it is. `bit` is the field's bit in the presence map, true where it has none.
///
/// # Errors
///
/// The first fault of the field on the bytes from `at` on. Memory: the copy of a string or a vector was
/// refused, and no more bytes were needed.
#[tactic(auto, using(crate::proofs::CallSteps::call_steps), unfolding(crate::specs::FieldReading::field_at))]
#[inline(always)]
pub fn find_field(
    spare: &mut Spare,
    instr: &FieldPart,
    kept: EntryRef,
    bit: bool,
    level: Level,
    bytes: &[u8],
    at: usize,
) -> Result<(Found, usize), FieldFault>
    requires { at ≤ length bytes.now }
    ensures place { IfOk result (λ x. (at ≤ x.1) × (x.1 ≤ length bytes.now)) }
    ensures lies { IfOk result (λ x. CanLie (entry_of kept.entry) x.0) }
    ensures gives { GivesAt OrRefused (field_at level instr.now (entry_of kept.entry) bit)
        (value_found instr.now (entry_of kept.entry)) bytes.now at result }
    // what is read is read whatever follows
    ensures goes { IfOk result (λ x. (more : List ℕ)
        → field_at level instr.now (entry_of kept.entry) bit (drop at bytes.now ++ more)
        ≡ Ok (value_found instr.now (entry_of kept.entry) x.0, drop x.1 bytes.now ++ more)) }
{
    let (found, next) = read_row(spare, instr, kept, bit, level, bytes, at)?;
    check_part(instr, kept, &found)?;
    Ok((found, next))
}

/// Reads a field that begins at `at`, makes its entry the one afterwards where it lies, and answers where the value
/// lies then and the place after it. A number takes no memory, and an entry that the operator leaves is not touched.
///
/// # Errors
///
/// As `find_field`, and the entry is as it was. Memory: also where an initial value was to be copied.
#[inline(never)]
pub fn read_in_place(
    spare: &mut Spare,
    instr: &FieldPart,
    entry: &mut Entry,
    bit: bool,
    level: Level,
    bytes: &[u8],
    at: usize,
) -> Result<(Found, usize), FieldFault>
    requires { at ≤ length bytes.now }
    ensures place { IfOk result (λ x. (at ≤ x.1) × (x.1 ≤ length bytes.now)) }
    ensures entry { IfOk result (λ x. entry.new
        ≡ next instr.now entry.old (value_found instr.now entry.new x.0)) }
    ensures unchanged { OnErr result (entry.new ≡ entry.old) }
    ensures gives { GivesAt OrRefused (field_at level instr.now entry.old bit)
        (value_found instr.now entry.new) bytes.now at result }
    ensures goes { IfOk result (λ x. (more : List ℕ)
        → field_at level instr.now entry.old bit (drop at bytes.now ++ more)
        ≡ Ok (value_found instr.now entry.new x.0, drop x.1 bytes.now ++ more)) }
{
    if !bit {
        if let Some(found) = pass_found(instr, entry) {
            return Ok((found, at));
        }
    }
    let (found, next) = find_field(spare, instr, entry.view(), bit, level, bytes, at)?;
    let found = settle(spare, instr, entry, found)?;
    Ok((found, next))
}

/// The value of a field, the entry afterwards, and the place after it.
fn read_copied(
    alloc: Global,
    instr: &FieldPart,
    kept: EntryRef,
    bit: bool,
    level: Level,
    bytes: &[u8],
    at: usize,
) -> Result<(Option<Scalar>, Entry, usize), FieldFault>
    requires { at ≤ length bytes.now }
    ensures place { IfOk result (λ x. (at ≤ x.2) × (x.2 ≤ length bytes.now)) }
    ensures entry { IfOk result (λ x. x.1 ≡ next instr.now (entry_of kept.entry) x.0) }
    ensures gives { Gives OrRefused (λ x. (x.0, drop x.2 bytes.now))
        result (field_at level instr.now (entry_of kept.entry) bit (drop at bytes.now)) }
{
    let mut spare = Spare::new(alloc);
    let (found, place) = find_field(&mut spare, instr, kept, bit, level, bytes, at)?;
    let entry = next_entry(alloc, instr, kept, found.value(instr, kept))?;
    let value = found.into_value(alloc, instr, kept)?;
    Ok((value, entry, place))
}

/// Reads a field that begins at `at`, and answers its value, none where it is absent, the entry afterwards, and the
/// place after it. `bit` is the field's bit in the presence map, true where it has none.
///
/// # Errors
///
/// The first fault of the field on the bytes from `at` on: NeedMore where they end before the field does. Memory: a
/// copy was refused, and no more bytes were needed.
pub fn read_field(
    alloc: Global,
    instr: &FieldPart,
    kept: EntryRef,
    bit: bool,
    level: Level,
    bytes: &[u8],
    at: usize,
) -> Result<(Option<Scalar>, Entry, usize), FieldFault>
    requires { at ≤ length bytes.now }
    ensures place { IfOk result (λ x. (at ≤ x.2) × (x.2 ≤ length bytes.now)) }
    // what is read is a form of the value, and a refusal is the first fault, or memory's; a field without a bit is
    // read with bit true, and a mandatory default has an initial value
    ensures answer { IsBitOf instr.now bit → HasDefault instr.now
        → MatchResult result (λ x. Reads (Form level instr.now (entry_of kept.entry) bit) bytes.now at
        (x.0, x.2))
        (λ f. IsFieldFault level instr.now (entry_of kept.entry) bit (drop at bytes.now) f
        ⊎ ((f ≡ FieldFault.Memory)
        × (IsFieldFault level instr.now (entry_of kept.entry) bit
        (drop at bytes.now) FieldFault.NeedMore → ⊥))) }
    // what is a form of a value is read, unless memory is refused
    ensures only { IsBitOf instr.now bit → HasDefault instr.now
        → (next : ℕ) (value : Option scalar.Scalar)
        → Reads (Form level instr.now (entry_of kept.entry) bit) bytes.now at (value, next)
        → MatchResult result (λ x. (x.0 ≡ value) × (x.2 ≡ next)) (λ f. f ≡ FieldFault.Memory) }
    // the entry afterwards follows from the value
    ensures entry { IfOk result (λ x. x.1 ≡ next instr.now (entry_of kept.entry) x.0) }
    // the same by the function that reads the front of a list
    ensures gives { Gives OrRefused (λ x. (x.0, drop x.2 bytes.now))
        result (field_at level instr.now (entry_of kept.entry) bit (drop at bytes.now)) }
    // and whatever follows
    ensures goes { IfOk result (λ x. (more : List ℕ)
        → field_at level instr.now (entry_of kept.entry) bit (drop at bytes.now ++ more)
        ≡ Ok (x.0, drop x.2 bytes.now ++ more)) }
{
    read_copied(alloc, instr, kept, bit, level, bytes, at)
}
