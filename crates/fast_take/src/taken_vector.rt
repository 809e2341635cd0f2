//! Unicode strings and byte vectors that are sent whole. Whatever was sent is taken here.

ghost use Rattle.std.specs.Prelude.{◌≡◌, ◌≤◌, ◌≤ℤ◌, ◌⊎◌, Ok, Err, pos, true, length, slice_range, MatchResult};
ghost use Rattle.fast_field.specs.FieldReading.{unit_value};
ghost use Rattle.fast_field.specs.declared.fault.FieldFault.TheVariants.{Memory};
ghost use Rattle.fast_take.specs.Sent.{IsBehind};
ghost use Rattle.fast_field.specs.Parts.{IsFieldPart};
ghost use Rattle.fast_take.specs.Numbers.{SpellsWhole};
ghost use Rattle.fast_take.specs.Texts.{IsVectorKind};
ghost use Rattle.fast_take.specs.Takes.{IsStopped, IsTook};

use crate::taken_integer::{keep, keep_none, needed_from};
use crate::took::{Aside, Took, Unkept};
use fast_dictionary::{Entry, Spare};
use fast_field::{FieldFault, is_left_out, read_integer, value_of_units};
use fast_template::{FieldPart, Scalar};
use fast_wire::{Level, Nullable, Span};

/// The place behind so many bytes.
#[inline(always)]
fn place_behind(count: i128, bytes: &[u8], start: usize) -> Result<usize, FieldFault>
    requires place { start ≤ length bytes.now }
    requires count { pos 0 ≤ℤ count }
    ensures { IsBehind count bytes.now start result }
{
    if count > 65_535 {
        return Err(FieldFault::Limit);
    }
    let count = count as usize;
    if count > bytes.len() - start {
        return Err(FieldFault::NeedMore);
    }
    Ok(start + count)
}

/// The string or vector that stands between two places, copied once.
#[inline(always)]
fn value_between(
    spare: &mut Spare,
    instr: &FieldPart,
    bytes: &[u8],
    start: usize,
    next: usize,
) -> Result<Scalar, FieldFault>
    requires place { start ≤ next }
    requires within { next ≤ length bytes.now }
    ensures { MatchResult result (λ v. unit_value instr.now.kind (slice_range bytes.now start next) ≡ Ok v)
        (λ f. (f ≡ Memory) ⊎ (unit_value instr.now.kind (slice_range bytes.now start next) ≡ Err f)) }
{
    let mut units = spare.take();
    if units.extend_from_slice(&bytes[start..next]).is_err() {
        return Err(FieldFault::Memory);
    }
    value_of_units(instr.kind, units)
}

/// Takes a Unicode string or a byte vector that was sent whole, and makes its entry the one afterwards.
///
/// # Errors
///
/// The first fault of the field, and the entry is as it was. Memory: for the copy.
pub(crate) fn take_vector(
    instr: &FieldPart,
    entry: &mut Entry,
    level: Level,
    bytes: &[u8],
    at: usize,
    aside: &mut Aside,
) -> Result<Took, FieldFault>
    requires place { at ≤ length bytes.now }
    requires part { IsFieldPart instr.now }
    requires kind { IsVectorKind instr.now.kind }
    requires whole { SpellsWhole instr.now.operator }
    ensures { MatchResult result
        (IsTook level instr.now entry.old entry.new true bytes.now at aside.new)
        (IsStopped level instr.now entry.old entry.new true bytes.now at) }
{
    let (sent, start) = read_integer(true, instr.presence, level, bytes, at)?;
    let first = needed_from(true, bytes, at, start);
    match sent {
        Nullable::Null => {
            let given = is_left_out(instr, entry.view(), None);
            keep_none(&mut aside.spare, instr, entry);
            Ok(aside.tell(false, given, at, first, start))
        }
        Nullable::Value(count) => {
            let next = place_behind(count, bytes, start)?;
            let value = value_between(&mut aside.spare, instr, bytes, start, next)?;
            let given = is_left_out(instr, entry.view(), Some(&value));
            aside.unkept = Unkept::Units(Span { start, end: next });
            keep(&mut aside.spare, instr, entry, value);
            Ok(aside.tell(true, given, at, first, next))
        }
    }
}
