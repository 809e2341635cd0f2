//! Writing one field.

ghost use Rattle.std.specs.Prelude.{◌≡◌, List, ℕ, ◌++◌, Bool, None, IfErr, IfOk, OnErr, OnOk};
ghost use Rattle.std.specs.Option.{option_copied};
ghost use Rattle.fast_dictionary.specs.Dictionary.{entry_of};
ghost use Rattle.fast_field.specs.Bases.{next};
ghost use Rattle.fast_field.specs.Chosen.{CanBePieces, ShortestPieces};
ghost use Rattle.fast_field.specs.Found.{CanLie, value_found};
ghost use Rattle.fast_field.specs.Parts.{IsFieldPart};
ghost use Rattle.fast_field.specs.Refusals.{refusal_of};
ghost use Rattle.fast_field.specs.Within.{HoldsScalar};
ghost use Rattle.fast_field.specs.Written.{AppendsBest, IsRefusal};

use crate::afterwards::{next_unless_repeated, settle};
use crate::fault::FieldRefusal;
use crate::found::Found;
use crate::pieces::{Pieces, write_pieces};
use crate::plan::choose;
use fast_dictionary::{Entry, EntryRef, Spare};
use fast_template::{FieldPart, Scalar};
use std::alloc::Global;

/// Appends the shortest form of these pieces, or nothing, where memory is refused.
#[inline(always)]
fn append(instr: &FieldPart, pieces: Pieces, out: &mut Vec<u8>) -> Result<(), FieldRefusal>
    requires { CanBePieces instr.now pieces }
    ensures ok { OnOk result ((b : List ℕ) × (out.new.items ≡ out.old.items ++ b)
        × ShortestPieces instr.now pieces.entry b) }
    ensures err { IfErr result (λ f. f ≡ FieldRefusal.Memory) }
    ensures unchanged { OnErr result (out.new.items ≡ out.old.items) }
{
    match write_pieces(instr, pieces, out) {
        Ok(()) => Ok(()),
        Err(_) => Err(FieldRefusal::Memory),
    }
}

/// Appends the best form of a value, and answers its bit.
#[inline(always)]
fn append_best(
    instr: &FieldPart,
    kept: EntryRef,
    value: Option<&Scalar>,
    out: &mut Vec<u8>,
) -> Result<bool, FieldRefusal>
    requires part { IsFieldPart instr.now }
    requires entry { HoldsScalar (entry_of kept) }
    ensures best { IfOk result (λ bit. AppendsBest instr.now (entry_of kept.entry)
        (option_copied value.entry) bit out.old.items out.new.items) }
    ensures allowed { OnOk result
        (refusal_of instr.now (entry_of kept.entry) (option_copied value.entry) ≡ None) }
    ensures refused { IfErr result
        (IsRefusal instr.now (entry_of kept.entry) (option_copied value.entry)) }
    ensures unchanged { OnErr result (out.new.items ≡ out.old.items) }
{
    let (bit, pieces) = choose(instr, kept, value)?;
    append(instr, pieces, out)?;
    Ok(bit)
}

/// Appends the best form of a value, none where it is absent: exactly the bytes that `plan_field` plans.
///
/// # Errors
///
/// As `plan_field`; else Memory, where a growth was refused. Then nothing is appended.
pub fn write_field(
    instr: &FieldPart,
    kept: EntryRef,
    value: Option<&Scalar>,
    out: &mut Vec<u8>,
) -> Result<(), FieldRefusal>
    // the instruction is as resolved, and an assigned value within its type
    requires part { IsFieldPart instr.now }
    requires entry { HoldsScalar (entry_of kept) }
    ensures best { OnOk result ((bit : Bool) × AppendsBest instr.now (entry_of kept.entry)
        (option_copied value.entry) bit out.old.items out.new.items) }
    // a value that has no form is refused for the first reason; one that has, for want of memory alone
    ensures allowed { OnOk result
        (refusal_of instr.now (entry_of kept.entry) (option_copied value.entry) ≡ None) }
    ensures refused { IfErr result
        (IsRefusal instr.now (entry_of kept.entry) (option_copied value.entry)) }
    ensures unchanged { OnErr result (out.new.items ≡ out.old.items) }
{
    append_best(instr, kept, value, out)?;
    Ok(())
}

/// Appends the best form of a value, makes its entry the one afterwards where it lies, and answers the bit of that
/// form. An entry that the operator leaves is neither copied nor put back.
///
/// # Errors
///
/// As `write_field`; Memory: also where the value was to be copied. Then nothing is appended, and the entry is as it
/// was.
pub fn write_in_place(
    alloc: Global,
    instr: &FieldPart,
    entry: &mut Entry,
    value: Option<&Scalar>,
    out: &mut Vec<u8>,
) -> Result<bool, FieldRefusal>
    requires part { IsFieldPart instr.now }
    requires entry { HoldsScalar entry.old }
    ensures best { IfOk result (λ bit. AppendsBest instr.now entry.old
        (option_copied value.entry) bit out.old.items out.new.items) }
    ensures entry { OnOk result (entry.new
        ≡ next instr.now entry.old (option_copied value.entry)) }
    ensures allowed { OnOk result
        (refusal_of instr.now entry.old (option_copied value.entry) ≡ None) }
    ensures refused { IfErr result (IsRefusal instr.now entry.old (option_copied value.entry)) }
    ensures unchanged { OnErr result (out.new.items ≡ out.old.items) }
    ensures kept { OnErr result (entry.new ≡ entry.old) }
{
    let (bit, pieces) = choose(instr, entry.view(), value)?;
    let changed = next_unless_repeated(alloc, instr, entry.view(), bit, value)?;
    append(instr, pieces, out)?;
    if let Some(changed) = changed {
        *entry = changed;
    }
    Ok(bit)
}

/// As `write_in_place`, of a value that `find_field` found on this entry: one of its own is moved into the entry and
/// not copied. Answers where the value lies then, and the bit of its best form.
///
/// # Errors
///
/// As `write_in_place`; Memory: an initial value was to be copied.
#[inline(always)]
pub fn write_found(
    spare: &mut Spare,
    instr: &FieldPart,
    entry: &mut Entry,
    found: Found,
    out: &mut Vec<u8>,
) -> Result<(Found, bool), FieldRefusal>
    requires part { IsFieldPart instr.now }
    requires entry { HoldsScalar entry.old }
    requires lies { CanLie entry.old found }
    ensures best { IfOk result (λ x. AppendsBest instr.now entry.old
        (value_found instr.now entry.old found) x.1 out.old.items out.new.items) }
    ensures value { IfOk result (λ x. value_found instr.now entry.new x.0
        ≡ value_found instr.now entry.old found) }
    ensures entry { OnOk result (entry.new
        ≡ next instr.now entry.old (value_found instr.now entry.old found)) }
    ensures allowed { OnOk result
        (refusal_of instr.now entry.old (value_found instr.now entry.old found) ≡ None) }
    ensures refused { IfErr result
        (IsRefusal instr.now entry.old (value_found instr.now entry.old found)) }
    ensures unchanged { OnErr result (out.new.items ≡ out.old.items) }
    ensures kept { OnErr result (entry.new ≡ entry.old) }
{
    let start = out.len();
    let bit = append_best(instr, entry.view(), found.value(instr, entry.view()), out)?;
    match settle(spare, instr, entry, found) {
        Ok(found) => Ok((found, bit)),
        Err(_) => {
            out.truncate(start);
            Err(FieldRefusal::Memory)
        }
    }
}
