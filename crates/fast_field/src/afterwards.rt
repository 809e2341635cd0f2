//! The entry afterwards: FAST 1.1, Field Operators, Dictionaries and Previous Values.

ghost use Rattle.std.specs.Prelude.{◌≡◌, true, false, Option, IfOk, OnErr, unwrap_or};
ghost use Rattle.std.specs.Option.{option_copied};
ghost use Rattle.fast_dictionary.specs.Dictionary.{entry_of};
ghost use Rattle.fast_dictionary.specs.declared.entry.Entry as entry;
ghost use Rattle.fast_field.specs.Bases.{delta_entry, next};
ghost use Rattle.fast_value.specs.declared.scalar.Scalar as scalar;
ghost use Rattle.fast_field.specs.Planning.{left_out_of};
ghost use Rattle.fast_field.specs.Found.{CanLie, IsLeftOut, value_found};

use crate::found::Found;
use fast_dictionary::{Entry, EntryRef, Spare};
use fast_template::{FieldPart, Operator, Scalar};
use std::alloc::{AllocError, Global};
use std::mem;

/// Whether a value that bit 0 gives is the one that the entry has, and leaves it.
#[inline(always)]
pub(crate) fn is_repeated(instr: &FieldPart, kept: EntryRef) -> bool
    ensures { result ≡ true → (v : Option scalar.Scalar)
        → left_out_of instr.now.operator instr.now (entry_of kept.entry) v ≡ true
        → next instr.now (entry_of kept.entry) v ≡ entry_of kept.entry }
{
    match kept {
        EntryRef::Undefined | EntryRef::Empty => false,
        EntryRef::Assigned(_) => match instr.operator {
            Operator::Copy | Operator::Tail => true,
            Operator::Plain
            | Operator::Constant
            | Operator::Default
            | Operator::Increment
            | Operator::Delta => false,
        },
    }
}

/// The entry that a value leaves, none where that is the one that is there.
pub(crate) fn next_if_changed(
    alloc: Global,
    instr: &FieldPart,
    value: Option<&Scalar>,
) -> Result<Option<Entry>, AllocError>
    ensures { IfOk result (λ changed. (e : entry.Entry)
        → unwrap_or changed e ≡ next instr.now e (option_copied value.entry)) }
{
    match instr.operator {
        Operator::Plain | Operator::Constant | Operator::Default => Ok(None),
        Operator::Copy | Operator::Increment | Operator::Delta | Operator::Tail => match value {
            Some(value) => Ok(Some(Entry::Assigned(value.copy(alloc)?))),
            None if instr.operator == Operator::Delta => Ok(None),
            None => Ok(Some(Entry::Empty)),
        },
    }
}

/// The same where the bit of the value's best form is known: a value that bit 0 repeats is not copied.
pub(crate) fn next_unless_repeated(
    alloc: Global,
    instr: &FieldPart,
    kept: EntryRef,
    bit: bool,
    value: Option<&Scalar>,
) -> Result<Option<Entry>, AllocError>
    requires { bit ≡ false → left_out_of instr.now.operator instr.now (entry_of kept)
        (option_copied value) ≡ true }
    ensures { IfOk result (λ changed. unwrap_or changed (entry_of kept.entry)
        ≡ next instr.now (entry_of kept.entry) (option_copied value.entry)) }
{
    if !bit && is_repeated(instr, kept) {
        return Ok(None);
    }
    next_if_changed(alloc, instr, value)
}

/// The entry that a value of a field leaves, read or written.
///
/// # Errors
///
/// Where memory is refused for the copy of a string or a vector.
pub fn next_entry(
    alloc: Global,
    instr: &FieldPart,
    kept: EntryRef,
    value: Option<&Scalar>,
) -> Result<Entry, AllocError>
    ensures { IfOk result (λ entry. entry
        ≡ next instr.now (entry_of kept.entry) (option_copied value.entry)) }
{
    match next_if_changed(alloc, instr, value)? {
        Some(changed) => Ok(changed),
        None => kept.copy(alloc),
    }
}

/// Puts a value where it is kept, and answers where it lies then: a value of its own is moved into the entry, an
/// initial one is copied, and one that is there stays. An absent one is passed to the caller.
#[inline(always)]
fn assign(
    spare: &mut Spare,
    instr: &FieldPart,
    entry: &mut Entry,
    found: Found,
) -> Result<Found, AllocError>
    requires { CanLie entry.old found }
    ensures value { IfOk result (λ f. value_found instr.now entry.new f
        ≡ value_found instr.now entry.old found) }
    ensures entry { IfOk result (λ f. entry.new
        ≡ delta_entry entry.old (value_found instr.now entry.old found)) }
    ensures absent { IfOk result (λ f. IsLeftOut f (value_found instr.now entry.old found)) }
    ensures unchanged { OnErr result (entry.new ≡ entry.old) }
{
    let value = match found {
        Found::Absent => return Ok(Found::Absent),
        Found::Initial => match &instr.initial {
            None => return Ok(Found::Absent),
            Some(initial) => spare.copy(initial.value())?,
        },
        Found::Kept => return Ok(Found::Kept),
        Found::Value(value) => value,
    };
    spare.keep_entry(mem::replace(entry, Entry::Assigned(value)));
    Ok(Found::Kept)
}

/// Makes an entry the one that a value leaves, and answers where the value lies then. An entry that the operator
/// leaves is not touched. Memory only for the copy of an initial value; the entry is then as it was.
#[inline(always)]
pub(crate) fn settle(
    spare: &mut Spare,
    instr: &FieldPart,
    entry: &mut Entry,
    found: Found,
) -> Result<Found, AllocError>
    requires { CanLie entry.old found }
    ensures value { IfOk result (λ f. value_found instr.now entry.new f
        ≡ value_found instr.now entry.old found) }
    ensures entry { IfOk result (λ f. entry.new
        ≡ next instr.now entry.old (value_found instr.now entry.old found)) }
    ensures unchanged { OnErr result (entry.new ≡ entry.old) }
{
    match instr.operator {
        Operator::Plain | Operator::Constant | Operator::Default => Ok(found),
        Operator::Delta => assign(spare, instr, entry, found),
        Operator::Copy | Operator::Increment | Operator::Tail => {
            let found = assign(spare, instr, entry, found)?;
            if let Found::Absent = found {
                spare.keep_entry(mem::replace(entry, Entry::Empty));
            }
            Ok(found)
        }
    }
}
