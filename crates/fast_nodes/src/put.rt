//! A part of a message that is written.

ghost use Rattle.std.specs.Prelude.{◌≡◌, MatchResult};
ghost use Rattle.std.specs.Option.{option_copied};
ghost use Rattle.fast_field.specs.Parts.{IsFieldPart};
ghost use Rattle.fast_field.specs.Within.{HoldsScalar};
ghost use Rattle.fast_nodes.specs.Added.{IsPartPut, NoPartPut, Seals};
ghost use Rattle.fast_nodes.specs.FirstRefusal.{cause_of, fault_of, refused};
ghost use Rattle.fast_writer.specs.Levels.{level_of};

use crate::fault::{EncodeCause, EncodeFault};
use fast_dictionary::Entry;
use fast_field::{FieldRefusal, next_entry, plan_field, write_field};
use fast_template::{FieldPart, Scalar, part_needs_bit};
use fast_wire::WireFault;
use fast_writer::Segment;
use std::alloc::Global;
use std::mem;

// The cause of a message that is not written for this.
fn cause_for(refusal: FieldRefusal) -> EncodeCause
    ensures { result ≡ cause_of refusal }
{
    match refusal {
        FieldRefusal::D3 => EncodeCause::D3,
        FieldRefusal::D4 => EncodeCause::D4,
        FieldRefusal::D6 => EncodeCause::D6,
        FieldRefusal::R1 => EncodeCause::R1,
        FieldRefusal::NotConstant => EncodeCause::NotConstant,
        FieldRefusal::TooShort => EncodeCause::TooShort,
        FieldRefusal::Mismatch => EncodeCause::Mismatch,
        FieldRefusal::Limit => EncodeCause::Limit,
        FieldRefusal::Memory => EncodeCause::Memory,
    }
}

// Why a message is not written of which a part is refused for this.
fn fault_for(part: &FieldPart, refusal: FieldRefusal) -> EncodeFault
    ensures { result ≡ fault_of part.now refusal }
{
    let instruction = match refusal {
        FieldRefusal::Mismatch | FieldRefusal::Limit | FieldRefusal::Memory => 0,
        _ => part.number,
    };
    EncodeFault {
        cause: cause_for(refusal),
        instruction,
    }
}

/// A refusal that names no instruction.
pub(crate) fn refuse(cause: EncodeCause) -> EncodeFault
    ensures { result ≡ refused cause }
{
    EncodeFault {
        cause,
        instruction: 0,
    }
}

/// Appends a segment behind its map, or nothing.
///
/// # Errors
///
/// Limit: a bit is 1 for which the map has no room. Memory: a growth was refused.
pub fn seal(level: &Segment, out: &mut Vec<u8>) -> Result<(), EncodeFault>
    ensures { Seals (level_of level.now) out.old.items out.new.items result }
{
    match level.seal(out) {
        Err(WireFault::TooLong) => Err(refuse(EncodeCause::Limit)),
        Err(_) => Err(refuse(EncodeCause::Memory)),
        Ok(()) => Ok(()),
    }
}

/// Appends the best form of a value to a segment, none where it is absent, and makes its entry the one afterwards;
/// answers the entry before, so that it can be put back.
pub(crate) fn put_part(
    alloc: Global,
    part: &FieldPart,
    entry: &mut Entry,
    value: Option<&Scalar>,
    level: &mut Segment,
) -> Result<Entry, EncodeFault>
    requires part { IsFieldPart part.now }
    requires entry { HoldsScalar entry.old }
    ensures { MatchResult result
        (λ before. IsPartPut part.now (option_copied value.entry) entry.old (level_of level.old)
        before entry.new (level_of level.new))
        (λ f. NoPartPut part.now (option_copied value.entry) entry.old entry.new f) }
{
    match plan_field(part, entry.view(), value) {
        Err(refusal) => Err(fault_for(part, refusal)),
        Ok(plan) => match write_field(part, entry.view(), value, &mut level.bytes) {
            Err(_) => Err(refuse(EncodeCause::Memory)),
            Ok(()) => match next_entry(alloc, part, entry.view(), value) {
                Err(_) => Err(refuse(EncodeCause::Memory)),
                Ok(after) => match level.ask(part_needs_bit(part), plan.bit) {
                    Err(_) => Err(refuse(EncodeCause::Memory)),
                    Ok(()) => Ok(mem::replace(entry, after)),
                },
            },
        },
    }
}
