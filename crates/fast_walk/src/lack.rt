//! How many bytes more a piece lacks at least that has begun, so that whoever holds its bytes need not read it again
//! before they have come.
//!
//! Asked of instructions: of the entity that one begins with, and of a vector behind its length. What else there is, is
//! read again.

ghost use Rattle.std.specs.Prelude.{◌≡◌, ◌≤◌, ◌<◌, ◌+◌, ◌++◌, [], ℕ, Bool, true, false, List, IfSome, IsTrue, Err, Ok, length, drop};
ghost use Rattle.fast_wire.specs.Level.{judge, overlong_unsigned as overlong_unsigned_of};
ghost use Rattle.fast_wire.specs.declared.nullable.Nullable.TheVariants.{Value};
ghost use Rattle.fast_template.specs.Resolved.{part_needs_bit as part_needs_bit_of};
ghost use Rattle.fast_stream.specs.Bits.{bit_for};
ghost use Rattle.fast_dictionary.specs.declared.entry.Entry.{Entry};
ghost use Rattle.fast_dictionary.specs.Dictionary.{Dictionary, entry_of};
ghost use Rattle.fast_field.specs.Faults.{field_fault};
ghost use Rattle.fast_walk.specs.Lacks.{AreUnstopped, EntityLacks, FieldLacks, HasSecond, IsCount, IsNextPart, Lacks, VectorLacks, WalkLacks, WantsByte, WholeLacks, first_limit as first_limit_of, sends};

use crate::bits::first_for;
use crate::traversal::{Stage, Traversal};
use crate::walk::{Next, Walk};
use fast_dictionary::{Entries, EntryRef, Spare};
use fast_field::{FieldFault, find_field};
use fast_template::{FieldPart, Flat, Kind, Operator, Presence, part_needs_bit};
use fast_wire::{
    Bits, Level, Nullable, entity_end, find_stop, overlong_unsigned, read_unsigned,
    read_unsigned_nullable,
};
use std::alloc::Global;

/// The stop bit of a byte.
const STOP: u8 = 0x80;

/// The most bytes of an ASCII string.
const TEXT_LIMIT: usize = 65_540;

/// The most bytes of a number, a vector's length among them.
const NUMBER_LIMIT: usize = 10;

/// The most bytes of a vector behind its length.
const VECTOR_LIMIT: u128 = 65_535;

/// Bytes that are too few for the piece that has begun.
#[derive(Clone, Copy)]
pub struct Lack {
    /// So many bytes more are too few.
    pub most: usize,
    /// Of which instruction the piece is.
    pub number: u32,
    /// Only if none of them has its stop bit set.
    pub until_stop: bool,
}

/// Whether a stop bit is set in these bytes.
#[inline(always)]
pub fn has_stop(bytes: &[u8]) -> bool
    ensures unstopped { result ≡ false → AreUnstopped bytes.now }
    ensures stopped { AreUnstopped bytes.now → result ≡ false }
{
    match bytes {
        [] => false,
        [byte] => *byte >= STOP,
        _ => find_stop(bytes).is_some(),
    }
}

// Whether something of a field stands in the stream under this bit.
fn is_sent(operator: Operator, bit: bool) -> bool
    ensures { result ≡ sends operator bit }
{
    match operator {
        Operator::Plain | Operator::Delta => true,
        Operator::Default | Operator::Copy | Operator::Increment | Operator::Tail => bit,
        Operator::Constant => false,
    }
}

// The same under the bit that is next of these. (Where an operator always takes a bit, or never, it is not asked.)
#[inline(always)]
fn is_part_sent(bits: &Bits, part: &FieldPart) -> bool
    ensures { result ≡ sends part.now.operator (bit_for (part_needs_bit_of part.now) bits.now) }
{
    match part.operator {
        Operator::Plain | Operator::Delta => true,
        Operator::Constant => false,
        Operator::Default | Operator::Copy | Operator::Increment | Operator::Tail => {
            first_for(bits, part_needs_bit(part))
        }
    }
}

// The most bytes of the entity that it begins with.
fn first_limit(operator: Operator, kind: Kind) -> usize
    ensures limit { result ≡ first_limit_of operator kind }
    ensures some { 0 < result }
{
    match operator {
        Operator::Delta => NUMBER_LIMIT,
        _ => match kind {
            Kind::Ascii => TEXT_LIMIT,
            _ => NUMBER_LIMIT,
        },
    }
}

// What an entity of at most so many bytes lacks: its stop bit.
#[inline(always)]
fn entity_lack(number: u32, limit: usize, bytes: &[u8]) -> Option<Lack>
    ensures { IfSome result (EntityLacks number limit bytes.now) }
{
    if bytes.len() >= limit || has_stop(bytes) {
        return None;
    }
    Some(Lack {
        number,
        most: limit - 1 - bytes.len(),
        until_stop: true,
    })
}

// Whether a vector's length is not longer than the level allows, where it is whole.
#[tactic(auto, using(crate::proofs::Lacking::length_judged))]
fn is_fit_length(level: Level, bytes: &[u8]) -> bool
    ensures { result ≡ true → (more : List ℕ) → judge level 10 overlong_unsigned_of field_fault FieldFault.R6 (bytes.now ++ more) ≡ Ok tt }
{
    match level {
        Level::Usual => true,
        Level::Strict => match entity_end(bytes, 0, NUMBER_LIMIT) {
            Err(_) => false,
            Ok(next) => !overlong_unsigned(&bytes[..next]),
        },
    }
}

// The length of a vector, and the place behind it; none where it is not whole, or NULL.
fn length_of(presence: Presence, bytes: &[u8]) -> Option<(u128, usize)>
    ensures place { IfSome result (λ x. x.1 ≤ length bytes.now) }
    ensures count { IfSome result (λ x. IsCount presence bytes.now x.0 (drop x.1 bytes.now)) }
{
    match presence {
        Presence::Mandatory => match read_unsigned(bytes, 0) {
            Err(_) => None,
            Ok(found) => Some(found),
        },
        Presence::Optional => match read_unsigned_nullable(bytes, 0) {
            Err(_) | Ok((Nullable::Null, _)) => None,
            Ok((Nullable::Value(count), next)) => Some((count, next)),
        },
    }
}

// What a vector lacks whose length may have come: the rest of so many bytes.
fn units_lack(
    level: Level,
    number: u32,
    kind: Kind,
    presence: Presence,
    bytes: &[u8],
) -> Option<Lack>
    ensures { IfSome result (VectorLacks level kind presence number bytes.now) }
{
    match kind {
        Kind::Unicode | Kind::Bytes if is_fit_length(level, bytes) => {
            match length_of(presence, bytes) {
                None => None,
                Some((count, next)) => {
                    let have = bytes.len() - next;
                    if count > VECTOR_LIMIT || count <= have as u128 {
                        return None;
                    }
                    Some(Lack {
                        number,
                        most: count as usize - have - 1,
                        until_stop: false,
                    })
                }
            }
        }
        _ => None,
    }
}

// What lacks that is spelled by an entity, or by a vector that begins with one.
#[inline(always)]
fn whole_lack(level: Level, part: &FieldPart, presence: Presence, bytes: &[u8]) -> Option<Lack>
    ensures { IfSome result (WholeLacks level part.now.kind presence part.now.number bytes.now) }
{
    match entity_lack(part.number, first_limit(Operator::Plain, part.kind), bytes) {
        Some(lack) => Some(lack),
        None => units_lack(level, part.number, part.kind, presence, bytes),
    }
}

/// What a field lacks, of which these bytes have come.
pub(crate) fn field_lack(level: Level, part: &FieldPart, bit: bool, bytes: &[u8]) -> Option<Lack>
    ensures { IfSome result (λ l. (e : Entry) → FieldLacks level part.now e bit bytes.now l) }
{
    if !is_sent(part.operator, bit) {
        return None;
    }
    match part.operator {
        Operator::Delta => entity_lack(part.number, NUMBER_LIMIT, bytes),
        _ => whole_lack(level, part, part.presence, bytes),
    }
}

// Whether another entity stands behind the first of a field: in a decimal in one piece, and behind a removal.
#[inline(always)]
fn has_second(part: &FieldPart, bit: bool) -> bool
    ensures { result ≡ true → HasSecond part.now.operator part.now.kind bit }
{
    match part.kind {
        Kind::Decimal => match part.operator {
            Operator::Tail => false,
            _ => is_sent(part.operator, bit),
        },
        Kind::Ascii | Kind::Unicode | Kind::Bytes => part.operator == Operator::Delta,
        _ => false,
    }
}

// What a field lacks behind its first entity, where it waits, and not at a fault in front of that.
#[inline(always)]
fn rest_lack(
    alloc: Global,
    level: Level,
    part: &FieldPart,
    kept: EntryRef,
    bit: bool,
    bytes: &[u8],
) -> Option<Lack>
    ensures { IfSome result (FieldLacks level part.now (entry_of kept.entry) bit bytes.now) }
{
    if !has_second(part, bit) {
        return None;
    }
    match entity_end(bytes, 0, NUMBER_LIMIT) {
        Err(_) => None,
        Ok(next) => match whole_lack(level, part, Presence::Mandatory, &bytes[next..]) {
            None => None,
            Some(lack) => {
                if let Err(FieldFault::NeedMore) = find_field(
                    &mut Spare::new(alloc),
                    part,
                    kept,
                    bit,
                    level,
                    bytes,
                    0,
                ) {
                    return Some(lack);
                }
                None
            }
        },
    }
}

// The same, of an operator that is met less often.
#[inline(never)]
fn delta_lack(
    alloc: Global,
    level: Level,
    part: &FieldPart,
    kept: EntryRef,
    bit: bool,
    bytes: &[u8],
) -> Option<Lack>
    ensures { IfSome result (FieldLacks level part.now (entry_of kept.entry) bit bytes.now) }
{
    rest_lack(alloc, level, part, kept, bit, bytes)
}

// Whether a field may go on behind the entity that it begins with. (No promise: where it says no, such a field is read
// once too often.)
#[inline(always)]
fn is_of_two(operator: Operator, kind: Kind) -> bool {
    match kind {
        Kind::UInt32 | Kind::Int32 | Kind::UInt64 | Kind::Int64 => false,
        Kind::Ascii => operator == Operator::Delta,
        Kind::Decimal | Kind::Unicode | Kind::Bytes => true,
    }
}

impl<'a> Walk<'a> {
    // What the part lacks that is next.
    fn first_lack<E: Entries>(
        &self,
        alloc: Global,
        level: Level,
        entries: &E,
        part: &FieldPart,
        bytes: &[u8],
    ) -> Option<Lack>
        requires next { IsNextPart self.now part.now }
        requires served { IsTrue (E.serves entries.now part.now.key) }
        ensures { IfSome result (WalkLacks level self.now (E.contents entries.now) bytes.now) }
    {
        let bit = first_for(&self.bits, part_needs_bit(part));
        if let Some(lack) = field_lack(level, part, bit, bytes) {
            return Some(lack);
        }
        delta_lack(alloc, level, part, entries.get(&part.key), bit, bytes)
    }

    // What the part lacks that is next, where its first entity has come.
    fn lack_behind_first<E: Entries>(
        &self,
        alloc: Global,
        level: Level,
        entries: &E,
        part: &FieldPart,
        bytes: &[u8],
    ) -> Option<Lack>
        requires next { IsNextPart self.now part.now }
        requires served { IsTrue (E.serves entries.now part.now.key) }
        ensures { IfSome result (WalkLacks level self.now (E.contents entries.now) bytes.now) }
    {
        match part.kind {
            Kind::Unicode | Kind::Bytes => self.first_lack(alloc, level, entries, part, bytes),
            _ => {
                let bit = first_for(&self.bits, part_needs_bit(part));
                let kept = entries.get(&part.key);
                // (the operators that are met most often are looked at one by one)
                match part.operator {
                    Operator::Delta => rest_lack(alloc, level, part, kept, bit, bytes),
                    _ => delta_lack(alloc, level, part, kept, bit, bytes),
                }
            }
        }
    }

    // The part that is next.
    #[inline(always)]
    fn next_part(&self) -> Option<&FieldPart>
        ensures { IfSome result (λ p. IsNextPart self.now p.now) }
    {
        match self.next {
            Next::Instruction if self.spare > 0 => match self.rest.split_first() {
                Some((flat, _)) => match flat {
                    Flat::Field { whole: part, .. }
                    | Flat::Parts { exponent: part, .. }
                    | Flat::Sequence { length: part, .. } => Some(part),
                    Flat::Group { .. } => None,
                },
                None => None,
            },
            Next::Mantissa(mantissa) => Some(mantissa),
            Next::Instruction | Next::Element(_) => None,
        }
    }

    /// The number of the piece that is next, where it is a field that begins with a byte, so that without one nothing
    /// of it need be tried.
    #[tactic(auto, using(crate::proofs::Lacking::next_wants))]
    #[inline(always)]
    pub(crate) fn wants_byte(&self) -> Option<u32>
        ensures { IfSome result (WantsByte self.now) }
    {
        let Some(part) = self.next_part() else {
            return None;
        };
        if is_part_sent(&self.bits, part) {
            Some(part.number)
        } else {
            None
        }
    }
}

impl<'a> Traversal<'a> {
    ghost use Rattle.fast_walk.specs.Traversals.{CanGoOn};

    /// What the piece lacks at which the traversal has stopped, of which nothing has come: the stop bit of its first
    /// entity. None where that is not known.
    #[inline(always)]
    pub fn opening(&self) -> Option<Lack>
        ensures { IfSome result (λ l. (d : Dictionary) → Lacks self.now d [] l) }
    {
        if self.stage != Stage::Body {
            return None;
        }
        let Some(part) = self.walk.next_part() else {
            return None;
        };
        if !is_part_sent(&self.walk.bits, part) {
            return None;
        }
        Some(Lack {
            most: first_limit(part.operator, part.kind) - 1,
            number: part.number,
            until_stop: true,
        })
    }

    /// What the piece lacks at which the traversal has stopped, of which these bytes have come; none where that is not
    /// known.
    pub fn lack<E: Entries>(&self, entries: &E, bytes: &[u8]) -> Option<Lack>
        requires ready { CanGoOn (E.serves entries.now) self.now }
        ensures { IfSome result (Lacks self.now (E.contents entries.now) bytes.now) }
    {
        match self.stage {
            Stage::Map | Stage::Identifier => None,
            Stage::Body => match self.walk.next_part() {
                None => None,
                Some(part) => self
                    .walk
                    .first_lack(self.alloc, self.level, entries, part, bytes),
            },
        }
    }

    /// The same where the first entity of the piece is known to have come. (Where nothing can follow it, this is told at
    /// once.)
    #[inline(always)]
    pub fn lack_of_rest<E: Entries>(&self, entries: &E, bytes: &[u8]) -> Option<Lack>
        requires ready { CanGoOn (E.serves entries.now) self.now }
        ensures { IfSome result (Lacks self.now (E.contents entries.now) bytes.now) }
    {
        match self.stage {
            Stage::Map | Stage::Identifier => None,
            Stage::Body => match self.walk.next_part() {
                Some(part) if is_of_two(part.operator, part.kind) => self
                    .walk
                    .lack_behind_first(self.alloc, self.level, entries, part, bytes),
                _ => None,
            },
        }
    }
}
