//! The value of a field that was taken, from where it lies.

ghost use Rattle.std.specs.Prelude.{◌≡◌, ◌%◌, ℕ, List, Some, IfOk, IfSome, IsTrue, IsUtf8, OnErr, false, map, true};
ghost use Rattle.std.specs.Option.{option_copied};
ghost use Rattle.fast_wire.specs.Spans.{bytes_in};
ghost use Rattle.fast_value.specs.Scalar.{IsScalar, has_units, is_of, kind_of};
ghost use Rattle.fast_value.specs.declared.kind.Kind as kind_type;
ghost use Rattle.fast_value.specs.declared.kind.Kind.TheVariants.{Int32, Int64, Unicode};
ghost use Rattle.fast_template.specs.declared.resolved.FieldPart as part_type;
ghost use Rattle.fast_dictionary.specs.declared.entry.Entry as entry_type;
ghost use Rattle.fast_field.specs.Found.{assigned_of};
ghost use Rattle.fast_field.specs.Parts.{IsBitOf};
ghost use Rattle.fast_field.specs.Sent.{units_sent};
ghost use Rattle.fast_field.specs.Values.{of_units};
ghost use Rattle.fast_take.specs.Lying.{HasUnitsAside, IsNumberAside, is_absent as is_absent_spec, is_aside, is_kept as is_kept_spec, is_other as is_other_spec, of_exponent, of_mantissa, value_lying};
ghost use Rattle.fast_take.specs.Takes.{is_there, value_aside, value_taken, value_there};

use crate::took::{Aside, Took, Unkept};
use fast_dictionary::Entry;
use fast_template::{ByteString, FieldPart, Kind, Operator, Scalar, UnicodeText};
use fast_wire::Span;
use std::alloc::{AllocError, Global};
use std::mem;

/// Where the value of a field that was taken lies.
#[derive(Clone, Copy, Debug, PartialEq, Eq, Drop)]
enum Lies {
    /// There is none: the field is absent.
    Nowhere,
    /// It is the initial value of the instruction.
    Initially,
    /// The entry has it.
    Kept,
    /// It was sent, and no entry keeps it.
    Aside,
}

/// Whether a value that was read is in its entry afterwards.
#[inline(always)]
fn is_kept(operator: Operator) -> bool
    ensures { result ≡ is_kept_spec operator }
{
    match operator {
        Operator::Copy | Operator::Increment | Operator::Delta | Operator::Tail => true,
        Operator::Plain | Operator::Default | Operator::Constant => false,
    }
}

/// By the operator and the bit, where there is a value.
#[inline(always)]
fn where_there(operator: Operator, bit: bool) -> Lies
    ensures aside { result ≡ Lies.Aside → is_aside operator bit ≡ true }
    ensures lies { (i : part_type.FieldPart) (new : entry_type.Entry) (u : Unkept) (bytes : List ℕ)
        → value_lying result i new u bytes ≡ value_there operator i new bit u bytes }
{
    // (most fields)
    if is_kept(operator) {
        return Lies::Kept;
    }
    match operator {
        Operator::Plain => Lies::Aside,
        Operator::Default if bit => Lies::Aside,
        _ => Lies::Initially,
    }
}

/// Whether a field is told to be absent at once.
#[inline(always)]
fn is_absent(took: Took) -> bool
    ensures { result ≡ is_absent_spec took }
{
    match took {
        Took::Absent(_) => true,
        Took::Stands(_) | Took::Given(_) | Took::Other(_) => false,
    }
}

/// Whether its best form stands aside.
#[inline(always)]
fn is_other(took: Took) -> bool
    ensures { result ≡ is_other_spec took }
{
    match took {
        Took::Other(_) => true,
        Took::Stands(_) | Took::Absent(_) | Took::Given(_) => false,
    }
}

/// The value of an entry.
#[inline(always)]
fn assigned(entry: &Entry) -> Option<&Scalar>
    ensures { option_copied result ≡ assigned_of entry.now }
{
    match entry {
        Entry::Assigned(value) => Some(value),
        Entry::Undefined | Entry::Empty => None,
    }
}

/// A value of its own, none of none; a number takes no memory.
#[inline(always)]
fn copied(alloc: Global, value: Option<&Scalar>) -> Result<Option<Scalar>, AllocError>
    ensures copy { IfOk result (λ copy. copy ≡ option_copied value.entry) }
    ensures memory { OnErr result (IfSome (option_copied value.entry) (λ v. IsTrue (has_units (kind_of v)))) }
{
    match value {
        None => Ok(None),
        Some(Scalar::U32(number)) => Ok(Some(Scalar::U32(*number))),
        Some(Scalar::I32(number)) => Ok(Some(Scalar::I32(*number))),
        Some(Scalar::U64(number)) => Ok(Some(Scalar::U64(*number))),
        Some(Scalar::I64(number)) => Ok(Some(Scalar::I64(*number))),
        Some(value) => Ok(Some(value.copy(alloc)?)),
    }
}

/// The exponent that a value of its type is.
#[inline(always)]
fn exponent_of(value: Option<&Scalar>) -> Option<i32>
    ensures { IfSome (option_copied value.entry) (λ v. IsTrue (is_of Int32 v)) → option_copied value.entry ≡ of_exponent result }
{
    match value {
        Some(Scalar::I32(exponent)) => Some(*exponent),
        _ => None,
    }
}

/// The mantissa that a value of its type is.
#[inline(always)]
fn mantissa_of(value: Option<&Scalar>) -> Option<i64>
    ensures { IfSome (option_copied value.entry) (λ v. IsTrue (is_of Int64 v)) → option_copied value.entry ≡ of_mantissa result }
{
    match value {
        Some(Scalar::I64(mantissa)) => Some(*mantissa),
        _ => None,
    }
}

/// What stands between two places, as far as it is there.
#[inline(always)]
fn between(bytes: &[u8], span: Span) -> &[u8]
    ensures { result.now ≡ bytes_in bytes.now span }
{
    let rest = &bytes[span.start.min(bytes.len())..];
    &rest[..span.end.saturating_sub(span.start).min(rest.len())]
}

/// The number or decimal that lies aside.
#[inline(always)]
fn number_of(unkept: Unkept) -> Scalar
    requires { IsNumberAside unkept }
    ensures { (k : kind_type.Kind) (bytes : List ℕ) → result ≡ value_aside k bytes unkept }
{
    match unkept {
        Unkept::UInt32(number) => Scalar::U32(number),
        Unkept::Int32(number) => Scalar::I32(number),
        Unkept::UInt64(number) => Scalar::U64(number),
        Unkept::Int64(number) => Scalar::I64(number),
        Unkept::Decimal { exponent, mantissa } => Scalar::Decimal { exponent, mantissa },
        Unkept::Units(_) => unreachable!(),
    }
}

/// Takes the stop bit from each byte that has one.
#[inline(always)]
fn clear_stop_bits(units: &mut [u8])
    ensures { units.new ≡ map (λ b. b % 128) units.old }
{
    for unit in units.iter_mut() {
        *unit %= 128;
    }
}

/// The string or vector of what was sent of it.
#[inline(always)]
fn of_sent(kind: Kind, mut sent: Vec<u8>) -> Scalar
    requires { kind ≡ Unicode → IsUtf8 sent.items }
    ensures { result ≡ of_units kind (units_sent kind sent.items) }
{
    match kind {
        Kind::Ascii => {
            clear_stop_bits(&mut sent);
            Scalar::Ascii(ByteString::from_vec(sent))
        }
        Kind::Unicode => Scalar::Unicode(UnicodeText::from_utf8(sent)),
        _ => Scalar::Bytes(ByteString::from_vec(sent)),
    }
}

/// Room for a value that no entry keeps, so that no memory is asked for each.
#[derive(Debug, Drop)]
pub struct Room {
    number: Scalar,
    // (apart, since a number would drop the memory of a text)
    text: Scalar,
}

impl Room {
    /// Of nothing. Takes no memory.
    #[inline(always)]
    pub fn new(alloc: Global) -> Room {
        Room {
            number: Scalar::U32(0),
            text: Scalar::Bytes(ByteString::from_vec(Vec::new(alloc))),
        }
    }

    // The memory of the text.
    #[inline(always)]
    fn take_units(&mut self, alloc: Global) -> Vec<u8> {
        match mem::replace(&mut self.text, Scalar::U32(0)) {
            Scalar::Ascii(text) | Scalar::Bytes(text) => text.into_vec(),
            Scalar::Unicode(text) => text.into_bytes(),
            _ => Vec::new(alloc),
        }
    }

    // Puts a string or vector here, of which this was sent.
    #[inline(never)]
    fn put_sent(&mut self, alloc: Global, kind: Kind, sent: &[u8]) -> Result<&Scalar, AllocError>
        requires { kind ≡ Unicode → IsUtf8 sent.now }
        ensures { IfOk result (λ value. value.now ≡ of_units kind (units_sent kind sent.now)) }
    {
        let mut units = self.take_units(alloc);
        units.clear();
        units.extend_from_slice(sent)?;
        self.text = of_sent(kind, units);
        Ok(&self.text)
    }

    // Puts a value here that no entry keeps.
    #[inline(always)]
    fn put(
        &mut self,
        alloc: Global,
        kind: Kind,
        unkept: Unkept,
        bytes: &[u8],
    ) -> Result<&Scalar, AllocError>
        requires { IsScalar (value_aside kind bytes.now unkept) }
        ensures value { IfOk result (λ value. value.now ≡ value_aside kind bytes.now unkept) }
        ensures memory { OnErr result (IsNumberAside unkept → ⊥) }
    {
        match unkept {
            Unkept::Units(span) => self.put_sent(alloc, kind, between(bytes, span)),
            number => {
                self.number = number_of(number);
                Ok(&self.number)
            }
        }
    }
}

impl Aside {
    /// Where the value of a field lies that was taken under this bit.
    #[inline(always)]
    fn lies(&self, took: Took, operator: Operator, bit: bool) -> Lies
        ensures aside { result ≡ Lies.Aside → (is_there took self.now ≡ true) × (is_aside operator bit ≡ true) }
        ensures lies { (i : part_type.FieldPart) (new : entry_type.Entry) (bytes : List ℕ)
            → i.operator ≡ operator
            → value_lying result i new self.now.unkept bytes ≡ value_taken i new bit bytes self.now took }
    {
        // (two tests and no table, since most fields are there)
        if is_absent(took) || is_other(took) && !self.there {
            return Lies::Nowhere;
        }
        where_there(operator, bit)
    }

    // The exponent that lies aside.
    #[inline(always)]
    fn exponent_aside(&self) -> Option<i32>
        ensures { (k : kind_type.Kind) (bytes : List ℕ) → IsTrue (is_of Int32 (value_aside k bytes self.now.unkept))
            → Some (value_aside k bytes self.now.unkept) ≡ of_exponent result }
    {
        match self.unkept {
            Unkept::Int32(exponent) => Some(exponent),
            _ => None,
        }
    }

    // The mantissa that lies aside.
    #[inline(always)]
    fn mantissa_aside(&self) -> Option<i64>
        ensures { (k : kind_type.Kind) (bytes : List ℕ) → IsTrue (is_of Int64 (value_aside k bytes self.now.unkept))
            → Some (value_aside k bytes self.now.unkept) ≡ of_mantissa result }
    {
        match self.unkept {
            Unkept::Int64(mantissa) => Some(mantissa),
            _ => None,
        }
    }

    /// The number of an exponent that was taken under this bit, and has this entry afterwards; none where it is absent.
    #[inline(always)]
    pub fn exponent_in(&self, took: Took, part: &FieldPart, entry: &Entry, bit: bool) -> Option<i32>
        ensures { (bytes : List ℕ) → IfSome (value_taken part.now entry.now bit bytes self.now took) (λ v. IsTrue (is_of Int32 v))
            → value_taken part.now entry.now bit bytes self.now took ≡ of_exponent result }
    {
        match self.lies(took, part.operator, bit) {
            Lies::Nowhere => None,
            Lies::Initially => exponent_of(part.initial()),
            Lies::Kept => exponent_of(assigned(entry)),
            Lies::Aside => self.exponent_aside(),
        }
    }

    /// The same of a mantissa.
    #[inline(always)]
    pub fn mantissa_in(&self, took: Took, part: &FieldPart, entry: &Entry, bit: bool) -> Option<i64>
        ensures { (bytes : List ℕ) → IfSome (value_taken part.now entry.now bit bytes self.now took) (λ v. IsTrue (is_of Int64 v))
            → value_taken part.now entry.now bit bytes self.now took ≡ of_mantissa result }
    {
        match self.lies(took, part.operator, bit) {
            Lies::Nowhere => None,
            Lies::Initially => mantissa_of(part.initial()),
            Lies::Kept => mantissa_of(assigned(entry)),
            Lies::Aside => self.mantissa_aside(),
        }
    }

    /// The value of a field that was taken under this bit, and has this entry afterwards: from where it lies, or from the room
    /// where nothing keeps it as a value.
    ///
    /// # Errors
    ///
    /// Memory was refused to the room, of a string or a vector that no entry keeps.
    #[inline(always)]
    pub fn value<'a>(
        &self,
        alloc: Global,
        took: Took,
        part: &'a FieldPart,
        entry: &'a Entry,
        bit: bool,
        bytes: &[u8],
        room: &'a mut Room,
    ) -> Result<Option<&'a Scalar>, AllocError>
        requires { IfSome (value_taken part.now entry.now bit bytes.now self.now took) IsScalar }
        ensures value { IfOk result (λ value. option_copied value
            ≡ value_taken part.now entry.now bit bytes.now self.now took) }
        ensures memory { OnErr result (HasUnitsAside part.now.operator bit self.now took) }
    {
        match self.lies(took, part.operator, bit) {
            Lies::Nowhere => Ok(None),
            Lies::Initially => Ok(part.initial()),
            Lies::Kept => Ok(assigned(entry)),
            Lies::Aside => Ok(Some(room.put(alloc, part.kind, self.unkept, bytes)?)),
        }
    }

    /// The value of a field that was taken under bit 0, from where it lies.
    #[inline(always)]
    pub fn value_left_out<'a>(
        &self,
        took: Took,
        part: &'a FieldPart,
        entry: &'a Entry,
    ) -> Option<&'a Scalar>
        requires { IsBitOf part.now false }
        ensures { (bytes : List ℕ) → option_copied result
            ≡ value_taken part.now entry.now false bytes self.now took }
    {
        match self.lies(took, part.operator, false) {
            Lies::Nowhere => None,
            Lies::Initially => part.initial(),
            Lies::Kept => assigned(entry),
            // (bit 0 sends none)
            Lies::Aside => unreachable!(),
        }
    }

    /// The value of a field that was taken under this bit, as one of its own. A number takes no memory.
    ///
    /// # Errors
    ///
    /// Memory was refused, of a string or a vector.
    #[inline(always)]
    pub fn copied_value(
        &self,
        alloc: Global,
        took: Took,
        part: &FieldPart,
        entry: &Entry,
        bit: bool,
        bytes: &[u8],
    ) -> Result<Option<Scalar>, AllocError>
        requires { IfSome (value_taken part.now entry.now bit bytes.now self.now took) IsScalar }
        ensures value { IfOk result (λ value. value
            ≡ value_taken part.now entry.now bit bytes.now self.now took) }
        ensures memory { OnErr result (IfSome (value_taken part.now entry.now bit bytes.now self.now took)
            (λ v. IsTrue (has_units (kind_of v)))) }
    {
        match self.lies(took, part.operator, bit) {
            Lies::Nowhere => Ok(None),
            Lies::Initially => copied(alloc, part.initial()),
            Lies::Kept => copied(alloc, assigned(entry)),
            Lies::Aside => match self.unkept {
                Unkept::Units(span) => {
                    let sent = between(bytes, span).to_vec(alloc)?;
                    Ok(Some(of_sent(part.kind, sent)))
                }
                number => Ok(Some(number_of(number))),
            },
        }
    }
}
