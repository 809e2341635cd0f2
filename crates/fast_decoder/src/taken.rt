//! Takes a field's value from the bytes, and puts it behind nodes.

ghost use Rattle.std.specs.Prelude.{◌≡◌, ◌≢◌, ◌≤◌, ◌<◌, List, ℕ, true, false, Option, Err, IfOk, IfErr, IsTrue, OnOk, OnErr, length, drop, option_copied, vec_capacity, vec_len};
ghost use Rattle.fast_value.specs.declared.kind.Part.TheVariants.{Whole};
ghost use Rattle.fast_value.specs.declared.scalar.Scalar.{Scalar as ScalarOf};
ghost use Rattle.fast_template.specs.Resolved.{part_needs_bit};
ghost use Rattle.fast_dictionary.specs.Dictionary.{entry_at};
ghost use Rattle.fast_field.specs.FieldReading.{field_at};
ghost use Rattle.fast_field.specs.Parts.{IsBitOf, IsFieldPart};
ghost use Rattle.fast_field.specs.Within.{HoldsScalar};
ghost use Rattle.fast_take.specs.Numbers.{KeepsNothing};
ghost use Rattle.fast_take.specs.Takes.{value_taken};
ghost use Rattle.fast_walk.specs.Received.{Took as TookPart};
ghost use Rattle.fast_walk.specs.Told.{IsTold, KeepScalars};
ghost use Rattle.fast_decoder.specs.Taken.{IsPut, PutsNext};

use fast_dictionary::{Entries, Entry};
use fast_field::FieldFault;
use fast_stream::Node;
use fast_take::{Aside, Took, take_left_out, take_sent};
use fast_template::{FieldPart, Operator, Part, Scalar};
use fast_wire::Level;
use std::alloc::{AllocError, Global};

// Puts a value once more behind nodes, which have room for it, or that there is none. Each type of numbers has a way of its own, so
// that no more is written than the number.
#[inline(always)]
fn put_copy(alloc: Global, value: Option<&Scalar>, nodes: &mut Vec<Node>) -> Result<(), AllocError>
    requires room { vec_len nodes.old < vec_capacity nodes.old }
    ensures put { OnOk result (IsPut (option_copied value.entry) nodes.old.items nodes.new.items) }
{
    match value {
        None => nodes.push_reserved(Node::Absent),
        Some(Scalar::U32(number)) => nodes.push_reserved(Node::Value(Scalar::U32(*number))),
        Some(Scalar::I32(number)) => nodes.push_reserved(Node::Value(Scalar::I32(*number))),
        Some(Scalar::U64(number)) => nodes.push_reserved(Node::Value(Scalar::U64(*number))),
        Some(Scalar::I64(number)) => nodes.push_reserved(Node::Value(Scalar::I64(*number))),
        Some(value) => nodes.push_reserved(Node::Value(value.copy(alloc)?)),
    }
    Ok(())
}

// Puts a value behind nodes, which have room for it, or that there is none.
#[inline(always)]
fn put(value: Option<Scalar>, nodes: &mut Vec<Node>)
    requires room { vec_len nodes.old < vec_capacity nodes.old }
    ensures put { IsPut value nodes.old.items nodes.new.items }
{
    match value {
        None => nodes.push_reserved(Node::Absent),
        Some(value) => nodes.push_reserved(Node::Value(value)),
    }
}

// The value of a field that was sent, from its entry or its template.
#[inline(always)]
fn standing<'a>(
    took: Took,
    part: &'a FieldPart,
    entry: &'a Entry,
    aside: &Aside,
) -> Option<&'a Scalar>
    requires { KeepsNothing part.now.operator → ⊥ }
    ensures { (bytes : List ℕ) → option_copied result
        ≡ value_taken part.now entry.now true bytes aside.now took }
{
    if !took.is_there(aside) {
        return None;
    }
    match part.operator {
        Operator::Constant => part.initial(),
        _ => match entry {
            Entry::Assigned(value) => Some(value),
            Entry::Undefined | Entry::Empty => None,
        },
    }
}

// Takes what was sent of a field.
#[inline(always)]
fn put_sent(
    alloc: Global,
    part: &FieldPart,
    entry: &mut Entry,
    level: Level,
    bytes: &[u8],
    at: usize,
    aside: &mut Aside,
    nodes: &mut Vec<Node>,
) -> Result<usize, FieldFault>
    requires place { at ≤ length bytes.now }
    requires part { IsFieldPart part.now }
    requires entry { HoldsScalar entry.old }
    requires room { vec_len nodes.old < vec_capacity nodes.old }
    ensures { PutsNext level part.now true bytes.now at result entry.old entry.new nodes.old.items nodes.new.items }
{
    let took = take_sent(part, entry, level, bytes, at, aside)?;
    match part.operator {
        Operator::Plain | Operator::Default => {
            put(
                aside.copied_value(alloc, took, part, entry, true, bytes)?,
                nodes,
            );
        }
        Operator::Constant
        | Operator::Copy
        | Operator::Increment
        | Operator::Delta
        | Operator::Tail => {
            put_copy(alloc, standing(took, part, entry, aside), nodes)?;
        }
    }
    Ok(took.place())
}

// Takes what bit 0 gives a field.
#[inline(always)]
fn put_left_out(
    alloc: Global,
    part: &FieldPart,
    entry: &mut Entry,
    level: Level,
    bytes: &[u8],
    at: usize,
    aside: &mut Aside,
    nodes: &mut Vec<Node>,
) -> Result<usize, FieldFault>
    requires place { at ≤ length bytes.now }
    requires part { IsFieldPart part.now }
    requires entry { HoldsScalar entry.old }
    requires bit { IsBitOf part.now false }
    requires whole { part.now.part ≡ Whole }
    requires room { vec_len nodes.old < vec_capacity nodes.old }
    ensures { PutsNext level part.now false bytes.now at result entry.old entry.new nodes.old.items nodes.new.items }
{
    let took = take_left_out(Part::Whole, part, entry, level, bytes, at, aside)?;
    put_copy(alloc, aside.value_left_out(took, part, entry), nodes)?;
    Ok(took.place())
}

// The same under any bit: what bit 0 gives and what was sent come together nowhere, so that neither is asked which it was.
#[inline(always)]
fn put_either(
    alloc: Global,
    part: &FieldPart,
    entry: &mut Entry,
    bit: bool,
    level: Level,
    bytes: &[u8],
    at: usize,
    aside: &mut Aside,
    nodes: &mut Vec<Node>,
) -> Result<usize, FieldFault>
    requires place { at ≤ length bytes.now }
    requires part { IsFieldPart part.now }
    requires entry { HoldsScalar entry.old }
    requires bit { IsBitOf part.now bit }
    requires whole { part.now.part ≡ Whole }
    requires room { vec_len nodes.old < vec_capacity nodes.old }
    ensures { PutsNext level part.now bit bytes.now at result entry.old entry.new nodes.old.items nodes.new.items }
{
    if bit {
        put_sent(alloc, part, entry, level, bytes, at, aside, nodes)
    } else {
        put_left_out(alloc, part, entry, level, bytes, at, aside, nodes)
    }
}

/// Takes a field's value from the bytes, makes its entry the one afterwards, and puts the value behind nodes.
///
/// # Errors
///
/// The first fault of the field, and then nothing has changed. Memory: a growth was refused.
#[inline(always)]
pub(crate) fn put_field<E: Entries>(
    alloc: Global,
    entries: &mut E,
    part: &FieldPart,
    bit: bool,
    level: Level,
    bytes: &[u8],
    at: usize,
    aside: &mut Aside,
    nodes: &mut Vec<Node>,
) -> Result<usize, FieldFault>
    requires place { at ≤ length bytes.now }
    requires served { IsTrue (E.serves entries.now part.now.key) }
    requires told { IsTold Whole part.now.kind part.now }
    requires bit { part_needs_bit part.now ≡ false → bit ≡ true }
    requires kept { KeepScalars (E.contents entries.now) }
    ensures place { IfOk result (λ n. (at ≤ n) × (n ≤ length bytes.now)) }
    ensures put { IfOk result (λ n. (v : Option ScalarOf)
        × TookPart level part.now bit (E.contents entries.old) (E.contents entries.new) v
        (drop at bytes.now) (drop n bytes.now)
        × IsPut v nodes.old.items nodes.new.items) }
    ensures stops { IfErr result (λ f. f ≢ FieldFault.Memory
        → (field_at level part.now (entry_at (E.contents entries.old) part.now.key) bit
        (drop at bytes.now) ≡ Err f)
        × (E.contents entries.new ≡ E.contents entries.old) × (nodes.new.items ≡ nodes.old.items)) }
    ensures same_keys { E.serves entries.new ≡ E.serves entries.old }
{
    // (there is, since so many were asked for where the body began)
    nodes.reserve(1)?;
    let entry = entries.entry_mut(&part.key)?;
    let next = put_either(alloc, part, entry, bit, level, bytes, at, aside, nodes)?;
    Ok(next)
}
