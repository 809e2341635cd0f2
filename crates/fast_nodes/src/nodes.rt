//! Writes the nodes of a message, each by its instruction.

ghost use Rattle.std.specs.Prelude.{◌≡◌, map};
ghost use Rattle.fast_template.specs.Resolved.{instruction_of, list_of};
ghost use Rattle.fast_value.specs.declared.scalar.Scalar.TheVariants.{I32, I64};
ghost use Rattle.fast_stream.specs.Nodes.{elements_of, item_of, items_in};
ghost use Rattle.fast_nodes.specs.Added.{CanTry, CanTryEach, CanTryOne, Puts, PutsWhole, books_of, each_of, of_item, of_items, segment_of};
ghost use Rattle.fast_writer.specs.Levels.{level_of};

use crate::fault::{EncodeCause, EncodeFault};
use crate::journal::Journal;
use crate::put::{refuse, seal};
use crate::shape::may_be_absent;
use fast_dictionary::Entries;
use fast_stream::Node;
use fast_template::{FieldPart, Flat, Scalar, has_map};
use fast_writer::Segment;
use std::alloc::Global;

// The value of an exponent.
fn exponent_of(exponent: &i32) -> Scalar
    ensures { result ≡ I32 exponent.now }
{
    Scalar::I32(*exponent)
}

// The value of a mantissa.
fn mantissa_of(mantissa: &i64) -> Scalar
    ensures { result ≡ I64 mantissa.now }
{
    Scalar::I64(*mantissa)
}

// What is known of the elements of a sequence, for the proofs: it does nothing.
fn tell_elements<'a, E: Entries>(members: &[Flat], elements: &[Vec<Node>], journal: &Journal<'a, E>)
    requires { CanTryEach (books_of E.Entries journal.now) (list_of members.now)
        (elements_of (map (λ e. items_in e.items) elements.now)) }
    ensures { CanTryEach (books_of E.Entries journal.now) (list_of members.now)
        (elements_of (map (λ e. items_in e.items) elements.now)) }
{
    let _ = members;
    let _ = elements;
    let _ = journal;
}

// Writes a node by its instruction.
#[cycle(nodes)]
fn put_node<'a, E: Entries>(
    flat: &'a Flat,
    node: &Node,
    alloc: Global,
    journal: &mut Journal<'a, E>,
    level: &mut Segment,
) -> Result<(), EncodeFault>
    requires { CanTryOne (books_of E.Entries journal.now) (instruction_of flat.now)
        (item_of node.now) }
    ensures { Puts (of_item (instruction_of flat.now) (item_of node.now))
        (books_of E.Entries journal.old) (level_of level.old)
        (books_of E.Entries journal.new) (level_of level.new) result }
{
    match flat {
        Flat::Field { whole, .. } => match node {
            Node::Absent => journal.put(alloc, whole, None, level),
            Node::Value(value) => journal.put(alloc, whole, Some(value), level),
            Node::Group(_) | Node::Sequence(_) => Err(refuse(EncodeCause::Mismatch)),
        },
        Flat::Parts {
            exponent,
            mantissa,
            ..
        } => match node {
            Node::Absent => journal.put(alloc, exponent, None, level),
            Node::Value(value) => match value {
                Scalar::Decimal {
                    exponent: e,
                    mantissa: m,
                } => {
                    journal.put(alloc, exponent, Some(&exponent_of(e)), level)?;
                    journal.put(alloc, mantissa, Some(&mantissa_of(m)), level)
                }
                _ => Err(refuse(EncodeCause::Mismatch)),
            },
            Node::Group(_) | Node::Sequence(_) => Err(refuse(EncodeCause::Mismatch)),
        },
        Flat::Group {
            presence,
            members,
            ..
        } => match node {
            Node::Absent => match level.ask(may_be_absent(*presence), false) {
                Err(_) => Err(refuse(EncodeCause::Memory)),
                Ok(()) => Ok(()),
            },
            Node::Group(nodes) => match level.ask(may_be_absent(*presence), true) {
                Err(_) => Err(refuse(EncodeCause::Memory)),
                Ok(()) => put_segment(members, nodes, alloc, journal, &mut level.bytes),
            },
            Node::Value(_) | Node::Sequence(_) => Err(refuse(EncodeCause::Mismatch)),
        },
        Flat::Sequence {
            length,
            members,
            ..
        } => match node {
            Node::Absent => journal.put(alloc, length, None, level),
            Node::Sequence(elements) => {
                let members: &'a [Flat] = members;
                let elements: &[Vec<Node>] = elements;
                let count = Scalar::U32(elements.len() as u32);
                journal.put(alloc, length, Some(&count), level)?;
                tell_elements(members, elements, journal);
                put_elements(members, elements, alloc, journal, &mut level.bytes)
            }
            Node::Value(_) | Node::Group(_) => Err(refuse(EncodeCause::Mismatch)),
        },
    }
}

/// Writes a node for each instruction into a segment, and keeps in the journal what they changed of the entries.
///
/// # Errors
///
/// The first refusal of a node, behind what those before it have written and changed. Memory: a growth was refused.
#[cycle(nodes)]
pub fn put_nodes<'a, E: Entries>(
    flats: &'a [Flat],
    nodes: &[Node],
    alloc: Global,
    journal: &mut Journal<'a, E>,
    level: &mut Segment,
) -> Result<(), EncodeFault>
    requires { CanTry (books_of E.Entries journal.now) (list_of flats.now) (items_in nodes.now) }
    ensures { Puts (of_items (list_of flats.now) (items_in nodes.now))
        (books_of E.Entries journal.old) (level_of level.old)
        (books_of E.Entries journal.new) (level_of level.new) result }
{
    if flats.len() != nodes.len() {
        return Err(refuse(EncodeCause::Mismatch));
    }
    'members: for at in 0..flats.len() {
        put_node(&flats[at], &nodes[at], alloc, journal, level)?;
    }
    Ok(())
}

// Writes a segment behind its map.
#[cycle(nodes)]
fn put_segment<'a, E: Entries>(
    members: &'a [Flat],
    nodes: &[Node],
    alloc: Global,
    journal: &mut Journal<'a, E>,
    out: &mut Vec<u8>,
) -> Result<(), EncodeFault>
    requires { CanTry (books_of E.Entries journal.now) (list_of members.now) (items_in nodes.now) }
    ensures { PutsWhole (segment_of (list_of members.now) (items_in nodes.now))
        (books_of E.Entries journal.old) out.old.items
        (books_of E.Entries journal.new) out.new.items result }
{
    let mut level = Segment::new(alloc, has_map(members));
    put_nodes(members, nodes, alloc, journal, &mut level)?;
    seal(&level, out)?;
    Ok(())
}

// Writes the elements of a sequence, behind its length.
#[cycle(nodes)]
fn put_elements<'a, E: Entries>(
    members: &'a [Flat],
    elements: &[Vec<Node>],
    alloc: Global,
    journal: &mut Journal<'a, E>,
    out: &mut Vec<u8>,
) -> Result<(), EncodeFault>
    requires { CanTryEach (books_of E.Entries journal.now) (list_of members.now)
        (elements_of (map (λ e. items_in e.items) elements.now)) }
    ensures { PutsWhole (each_of (list_of members.now)
        (elements_of (map (λ e. items_in e.items) elements.now)))
        (books_of E.Entries journal.old) out.old.items
        (books_of E.Entries journal.new) out.new.items result }
{
    'elements: for at in 0..elements.len() {
        put_segment(members, &elements[at], alloc, journal, out)?;
    }
    Ok(())
}
