//! Nodes that are read by the instructions of a template.

ghost use Rattle.std.specs.Prelude.{◌≡◌, length, map, MatchOption, IfOk};
ghost use Rattle.fast_template.specs.Resolved.{instruction_of, list_of};
ghost use Rattle.fast_stream.specs.Nodes.{elements_of, group_items, item_of, items_in, sequence_elements};
ghost use Rattle.fast_tape.specs.Tapes.{SayAll, marks_in, marks_in_elements, marks_of};
ghost use Rattle.fast_untape.specs.Reading.{AreSoMany, SayFirst, Unfit, UnfitAll, UnfitEach};

use crate::header::own_nodes;
use crate::value::{is_absent, node_of, value_at};
use fast_stream::Node;
use fast_tape::{ELEMENT, GROUP, SEQUENCE, TapeNode};
use fast_template::Flat;
use std::alloc::{AllocError, Global};

/// A group of these items.
#[inline(always)]
fn group_of(items: Vec<Node>) -> Node
    ensures { item_of result ≡ group_items (items_in items.items) }
{
    Node::Group(items)
}

/// A sequence of these elements.
#[inline(always)]
fn sequence_of(elements: Vec<Vec<Node>>) -> Node
    ensures { item_of result ≡ sequence_elements (elements_of (map (λ e. items_in e.items) elements.items)) }
{
    Node::Sequence(elements)
}

/// The item that nodes begin with, by its instruction, and how many of them it has. None: whatever they begin with is not of that
/// instruction's shape.
#[cycle(read)]
fn item_at(
    alloc: Global,
    flat: &Flat,
    nodes: &[TapeNode],
    bytes: &[u8],
) -> Result<Option<(Node, usize)>, AllocError>
    ensures { IfOk result (λ read. MatchOption read (Unfit bytes.now nodes.now (instruction_of flat.now))
        (λ x. SayFirst bytes.now nodes.now x.1 (marks_of (item_of x.0)))) }
{
    let Some((first, behind)) = nodes.split_first() else {
        return Ok(None);
    };
    match flat {
        Flat::Field { .. } | Flat::Parts { .. } => match value_at(alloc, first, bytes)? {
            None => Ok(None),
            Some(node) => Ok(Some((node, 1))),
        },
        Flat::Group { members, .. } => {
            if is_absent(first) {
                return Ok(Some((node_of(None), 1)));
            }
            if first.number != 0 {
                return Ok(None);
            }
            match own_nodes(GROUP, first, behind) {
                None => Ok(None),
                Some(own) => match items_in(alloc, members, own, bytes)? {
                    None => Ok(None),
                    Some(items) => Ok(Some((group_of(items), own.len() + 1))),
                },
            }
        }
        Flat::Sequence { members, .. } => {
            if is_absent(first) {
                return Ok(Some((node_of(None), 1)));
            }
            match own_nodes(SEQUENCE, first, behind) {
                None => Ok(None),
                Some(own) => match elements_in(alloc, members, own, bytes)? {
                    None => Ok(None),
                    Some(elements) => {
                        if elements.len() as u64 == first.number {
                            Ok(Some((sequence_of(elements), own.len() + 1)))
                        } else {
                            Ok(None)
                        }
                    }
                },
            }
        }
    }
}

/// The items that nodes are, one for each instruction. None: whatever they are is not of that shape.
#[cycle(read)]
pub(crate) fn items_in(
    alloc: Global,
    members: &[Flat],
    nodes: &[TapeNode],
    bytes: &[u8],
) -> Result<Option<Vec<Node>>, AllocError>
    ensures { IfOk result (λ read. MatchOption read (UnfitAll bytes.now nodes.now (list_of members.now))
        (λ items. SayAll bytes.now (marks_in (items_in items.items)) nodes.now)) }
{
    let mut items = Vec::with_capacity(alloc, members.len())?;
    let mut at = 0;
    'members: for member in 0..members.len() {
        match item_at(alloc, &members[member], &nodes[at..], bytes)? {
            None => return Ok(None),
            Some((item, count)) => {
                items.push(item)?;
                at += count;
            }
        }
    }
    if at == nodes.len() {
        Ok(Some(items))
    } else {
        Ok(None)
    }
}

/// The elements that nodes are, each with an item for each instruction. None: whatever they are is not of that shape.
#[cycle(read)]
fn elements_in(
    alloc: Global,
    members: &[Flat],
    nodes: &[TapeNode],
    bytes: &[u8],
) -> Result<Option<Vec<Vec<Node>>>, AllocError>
    ensures { IfOk result (λ read. MatchOption read (UnfitEach bytes.now nodes.now (list_of members.now))
        (λ elements. SayAll bytes.now (marks_in_elements (elements_of (map (λ e. items_in e.items) elements.items))) nodes.now
        × AreSoMany bytes.now nodes.now (list_of members.now) (length elements.items))) }
{
    let mut elements = Vec::new(alloc);
    let mut at = 0;
    'elements: while let Some((first, behind)) = nodes[at..].split_first() {
        if first.number != 0 {
            return Ok(None);
        }
        match own_nodes(ELEMENT, first, behind) {
            None => return Ok(None),
            Some(own) => match items_in(alloc, members, own, bytes)? {
                None => return Ok(None),
                Some(items) => {
                    elements.push(items)?;
                    at += own.len() + 1;
                }
            },
        }
    }
    Ok(Some(elements))
}
