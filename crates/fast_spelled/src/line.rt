//! The message of a line.

ghost use Rattle.std.specs.Prelude.{◌≡◌, ◌⊎◌, ◌≤◌, ◌<◌, ◌++◌, IfErr, IfOk, IsSome, MatchResult, ℕ, List, None, Some, codes};
ghost use Rattle.json.specs.Json.{Members, document, object};
ghost use Rattle.json.specs.Token.{Token as SpecToken};
ghost use Rattle.json.specs.Tree.{json_tokens, members_depth, members_tokens};
ghost use Rattle.fast_template.specs.declared.resolved.FlatTemplate.{FlatTemplate as SpecTemplate};
ghost use Rattle.fast_stream.specs.Nodes.{Content, content_of, node_limit, nodes_in};
ghost use Rattle.fast_spelled.specs.Members.{first_named};
ghost use Rattle.fast_spelled.specs.Numbered.{SpellsIn};
ghost use Rattle.fast_spelled.specs.Spelled.{Spells, fields_of};
ghost use Rattle.fast_spelled.specs.Tokens.{Refuses};

use crate::fault::{LineCause, LineFault};
use crate::head::{fault, number_of, open_object, pass, read_head, template_for};
use crate::members::{Reading, read_members};
use crate::shown::{read_numbered, read_shown};
use fast_stream::Message;
use fast_template::{FlatTemplate, TemplateSet};
use json::{MAX_DEPTH, Reader, Scratch, is_valid};
use std::alloc::Global;

/// The most nodes of a message.
pub(crate) const NODE_LIMIT: usize = 65_536;

/// Judges whether a line is JSON.
fn check(line: &str, scratch: &mut Scratch) -> Result<(), LineFault>
    ensures { MatchResult result (λ _. IsSome (document line.now))
        (λ f. (f.cause ≡ LineCause.Memory) ⊎ (document line.now ≡ None)) }
{
    if is_valid(line, scratch)? {
        return Ok(());
    }
    // (read once more for the place)
    let mut reader = Reader::new(line, scratch)?;
    if reader.skip_value(MAX_DEPTH).is_ok() {
        reader.next();
    }
    Err(fault(LineCause::Json, &reader))
}

/// Passes what stands before the fields of a line, and the brace that opens them. The line is JSON.
fn to_fields(reader: &mut Reader<'_>) -> Result<(), LineFault>
    ensures { (ms : Members) → members_depth ms ≤ 127 → reader.old ≡ json_tokens (object ms) → MatchResult result
        (λ _. (fields : Members) × (rest : List SpecToken) × (first_named (codes "fields") ms ≡ object fields)
        × (reader.new ≡ members_tokens fields ++ rest))
        (λ f. (t : SpecTemplate) → fields_of t (first_named (codes "fields") ms) ≡ None) }
{
    match open_object(reader) {
        Ok(()) => {}
        Err(fault) => return Err(fault),
    }
    loop {
        let name = match reader.next_key() {
            Ok(Some(name)) => name,
            Ok(None) => return Err(fault(LineCause::Line, reader)),
            Err(_) => return Err(fault(LineCause::Json, reader)),
        };
        if name == "fields" {
            break;
        }
        match pass(reader) {
            Ok(()) => {}
            Err(fault) => return Err(fault),
        }
    }
    open_object(reader)
}

/// The message of a template that a line's fields are. The line is JSON.
fn read_fields(
    alloc: Global,
    template: &FlatTemplate,
    id: u32,
    line: &str,
    scratch: &mut Scratch,
) -> Result<Message, LineFault>
    requires { template.now.id ≡ Some id }
    ensures { (ms : Members) → document line.now ≡ Some (object ms) → MatchResult result
        (λ m. (fields_of template.now (first_named (codes "fields") ms) ≡ Some (content_of m))
        × (nodes_in (content_of m).items ≤ node_limit))
        (λ f. Refuses (λ m. nodes_in m.items) node_limit
        (fields_of template.now (first_named (codes "fields") ms)) f) }
{
    let mut reader = Reader::new(line, scratch)?;
    match to_fields(&mut reader) {
        Ok(()) => {}
        Err(fault) => return Err(fault),
    }
    let mut reading = Reading {
        alloc,
        template: id,
        reader,
        left: NODE_LIMIT,
    };
    match read_members(&mut reading, &template.members, 0) {
        Ok(fields) => Ok(Message {
            template: id,
            fields,
        }),
        Err(fault) => Err(fault),
    }
}

/// The message that a line of JSON stands for, with its line feed or without: an object of `fields` and of `template` or
/// `id` or both, in any order.
///
/// # Errors
///
/// The first reason why the line stands for no message. Limit: the message has more than 65,536 nodes, or a string or a
/// vector of it is too long. Memory: an allocation was refused.
pub fn message_of(
    alloc: Global,
    set: &TemplateSet,
    line: &str,
    scratch: &mut Scratch,
) -> Result<Message, LineFault>
    ensures spelled { IfOk result (λ m. Spells set.now line.now (content_of m)) }
    ensures small { IfOk result (λ m. nodes_in (content_of m).items ≤ node_limit) }
    // a line that is refused stands for no message, but for want of memory, and for one with too many nodes
    ensures refused { IfErr result (λ f. (f.cause ≡ LineCause.Memory)
        ⊎ ((m : Content) → Spells set.now line.now m → ⊥)
        ⊎ ((f.cause ≡ LineCause.Limit)
        × ((m : Content) → Spells set.now line.now m → node_limit < nodes_in m.items))) }
{
    if let Some(message) = read_shown(alloc, set, line) {
        return Ok(message);
    }
    match check(line, scratch) {
        Ok(()) => {}
        Err(fault) => return Err(fault),
    }
    let mut reader = Reader::new(line, scratch)?;
    let found = match read_head(&mut reader, false) {
        Ok(found) => found,
        Err(fault) => return Err(fault),
    };
    let (template, id) = match template_for(alloc, set, found.head, &reader) {
        Ok(found) => found,
        Err(fault) => return Err(fault),
    };
    read_fields(alloc, template, id, line, scratch)
}

/// The message that a line of a packet stands for, and the number of its packet: a line as [`message_of`] reads it, with a
/// member `packet` besides, in any order.
///
/// # Errors
///
/// As of [`message_of`].
pub fn numbered_message_of(
    alloc: Global,
    set: &TemplateSet,
    line: &str,
    scratch: &mut Scratch,
) -> Result<(u64, Message), LineFault>
    ensures spelled { IfOk result (λ x. SpellsIn set.now line.now x.0 (content_of x.1)) }
    ensures small { IfOk result (λ x. nodes_in (content_of x.1).items ≤ node_limit) }
    // a line that is refused stands for no message in a packet, but for want of memory, and for one with too many nodes
    ensures refused { IfErr result (λ f. (f.cause ≡ LineCause.Memory)
        ⊎ ((n : ℕ) (m : Content) → SpellsIn set.now line.now n m → ⊥)
        ⊎ ((f.cause ≡ LineCause.Limit)
        × ((n : ℕ) (m : Content) → SpellsIn set.now line.now n m → node_limit < nodes_in m.items))) }
{
    if let Some(numbered) = read_numbered(alloc, set, line) {
        return Ok(numbered);
    }
    match check(line, scratch) {
        Ok(()) => {}
        Err(fault) => return Err(fault),
    }
    let mut reader = Reader::new(line, scratch)?;
    let found = match read_head(&mut reader, true) {
        Ok(found) => found,
        Err(fault) => return Err(fault),
    };
    let number = match number_of(alloc, found.packet)? {
        Some(number) => number,
        None => return Err(fault(LineCause::Line, &reader)),
    };
    let (template, id) = match template_for(alloc, set, found.head, &reader) {
        Ok(found) => found,
        Err(fault) => return Err(fault),
    };
    match read_fields(alloc, template, id, line, scratch) {
        Ok(message) => Ok((number, message)),
        Err(fault) => Err(fault),
    }
}
