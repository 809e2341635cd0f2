//! Messages of any template set as lines, and what a check says.

ghost use Rattle.std.specs.Prelude.{◌≡◌, ◌++◌, ◌≤◌, ◌+◌, [], Some, None, IfSome, map, length, take};
ghost use Rattle.std.specs.Fmt.{signed_decimal};
ghost use Rattle.std.specs.Option.{option_copied};
ghost use Rattle.fast_template.specs.Resolved.{instruction_of, list_of, resolved_of};
ghost use Rattle.fast_stream.specs.Nodes.{single, item_of, items_in, elements_of, content_of};
ghost use Rattle.fast_lines.specs.declared.form.Form.{Form as FormOf};
ghost use Rattle.fast_lines.specs.Lines.{absent_text, braced, decimal_text, elements_text, field_text, group_text, sequence_text, label, line_by, line_in, member_text, members_text, scalar_text, ok_text, said_text};
ghost use Rattle.fast_lines.specs.Signs.{label_text, quoted, vector_text};
ghost use Rattle.fast_lines.specs.Written.{Writes, Shows};
ghost use Rattle.fast_lines.specs.declared.lines.ShowFault.TheVariants as fault;

use crate::bytes::{push, push_byte, push_decimal, push_sign, push_signed, push_unsigned};
use crate::digits::{lay_decimal, lay_signed, lay_unsigned};
use crate::form::{Form, JsonSigns, TextSigns};
use crate::signs::Signs;
use crate::strings::{lay_quoted, push_quoted};
use crate::tail::lay_text;
use fast_field::is_spellable;
use fast_stream::{Message, Node};
use fast_template::{Flat, FlatTemplate, Kind, Presence, Scalar, TemplateSet};
use fast_value::is_of_kind;
use std::alloc::AllocError;
use thiserror::Error;

/// Why a message has no line.
#[derive(Clone, Copy, Debug, PartialEq, Eq, Error)]
pub enum ShowFault {
    /// The set has no template of the message's identifier, or the message is not one of its template.
    #[error("the message is of no template of the set")]
    Mismatch,
    /// An allocation was refused.
    #[error("out of memory")]
    Memory,
}

impl From<AllocError> for ShowFault {
    ghost from_gives = { λ _ e. e ≡ fault.Memory };

    fn from(_: AllocError) -> Self {
        ShowFault::Memory
    }
}

/// Appends a value of any type.
///
/// # Errors
///
/// An allocation was refused; a front of the value may stand there.
pub fn push_scalar<S: Signs>(signs: S, value: &Scalar, out: &mut Vec<u8>) -> Result<(), AllocError>
    ensures { Writes (scalar_text S.form value.now) result out.old.items out.new.items }
{
    match value {
        Scalar::U32(number) => push_unsigned(u64::from(*number), out),
        Scalar::I32(number) => push_signed(i64::from(*number), out),
        Scalar::U64(number) => push_unsigned(*number, out),
        Scalar::I64(number) => push_signed(*number, out),
        Scalar::Decimal { exponent, mantissa } => push_decimal(*mantissa, *exponent, out),
        Scalar::Ascii(text) => push_quoted(signs, text.as_slice(), out),
        Scalar::Unicode(text) => push_quoted(signs, text.as_bytes(), out),
        Scalar::Bytes(bytes) => signs.push_vector(bytes.as_slice(), out),
    }
}

// The arms of `lay_scalar` that are long or seldom met are calls: so it is small, and a number with no sign, which most values
// are, is laid where it is told.
#[inline(never)]
fn lay_string<S: Signs>(signs: S, text: &[u8], bytes: &mut [u8], at: usize) -> Option<usize>
    requires { at + 66 ≤ length bytes.old }
    ensures place { IfSome result (λ next. (at ≤ next) × (next ≤ at + 66)) }
    ensures laid { IfSome result (λ next. take next bytes.new ≡ take at bytes.old ++ quoted S.form text.now) }
    ensures before { take at bytes.new ≡ take at bytes.old }
    ensures length { length bytes.new ≡ length bytes.old }
{
    lay_quoted(signs, text, bytes, at)
}

#[inline(never)]
fn lay_bytes<S: Signs>(signs: S, vector: &[u8], bytes: &mut [u8], at: usize) -> Option<usize>
    requires { at + 66 ≤ length bytes.old }
    ensures place { IfSome result (λ next. (at ≤ next) × (next ≤ at + 66)) }
    ensures laid { IfSome result (λ next. take next bytes.new ≡ take at bytes.old ++ vector_text S.form vector.now) }
    ensures before { take at bytes.new ≡ take at bytes.old }
    ensures length { length bytes.new ≡ length bytes.old }
{
    signs.lay_vector(vector, bytes, at)
}

#[inline(never)]
fn lay_parts(bytes: &mut [u8], at: usize, mantissa: i64, exponent: i32) -> usize
    requires { at + 43 ≤ length bytes.old }
    ensures place { (at ≤ result) × (result ≤ at + 43) }
    ensures laid { take result bytes.new ≡ take at bytes.old ++ decimal_text mantissa exponent }
    ensures length { length bytes.new ≡ length bytes.old }
{
    lay_decimal(bytes, at, mantissa, exponent)
}

#[inline(never)]
fn lay_number(bytes: &mut [u8], at: usize, number: i64) -> usize
    requires { at + 21 ≤ length bytes.old }
    ensures place { (at ≤ result) × (result ≤ at + 21) }
    ensures laid { take result bytes.new ≡ take at bytes.old ++ signed_decimal number }
    ensures length { length bytes.new ≡ length bytes.old }
{
    lay_signed(bytes, at, number)
}

/// Lays a value of any type, or what stands for none, at a place, and answers the place behind it; none where the value is
/// not short.
#[inline(always)]
pub(crate) fn lay_scalar<S: Signs>(
    signs: S,
    value: Option<&Scalar>,
    bytes: &mut [u8],
    at: usize,
) -> Option<usize>
    requires { at + 66 ≤ length bytes.old }
    ensures place { IfSome result (λ next. (at ≤ next) × (next ≤ at + 66)) }
    ensures laid { IfSome result (λ next. take next bytes.new
        ≡ take at bytes.old ++ said_text S.form (option_copied value.entry)) }
    ensures before { take at bytes.new ≡ take at bytes.old }
    ensures length { length bytes.new ≡ length bytes.old }
{
    match value {
        None => Some(lay_text(bytes, at, signs.absent())),
        Some(Scalar::U32(number)) => Some(lay_number(bytes, at, i64::from(*number))),
        Some(Scalar::I32(number)) => Some(lay_number(bytes, at, i64::from(*number))),
        Some(Scalar::U64(number)) => Some(lay_unsigned(bytes, at, *number)),
        Some(Scalar::I64(number)) => Some(lay_number(bytes, at, *number)),
        Some(Scalar::Decimal { exponent, mantissa }) => {
            Some(lay_parts(bytes, at, *mantissa, *exponent))
        }
        Some(Scalar::Ascii(text)) => lay_string(signs, text.as_slice(), bytes, at),
        Some(Scalar::Unicode(text)) => lay_string(signs, text.as_bytes(), bytes, at),
        Some(Scalar::Bytes(vector)) => lay_bytes(signs, vector.as_slice(), bytes, at),
    }
}

/// Appends what stands for an absent field, group or sequence.
fn show_absent<S: Signs>(signs: S, presence: Presence, out: &mut Vec<u8>) -> Result<(), ShowFault>
    ensures { Shows (absent_text S.form presence) result out.old.items out.new.items }
{
    match presence {
        Presence::Mandatory => Err(ShowFault::Mismatch),
        Presence::Optional => {
            push_sign(signs.absent(), out)?;
            Ok(())
        }
    }
}

/// Appends what a message has for a field of a type.
fn show_field<S: Signs>(
    signs: S,
    kind: Kind,
    presence: Presence,
    node: &Node,
    out: &mut Vec<u8>,
) -> Result<(), ShowFault>
    ensures { Shows (field_text S.form kind presence (item_of node.now)) result
        out.old.items out.new.items }
{
    match node {
        Node::Value(value) => {
            if !is_of_kind(kind, value) || !is_spellable(value) {
                return Err(ShowFault::Mismatch);
            }
            push_scalar(signs, value, out)?;
            Ok(())
        }
        Node::Absent => show_absent(signs, presence, out),
        Node::Group(_) | Node::Sequence(_) => Err(ShowFault::Mismatch),
    }
}

/// The name of an instruction.
fn name_of(flat: &Flat) -> &str
    ensures { (form : FormOf) → label_text form result.now ≡ label form (instruction_of flat.now) }
{
    match flat {
        Flat::Field { name, .. }
        | Flat::Parts { name, .. }
        | Flat::Group { name, .. }
        | Flat::Sequence { name, .. } => name.as_str(),
    }
}

/// Appends what stands in front of a value, behind a text in front.
fn push_label<S: Signs>(
    signs: S,
    flat: &Flat,
    before: &[u8],
    out: &mut Vec<u8>,
) -> Result<(), AllocError>
    ensures { Writes (before.now ++ label S.form (instruction_of flat.now)) result
        out.old.items out.new.items }
{
    push_sign(before, out)?;
    signs.push_label(name_of(flat), out)
}

/// Appends the items of a group or of an element, in braces.
#[cycle(showing)]
fn show_braced<S: Signs>(
    signs: S,
    members: &[Flat],
    nodes: &[Node],
    out: &mut Vec<u8>,
) -> Result<(), ShowFault>
    ensures { Shows (braced (members_text S.form [] (list_of members.now) (items_in nodes.now)))
        result out.old.items out.new.items }
{
    push_byte(b'{', out)?;
    show_members(signs, members, nodes, b"", out)?;
    push_byte(b'}', out)?;
    Ok(())
}

/// Appends what a message has for a group of these instructions.
#[cycle(showing)]
fn show_group<S: Signs>(
    signs: S,
    members: &[Flat],
    presence: Presence,
    node: &Node,
    out: &mut Vec<u8>,
) -> Result<(), ShowFault>
    ensures { Shows (group_text S.form (λ ns. members_text S.form [] (list_of members.now) ns)
        presence (item_of node.now)) result out.old.items out.new.items }
{
    match node {
        Node::Group(nodes) => show_braced(signs, members, nodes, out),
        Node::Absent => show_absent(signs, presence, out),
        Node::Value(_) | Node::Sequence(_) => Err(ShowFault::Mismatch),
    }
}

/// Appends elements of these instructions, each in braces, with the sign between two between them.
#[cycle(showing)]
fn show_elements<S: Signs>(
    signs: S,
    members: &[Flat],
    elements: &[Vec<Node>],
    out: &mut Vec<u8>,
) -> Result<(), ShowFault>
    ensures { Shows (elements_text S.form (λ ns. members_text S.form [] (list_of members.now) ns) []
        (elements_of (map (λ v. items_in v.items) elements.now))) result
        out.old.items out.new.items }
{
    let mut lead: &[u8] = b"";
    for nodes in elements {
        push(lead, out)?;
        show_braced(signs, members, nodes, out)?;
        lead = signs.between();
    }
    Ok(())
}

/// Appends what a message has for a sequence of these instructions.
#[cycle(showing)]
fn show_sequence<S: Signs>(
    signs: S,
    members: &[Flat],
    presence: Presence,
    node: &Node,
    out: &mut Vec<u8>,
) -> Result<(), ShowFault>
    ensures { Shows (sequence_text S.form (λ ns. members_text S.form [] (list_of members.now) ns)
        presence (item_of node.now)) result out.old.items out.new.items }
{
    match node {
        Node::Sequence(elements) => {
            push_byte(b'[', out)?;
            show_elements(signs, members, elements, out)?;
            push_byte(b']', out)?;
            Ok(())
        }
        Node::Absent => show_absent(signs, presence, out),
        Node::Value(_) | Node::Group(_) => Err(ShowFault::Mismatch),
    }
}

/// Appends the label and the value of an instruction, with a text in front.
#[cycle(showing)]
fn show_member<S: Signs>(
    signs: S,
    flat: &Flat,
    node: &Node,
    before: &[u8],
    out: &mut Vec<u8>,
) -> Result<(), ShowFault>
    ensures { Shows (member_text S.form before.now (instruction_of flat.now) (item_of node.now))
        result out.old.items out.new.items }
{
    push_label(signs, flat, before, out)?;
    match flat {
        Flat::Field {
            presence,
            whole,
            ..
        } => show_field(signs, whole.kind, *presence, node, out),
        Flat::Parts { presence, .. } => show_field(signs, Kind::Decimal, *presence, node, out),
        Flat::Group {
            presence,
            members,
            ..
        } => show_group(signs, members, *presence, node, out),
        Flat::Sequence {
            presence,
            members,
            ..
        } => show_sequence(signs, members, *presence, node, out),
    }
}

/// Appends the label and the value of each instruction, with a text in front of the first and the sign between two in
/// front of each other one.
#[cycle(showing)]
fn show_members<S: Signs>(
    signs: S,
    members: &[Flat],
    nodes: &[Node],
    before: &[u8],
    out: &mut Vec<u8>,
) -> Result<(), ShowFault>
    ensures { Shows (members_text S.form before.now (list_of members.now) (items_in nodes.now))
        result out.old.items out.new.items }
{
    if nodes.len() != members.len() {
        return Err(ShowFault::Mismatch);
    }
    let mut lead = before;
    for (index, member) in members.iter().enumerate() {
        show_member(signs, member, &nodes[index], lead, out)?;
        lead = signs.between();
    }
    Ok(())
}

/// Appends the line of a message of a template, or a part of it.
fn show_as<S: Signs>(
    signs: S,
    template: &FlatTemplate,
    message: &Message,
    out: &mut Vec<u8>,
) -> Result<(), ShowFault>
    ensures { Shows (line_by S.form template.now.name (resolved_of template.now).members
        (content_of message.now)) result out.old.items out.new.items }
{
    signs.push_head(message.template, template.name.as_str(), out)?;
    let lead = if signs.is_led() { signs.between() } else { b"" };
    show_members(signs, &template.members, &message.fields, lead, out)?;
    push(signs.ending(), out)?;
    Ok(())
}

/// Appends the line of a message in a form.
///
/// # Errors
///
/// A front of the line may stand there.
///
/// - `Mismatch`: the set has no template of the message's identifier, or the message is not one of its template: a
///   node is of another shape, a value of another type or of ASCII with a character above 127, or a mandatory field,
///   group or sequence is absent.
/// - `Memory`: an allocation was refused.
pub fn push_line(
    form: Form,
    set: &TemplateSet,
    message: &Message,
    out: &mut Vec<u8>,
) -> Result<(), ShowFault>
    ensures { Shows (line_in form set.now (content_of message.now)) result
        out.old.items out.new.items }
{
    match set.find(message.template) {
        Some(template) => match form {
            Form::Text => show_as(TextSigns, template, message, out),
            Form::Json => show_as(JsonSigns, template, message, out),
        },
        None => Err(ShowFault::Mismatch),
    }
}

/// Appends what a check says that ended well: how many messages and bytes were read, and how many bytes are canonical.
///
/// # Errors
///
/// An allocation was refused; a front of the line may stand there.
pub fn push_ok_line(
    messages: u64,
    read: u64,
    canonical: u64,
    out: &mut Vec<u8>,
) -> Result<(), AllocError>
    ensures { Writes (ok_text messages read canonical) result out.old.items out.new.items }
{
    push(b"ok messages=", out)?;
    push_unsigned(messages, out)?;
    push(b" bytes=", out)?;
    push_unsigned(read, out)?;
    push(b" canonical=", out)?;
    push_unsigned(canonical, out)?;
    push(b"\n", out)
}
