//! Lines as `show --json` writes them, which are read from the front, once.

ghost use Rattle.std.specs.Prelude.{◌≡◌, ◌∷◌, ◌++◌, [], true, Some, IfSome, map};
ghost use Rattle.std.specs.Prelude.{decimal as decimal_of};
ghost use Rattle.std.specs.Fmt.{signed_decimal};
ghost use Rattle.std.specs.List.{list_all};
ghost use Rattle.fast_value.specs.Scalar.{IsScalar};
ghost use Rattle.fast_value.specs.declared.kind.Kind.TheVariants as kind_type;
ghost use Rattle.fast_template.specs.Resolved.{instruction_of, list_of};
ghost use Rattle.fast_stream.specs.Nodes.{content_of, elements_of, item_of, items_in, nodes_in, nodes_in_elements, nodes_of, single};
ghost use Rattle.fast_lines.specs.declared.form.Form.TheVariants.{Json};
ghost use Rattle.fast_lines.specs.Lines.{absent_text, braced, bracketed, elements_text, members_text, node_text, value_text};
ghost use Rattle.fast_lines.specs.Signs.{label_text, lead};
ghost use Rattle.fast_spelled.specs.Shown.{IsLineOf, IsNumberedLineOf, IsShown, Stands, is_plain_unit};
ghost use Rattle.fast_spelled.specs.Within.{HasScalars, HaveScalars, HaveScalarsIn};

use crate::line::NODE_LIMIT;
use crate::members::{name_of, presence_of};
use crate::pieces::{behind, behind_byte, behind_label, hex_bytes, signed, units, unsigned};
use crate::value::UNIT_LIMIT;
use fast_stream::{Message, Node};
use fast_template::{ByteString, Flat, Kind, Presence, Scalar, TemplateSet, UnicodeText};
use std::alloc::Global;
use std::str;

/// What is left of a line while it is read.
#[derive(Drop)]
pub(crate) struct Left<'a> {
    alloc: Global,
    bytes: &'a [u8],
    /// How many nodes may still come.
    nodes: usize,
}

/// The value of a type that the units of a string are, which stand as they are; none also where memory is refused.
#[inline(always)]
fn string_value(alloc: Global, kind: Kind, units: &[u8]) -> Option<Scalar>
    requires { list_all is_plain_unit units.now ≡ true }
    ensures text { IfSome result (λ v. value_text Json kind v ≡ Some (34 ∷ (units.now ++ 34 ∷ []))) }
    ensures within { IfSome result IsScalar }
{
    if units.len() > UNIT_LIMIT {
        return None;
    }
    match kind {
        Kind::Ascii => {
            if !units.is_ascii() {
                return None;
            }
            match units.to_vec(alloc) {
                Ok(copy) => Some(Scalar::Ascii(ByteString::from_vec(copy))),
                Err(_) => None,
            }
        }
        Kind::Unicode => {
            let Ok(text) = str::from_utf8(units) else {
                return None;
            };
            match String::from_str(alloc, text) {
                Ok(copy) => Some(Scalar::Unicode(UnicodeText::from_string(copy))),
                Err(_) => None,
            }
        }
        Kind::Bytes => {
            let bytes = hex_bytes(alloc, units)?;
            Some(Scalar::Bytes(ByteString::from_vec(bytes)))
        }
        _ => None,
    }
}

/// A string of a type, and what is left behind it.
#[inline(always)]
fn string(alloc: Global, kind: Kind, bytes: &[u8]) -> Option<(Scalar, &[u8])>
    ensures text { IfSome result (λ x. Stands (value_text Json kind x.0) bytes.now x.1.now) }
    ensures within { IfSome result (λ x. IsScalar x.0) }
{
    let bytes = behind_byte(bytes, b'"')?;
    let (units, left) = units(bytes)?;
    let value = string_value(alloc, kind, units)?;
    Some((value, left))
}

/// A decimal, and what is left behind it.
#[inline(always)]
fn decimal(bytes: &[u8]) -> Option<(Scalar, &[u8])>
    ensures text { IfSome result (λ x. Stands (value_text Json kind_type.Decimal x.0) bytes.now x.1.now) }
    ensures within { IfSome result (λ x. IsScalar x.0) }
{
    let (mantissa, left) = signed(bytes)?;
    let left = behind_byte(left, b'e')?;
    let (exponent, left) = signed(left)?;
    if exponent < -63 || 63 < exponent {
        return None;
    }
    let value = Scalar::Decimal {
        exponent: exponent as i32,
        mantissa,
    };
    Some((value, left))
}

/// A number of 32 bits without a sign, and what is left behind it.
#[inline(always)]
fn short_unsigned(bytes: &[u8]) -> Option<(u32, &[u8])>
    ensures { IfSome result (λ x. bytes.now ≡ decimal_of x.0 ++ x.1.now) }
{
    let (number, left) = unsigned(bytes)?;
    if number > 4_294_967_295 {
        return None;
    }
    Some((number as u32, left))
}

/// A number of 32 bits, and what is left behind it.
#[inline(always)]
fn short_signed(bytes: &[u8]) -> Option<(i32, &[u8])>
    ensures { IfSome result (λ x. bytes.now ≡ signed_decimal x.0 ++ x.1.now) }
{
    let (number, left) = signed(bytes)?;
    if number < -2_147_483_648 || 2_147_483_647 < number {
        return None;
    }
    Some((number as i32, left))
}

/// A value of a type, and what is left behind it.
#[inline(always)]
fn value(alloc: Global, kind: Kind, bytes: &[u8]) -> Option<(Scalar, &[u8])>
    ensures text { IfSome result (λ x. Stands (value_text Json kind x.0) bytes.now x.1.now) }
    ensures within { IfSome result (λ x. IsScalar x.0) }
{
    match kind {
        Kind::UInt32 => {
            let (number, left) = short_unsigned(bytes)?;
            Some((Scalar::U32(number), left))
        }
        Kind::UInt64 => {
            let (number, left) = unsigned(bytes)?;
            Some((Scalar::U64(number), left))
        }
        Kind::Int32 => {
            let (number, left) = short_signed(bytes)?;
            Some((Scalar::I32(number), left))
        }
        Kind::Int64 => {
            let (number, left) = signed(bytes)?;
            Some((Scalar::I64(number), left))
        }
        Kind::Decimal => decimal(bytes),
        Kind::Ascii | Kind::Unicode | Kind::Bytes => string(alloc, kind, bytes),
    }
}

/// Reads a value of a type.
#[inline(always)]
fn read_value(line: &mut Left<'_>, kind: Kind) -> Option<Scalar>
    ensures { IfSome result (λ v. IsShown (value_text Json kind v) (IsScalar v) 0 line.old line.new) }
{
    let (value, left) = value(line.alloc, kind, line.bytes)?;
    line.bytes = left;
    Some(value)
}

/// Reads what stands for what is left out.
fn read_absent(line: &mut Left<'_>, presence: Presence) -> Option<Node>
    ensures { IfSome result (λ n. IsShown (absent_text Json presence) (item_of n ≡ single None) 0 line.old line.new) }
{
    match presence {
        Presence::Optional => {
            line.bytes = behind(line.bytes, b"null")?;
            Some(Node::Absent)
        }
        Presence::Mandatory => None,
    }
}

/// Passes a byte.
#[inline(always)]
fn pass_byte(line: &mut Left<'_>, byte: u8) -> Option<()>
    ensures { IfSome result (λ _. IsShown (Some (byte ∷ [])) (Unit {0}) 0 line.old line.new) }
{
    line.bytes = behind_byte(line.bytes, byte)?;
    Some(())
}

/// Passes the comma in front of what is not the first.
#[inline(always)]
fn pass_lead(line: &mut Left<'_>, led: bool) -> Option<()>
    ensures { IfSome result (λ _. IsShown (Some (lead Json led)) (Unit {0}) 0 line.old line.new) }
{
    if led {
        return pass_byte(line, b',');
    }
    Some(())
}

/// Passes the label of a name.
#[inline(always)]
fn pass_label(line: &mut Left<'_>, name: &str) -> Option<()>
    ensures { IfSome result (λ _. IsShown (Some (label_text Json name.now)) (Unit {0}) 0 line.old line.new) }
{
    line.bytes = behind_label(line.bytes, name.as_bytes())?;
    Some(())
}

/// Takes one of the nodes that may still come.
#[inline(always)]
fn take_node(line: &mut Left<'_>) -> Option<()>
    ensures { IfSome result (λ _. IsShown (Some []) (Unit {0}) 1 line.old line.new) }
{
    if line.nodes == 0 {
        return None;
    }
    line.nodes -= 1;
    Some(())
}

/// Whether a byte is next.
#[inline(always)]
fn begins(bytes: &[u8], byte: u8) -> bool {
    match bytes.first() {
        Some(first) => *first == byte,
        None => false,
    }
}

/// Reads what a line has for these instructions.
#[cycle(shown)]
fn read_items(line: &mut Left<'_>, members: &[Flat]) -> Option<Vec<Node>>
    ensures { IfSome result (λ ns. IsShown (members_text Json [] (list_of members.now) (items_in ns.items))
        (HaveScalars (items_in ns.items)) (nodes_in (items_in ns.items)) line.old line.new) }
{
    let Ok(mut nodes) = Vec::with_capacity(line.alloc, members.len()) else {
        return None;
    };
    let mut led = false;
    for member in members {
        pass_lead(line, led)?;
        pass_label(line, name_of(member))?;
        let node = read_node(line, member)?;
        match nodes.push(node) {
            Ok(()) => led = true,
            Err(_) => return None,
        }
    }
    Some(nodes)
}

/// Reads what a line has in braces for these instructions.
#[cycle(shown)]
fn read_braced(line: &mut Left<'_>, members: &[Flat]) -> Option<Vec<Node>>
    ensures { IfSome result (λ ns. IsShown (braced (members_text Json [] (list_of members.now) (items_in ns.items)))
        (HaveScalars (items_in ns.items)) (nodes_in (items_in ns.items)) line.old line.new) }
{
    pass_byte(line, b'{')?;
    let nodes = read_items(line, members)?;
    pass_byte(line, b'}')?;
    Some(nodes)
}

/// Reads the elements of a sequence.
#[cycle(shown)]
fn read_elements(line: &mut Left<'_>, members: &[Flat]) -> Option<Vec<Vec<Node>>>
    ensures { IfSome result (λ es. IsShown (bracketed (elements_text Json (λ ns. members_text Json [] (list_of members.now) ns)
        [] (elements_of (map (λ v. items_in v.items) es.items))))
        (HaveScalarsIn (elements_of (map (λ v. items_in v.items) es.items)))
        (nodes_in_elements (elements_of (map (λ v. items_in v.items) es.items))) line.old line.new) }
{
    pass_byte(line, b'[')?;
    let mut elements = Vec::new(line.alloc);
    let mut led = false;
    while !begins(line.bytes, b']') {
        pass_lead(line, led)?;
        take_node(line)?;
        let nodes = read_braced(line, members)?;
        match elements.push(nodes) {
            Ok(()) => led = true,
            Err(_) => return None,
        }
    }
    pass_byte(line, b']')?;
    Some(elements)
}

/// Reads what a line has for an instruction.
#[cycle(shown)]
fn read_node(line: &mut Left<'_>, flat: &Flat) -> Option<Node>
    ensures { IfSome result (λ n. IsShown (node_text Json (instruction_of flat.now) (item_of n)) (HasScalars (item_of n))
        (nodes_of (item_of n)) line.old line.new) }
{
    take_node(line)?;
    if begins(line.bytes, b'n') {
        return read_absent(line, presence_of(flat));
    }
    match flat {
        Flat::Field { whole, .. } => {
            let value = read_value(line, whole.kind)?;
            Some(Node::Value(value))
        }
        Flat::Parts { .. } => {
            let value = read_value(line, Kind::Decimal)?;
            Some(Node::Value(value))
        }
        Flat::Group { members, .. } => {
            let nodes = read_braced(line, members)?;
            Some(Node::Group(nodes))
        }
        Flat::Sequence { members, .. } => {
            let elements = read_elements(line, members)?;
            Some(Node::Sequence(elements))
        }
    }
}

/// The message of a line as `show --json` writes it, behind its brace; none also where memory is refused.
fn read_named(alloc: Global, set: &TemplateSet, bytes: &[u8]) -> Option<Message>
    ensures { IfSome result (λ m. IsLineOf set.now (123 ∷ bytes.now) (content_of m)) }
{
    let left = behind(bytes, b"\"template\":\"")?;
    let (name, left) = units(left)?;
    let left = behind(left, b",\"id\":")?;
    let (id, left) = short_unsigned(left)?;
    let bytes = behind(left, b",\"fields\":{")?;
    let template = set.find(id)?;
    if template.name.as_str().as_bytes() != name {
        return None;
    }
    let mut left = Left {
        alloc,
        bytes,
        nodes: NODE_LIMIT,
    };
    let fields = read_items(&mut left, &template.members)?;
    if left.bytes != b"}}\n".as_slice() {
        return None;
    }
    Some(Message {
        template: id,
        fields,
    })
}

/// The message of a line as `show --json` writes it; none also where memory is refused.
pub(crate) fn read_shown(alloc: Global, set: &TemplateSet, line: &str) -> Option<Message>
    ensures { IfSome result (λ m. IsLineOf set.now line.now (content_of m)) }
{
    let left = behind_byte(line.as_bytes(), b'{')?;
    read_named(alloc, set, left)
}

/// The packet and the message of a line as `show --packets --json` writes it; none also where memory is refused.
pub(crate) fn read_numbered(alloc: Global, set: &TemplateSet, line: &str) -> Option<(u64, Message)>
    ensures { IfSome result (λ x. IsNumberedLineOf set.now line.now x.0 (content_of x.1)) }
{
    let left = behind(line.as_bytes(), b"{\"packet\":")?;
    let (number, left) = unsigned(left)?;
    if number == 0 {
        return None;
    }
    let left = behind_byte(left, b',')?;
    let message = read_named(alloc, set, left)?;
    Some((number, message))
}
