//! Messages as rows have them.

use fast_stream::{Message, Node};
use fast_template::{ByteString, Scalar, UnicodeText};
use std::alloc::{AllocError, Global};
use test_rows::Tried;

/// A node of ASCII characters.
pub fn text(alloc: Global, characters: &[u8]) -> Tried<Node> {
    let characters = ByteString::from_vec(characters.to_vec(alloc)?);
    Ok(Node::Value(Scalar::Ascii(characters)))
}

/// A node of a row. Each group here holds numbers, or a group of numbers, and each element of a sequence holds numbers.
#[derive(Clone, Copy)]
pub enum Shown {
    Absent,
    Number(u32),
    Signed(i32),
    Decimal(i32, i64),
    Text(&'static [u8]),
    /// so many times the letter A
    Letters(usize),
    Unicode(&'static str),
    Bytes(&'static [u8]),
    Group(&'static [u32]),
    GroupInGroup(&'static [u32]),
    Sequence(&'static [&'static [u32]]),
    /// so many times this element
    Repeated(usize, &'static [u32]),
}

fn numbers(alloc: Global, values: &[u32]) -> Tried<Vec<Node>> {
    let mut nodes = Vec::new(alloc);
    for value in values {
        nodes.push(Node::Value(Scalar::U32(*value)))?;
    }
    Ok(nodes)
}

fn unicode(alloc: Global, characters: &str) -> Tried<Node> {
    let characters = UnicodeText::from_string(String::from_str(alloc, characters)?);
    Ok(Node::Value(Scalar::Unicode(characters)))
}

fn group_in_group(alloc: Global, values: &[u32]) -> Tried<Node> {
    let inner = Node::Group(numbers(alloc, values)?);
    Ok(Node::Group(vec![in alloc; inner]?))
}

fn repeated(alloc: Global, count: usize, values: &[u32]) -> Tried<Node> {
    let mut elements = Vec::new(alloc);
    for _ in 0..count {
        elements.push(numbers(alloc, values)?)?;
    }
    Ok(Node::Sequence(elements))
}

fn elements(alloc: Global, rows: &[&[u32]]) -> Result<Vec<Vec<Node>>, AllocError> {
    let mut elements = Vec::new(alloc);
    for values in rows {
        elements.push(numbers(alloc, values)?)?;
    }
    Ok(elements)
}

impl Shown {
    fn node(self, alloc: Global) -> Tried<Node> {
        match self {
            Shown::Absent => Ok(Node::Absent),
            Shown::Number(value) => Ok(Node::Value(Scalar::U32(value))),
            Shown::Signed(value) => Ok(Node::Value(Scalar::I32(value))),
            Shown::Decimal(exponent, mantissa) => {
                Ok(Node::Value(Scalar::Decimal { exponent, mantissa }))
            }
            Shown::Text(bytes) => text(alloc, bytes),
            Shown::Letters(count) => text(alloc, &vec![in alloc; 0x41; count]?),
            Shown::Unicode(characters) => unicode(alloc, characters),
            Shown::Bytes(bytes) => {
                let bytes = ByteString::from_vec(bytes.to_vec(alloc)?);
                Ok(Node::Value(Scalar::Bytes(bytes)))
            }
            Shown::Group(values) => Ok(Node::Group(numbers(alloc, values)?)),
            Shown::GroupInGroup(values) => group_in_group(alloc, values),
            Shown::Sequence(rows) => Ok(Node::Sequence(elements(alloc, rows)?)),
            Shown::Repeated(count, values) => repeated(alloc, count, values),
        }
    }
}

/// A message of a row: its template, and its fields.
pub struct Sent(pub u32, pub &'static [Shown]);

pub fn messages(alloc: Global, rows: &[Sent]) -> Tried<Vec<Message>> {
    let mut messages = Vec::new(alloc);
    for Sent(template, shown) in rows {
        let (template, mut fields) = (*template, Vec::new(alloc));
        for field in *shown {
            fields.push(field.node(alloc)?)?;
        }
        messages.push(Message { template, fields })?;
    }
    Ok(messages)
}
