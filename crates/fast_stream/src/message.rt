//! Messages.

use fast_template::Scalar;

/// What a message has for one instruction of its template.
#[derive(Debug, PartialEq, Eq, Drop)]
pub enum Node {
    /// An optional field, group or sequence that was left out.
    Absent,
    /// A field. A decimal whose parts have operators of their own is one value.
    Value(Scalar),
    /// A node for each instruction in the group, in order.
    Group(Vec<Node>),
    /// For each element a node for each instruction in the sequence, in order.
    Sequence(Vec<Vec<Node>>),
}

/// A message: a node for each instruction of its template, in order.
#[derive(Debug, PartialEq, Eq, Drop)]
pub struct Message {
    /// The template's identifier.
    pub template: u32,
    pub fields: Vec<Node>,
}
