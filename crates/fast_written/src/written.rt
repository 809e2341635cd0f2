//! Templates as they are written.

use fast_value::{Kind, Operator, Presence};

/// A field operator as it is written.
#[derive(Debug, Drop)]
pub struct Operation {
    pub operator: Operator,
    /// The text of the initial value.
    pub initial: Option<String>,
    /// The dictionary that is named here. Without one, that of the innermost element around it that names one.
    pub dictionary: Option<String>,
    /// The key of the entry. Without one, the field's name.
    pub key: Option<String>,
}

/// An instruction as it is written.
#[derive(Debug, Drop)]
pub enum Instruction {
    /// A field with one operator.
    Field {
        name: String,
        kind: Kind,
        presence: Presence,
        operation: Operation,
    },
    /// A decimal whose parts have operators of their own.
    Parts {
        name: String,
        presence: Presence,
        exponent: Operation,
        mantissa: Operation,
    },
    /// Instructions that come together.
    Group {
        name: String,
        presence: Presence,
        dictionary: Option<String>,
        type_ref: Option<String>,
        members: Vec<Instruction>,
    },
    /// Instructions that come as many times as a length says.
    Sequence {
        name: String,
        presence: Presence,
        dictionary: Option<String>,
        type_ref: Option<String>,
        length_name: Option<String>,
        length: Operation,
        members: Vec<Instruction>,
    },
    /// The instructions of the template of this name.
    Reference {
        name: String,
    },
}

/// A template as it is written.
#[derive(Debug, Drop)]
pub struct Template {
    pub name: String,
    pub id: Option<u32>,
    pub dictionary: Option<String>,
    pub type_ref: Option<String>,
    pub members: Vec<Instruction>,
}
