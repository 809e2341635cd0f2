//! Nodes of messages.

/// A message; its instruction is the identifier of its template.
pub const MESSAGE: u32 = 0;
/// A field, a group or a sequence that is left out.
pub const ABSENT: u32 = 1;

pub const UINT32: u32 = 2;

pub const UINT64: u32 = 3;

pub const INT32: u32 = 4;

pub const INT64: u32 = 5;

pub const DECIMAL: u32 = 6;

pub const ASCII: u32 = 7;

pub const UNICODE: u32 = 8;

pub const BYTES: u32 = 9;

pub const GROUP: u32 = 10;

pub const SEQUENCE: u32 = 11;

pub const ELEMENT: u32 = 12;

/// A node of a message, 32 bytes. What its kind says nothing of is 0.
#[repr(C)]
#[derive(Clone, Copy, Debug)]
pub struct TapeNode {
    pub kind: u32,
    /// The number of its instruction; of a message the identifier of its template.
    pub instruction: u32,
    /// An unsigned value; of a string where its bytes begin; of a sequence how many elements it has.
    pub number: u64,
    /// A signed value, or the mantissa of a decimal.
    pub mantissa: i64,
    /// Of a string how many bytes it has; of a message, group, sequence or element how many nodes behind it are its own.
    pub length: u32,
    /// Of a decimal.
    pub exponent: i32,
}

impl TapeNode {
    ghost use Rattle.std.specs.Prelude.{◌≡◌, ◌≤◌, ◌↔◌, ◌+◌, ◌^◌, IfSome, IsNone};
    ghost use Rattle.fast_tape.specs.Tapes.{ascii_kind, bytes_kind, long_node, signed_node};
    ghost use Rattle.fast_tape.specs.Moved.{moved, with_length};

    /// A node of a number and a length.
    #[inline(always)]
    pub fn long(kind: u32, instruction: u32, number: u64, length: u32) -> TapeNode
        ensures { result ≡ long_node kind instruction number length }
    {
        TapeNode {
            kind,
            instruction,
            number,
            mantissa: 0,
            length,
            exponent: 0,
        }
    }

    /// A node of a mantissa and an exponent.
    #[inline(always)]
    pub fn signed(kind: u32, instruction: u32, mantissa: i64, exponent: i32) -> TapeNode
        ensures { result ≡ signed_node kind instruction mantissa exponent }
    {
        TapeNode {
            kind,
            instruction,
            number: 0,
            mantissa,
            length: 0,
            exponent,
        }
    }

    /// The same node with this length.
    #[inline(always)]
    pub fn with_length(self, length: u32) -> TapeNode
        ensures { result ≡ with_length self length }
    {
        TapeNode { length, ..self }
    }

    /// The same node where so many bytes stand in front of those of its string; none if that passes a `u64`.
    #[inline(always)]
    pub fn moved(self, by: u64) -> Option<TapeNode>
        ensures moved { IfSome result (λ node. node ≡ moved by self) }
        ensures none { IsNone result ↔ ((ascii_kind ≤ self.kind) × (self.kind ≤ bytes_kind) × (2 ^ 64 ≤ self.number + by)) }
    {
        if self.kind < ASCII || self.kind > BYTES {
            return Some(self);
        }
        match self.number.checked_add(by) {
            None => None,
            Some(number) => Some(TapeNode { number, ..self }),
        }
    }
}
