//! Which parts and instructions ask for a bit of the presence map.

ghost use Rattle.std.specs.Prelude.{◌≡◌};
ghost use Rattle.std.specs.List.{list_any};
ghost use Rattle.fast_template.specs.Resolved.{has_map as has_map_of, instruction_of, list_of, needs_bit as needs_bit_of, part_needs_bit as part_needs_bit_of, takes_bit as takes_bit_of};

use crate::resolved::{FieldPart, Flat};
use fast_value::{Operator, Presence};

/// Whether a part asks for a bit of the presence map.
#[inline(always)]
pub fn part_needs_bit(part: &FieldPart) -> bool
    ensures { result ≡ part_needs_bit_of part.now }
{
    match part.operator {
        Operator::Plain | Operator::Delta => false,
        Operator::Constant => part.presence == Presence::Optional,
        Operator::Default | Operator::Copy | Operator::Increment | Operator::Tail => true,
    }
}

/// Whether the first part of an instruction asks for a bit of the presence map.
///
/// An optional group asks for one too. A mantissa's own bit is asked of its part.
#[inline(always)]
pub fn needs_bit(instruction: &Flat) -> bool
    ensures { result ≡ needs_bit_of (instruction_of instruction.now) }
{
    match instruction {
        Flat::Field { whole, .. } => part_needs_bit(whole),
        Flat::Parts { exponent, .. } => part_needs_bit(exponent),
        Flat::Group { presence, .. } => *presence == Presence::Optional,
        Flat::Sequence { length, .. } => part_needs_bit(length),
    }
}

/// Whether a segment of these instructions begins with a presence map of its own.
///
/// It does exactly if one directly in it can take a bit, be it a mantissa's.
#[tactic(auto, using(crate::proofs::Maps::has_map_any))]
#[inline(always)]
pub fn has_map(instructions: &[Flat]) -> bool
    ensures { result ≡ has_map_of (list_of instructions.now) }
{
    some_takes_bit(instructions)
}

// Whether some instruction can take a bit of the map around it.
#[inline(always)]
fn some_takes_bit(instructions: &[Flat]) -> bool
    ensures { result ≡ list_any (λ i. takes_bit_of (instruction_of i)) instructions.now }
{
    instructions
        .iter()
        .any(|instruction| takes_bit(instruction))
}

// Whether an instruction can take a bit of the map around it.
#[inline(always)]
fn takes_bit(instruction: &Flat) -> bool
    ensures { result ≡ takes_bit_of (instruction_of instruction.now) }
{
    match instruction {
        Flat::Parts {
            exponent,
            mantissa,
            ..
        } => part_needs_bit(exponent) || part_needs_bit(mantissa),
        _ => needs_bit(instruction),
    }
}
