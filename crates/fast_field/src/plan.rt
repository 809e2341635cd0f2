//! The form that a writer chooses, before it is written.

ghost use Rattle.std.specs.Prelude.{◌≡◌, ◌≤◌, ℕ, Bool, true, false, List, length, None, Some, Ok, IfOk, MatchResult};
ghost use Rattle.std.specs.Option.{option_copied};
ghost use Rattle.fast_wire.specs.declared.level.Level.TheVariants.{Usual};
ghost use Rattle.fast_wire.specs.Reader.{IsBytes};
ghost use Rattle.fast_dictionary.specs.Dictionary.{entry_of};
ghost use Rattle.fast_field.specs.Best.{IsBest};
ghost use Rattle.fast_field.specs.Bases.{delta_base};
ghost use Rattle.fast_field.specs.Chosen.{CanBePieces, CanBeUnits, IsMadeOf, ShortestPieces};
ghost use Rattle.fast_field.specs.Fields.{Form};
ghost use Rattle.fast_field.specs.Parts.{IsFieldPart};
ghost use Rattle.fast_field.specs.Planning.{left_out_of};
ghost use Rattle.fast_field.specs.Refusals.{operator_refusal, refusal_of};
ghost use Rattle.fast_field.specs.Values.{units_of};
ghost use Rattle.fast_field.specs.Within.{HasRange, HasRangeOr, HoldsScalar};
ghost use Rattle.fast_value.specs.declared.scalar.Scalar as scalar;

use crate::delta::delta_of;
use crate::fault::FieldRefusal;
use crate::left_out::is_left_out;
use crate::pieces::{Pieces, size_pieces};
use crate::refuse::judge;
use crate::tail::tail_of;
use fast_dictionary::EntryRef;
use fast_template::{FieldPart, Operator, Scalar};

/// The best form of a value, before it is written.
#[derive(Clone, Copy, Debug, PartialEq, Eq, Drop)]
pub struct Plan {
    /// Its bit in the presence map; true where the field has none.
    pub bit: bool,
    /// How many bytes it has.
    pub size: usize,
}

/// What their type says of bytes, for the proofs: it does nothing.
#[tactic(auto, using(crate::proofs::ReadFields::all_bytes))]
fn tell_bytes(bytes: &[u8])
    ensures { IsBytes bytes.now }
{
    let _ = bytes;
}

/// What the types of the code say of a value, for the proofs: it does nothing.
fn tell_value(value: &Scalar)
    ensures { HasRange value.now }
{
    match value {
        Scalar::U32(number) => {
            let _number = *number;
        }
        Scalar::I32(number) => {
            let _number = *number;
        }
        Scalar::U64(number) => {
            let _number = *number;
        }
        Scalar::I64(number) => {
            let _number = *number;
        }
        Scalar::Decimal { exponent, mantissa } => {
            let _exponent = *exponent;
            let _mantissa = *mantissa;
        }
        Scalar::Ascii(text) => tell_bytes(text.as_slice()),
        Scalar::Unicode(text) => tell_bytes(text.as_bytes()),
        Scalar::Bytes(bytes) => tell_bytes(bytes.as_slice()),
    }
}

/// The same of one that may be absent.
fn tell_range(value: Option<&Scalar>)
    ensures { HasRangeOr (option_copied value.entry) }
{
    if let Some(value) = value {
        tell_value(value);
    }
}

/// What the best form of a value is made of that bit 0 does not give.
#[inline(always)]
fn pieces_of<'a>(instr: &FieldPart, kept: EntryRef, value: &'a Scalar) -> Pieces<'a>
    requires judged { operator_refusal instr.now.operator instr.now (entry_of kept) value.now
        ≡ None }
    requires base { (base : scalar.Scalar) → delta_base instr.now (entry_of kept) ≡ Ok base
        → length (units_of base) ≤ 65535 }
    requires value { CanBeUnits instr.now.kind (units_of value.now) }
    ensures { IsMadeOf instr.now.operator instr.now (entry_of kept.entry) value.now result }
{
    match instr.operator {
        Operator::Constant => Pieces::Nothing,
        Operator::Delta => delta_of(instr, kept, value),
        Operator::Tail => tail_of(instr, kept, value),
        Operator::Plain | Operator::Default | Operator::Copy | Operator::Increment => {
            Pieces::Whole(value)
        }
    }
}

/// The bit of the best form of a value, and what the form is made of.
#[inline(always)]
pub(crate) fn choose<'a>(
    instr: &FieldPart,
    kept: EntryRef,
    value: Option<&'a Scalar>,
) -> Result<(bool, Pieces<'a>), FieldRefusal>
    requires part { IsFieldPart instr.now }
    requires entry { HoldsScalar (entry_of kept) }
    ensures can { IfOk result (λ x. CanBePieces instr.now x.1) }
    // the shortest bytes of the pieces are the best form
    ensures best { IfOk result (λ x. (b : List ℕ) → ShortestPieces instr.now x.1 b
        → IsBest instr.now (entry_of kept.entry) x.0 b (option_copied value.entry)) }
    ensures judged { MatchResult result
        (λ _. refusal_of instr.now (entry_of kept.entry) (option_copied value.entry) ≡ None)
        (λ f. refusal_of instr.now (entry_of kept.entry) (option_copied value.entry) ≡ Some f) }
    ensures left_out { IfOk result (λ x. x.0 ≡ false → left_out_of instr.now.operator instr.now
        (entry_of kept.entry) (option_copied value.entry) ≡ true) }
{
    judge(instr, kept, value)?;
    tell_range(value);
    if is_left_out(instr, kept, value) {
        return Ok((false, Pieces::Nothing));
    }
    match value {
        None => Ok((true, Pieces::Null)),
        Some(value) => Ok((true, pieces_of(instr, kept, value))),
    }
}

/// Plans the best form of a value, none where it is absent: its bit and how many bytes it has. It takes no memory.
///
/// # Errors
///
/// The first reason why the value has no form: Mismatch, Limit, R1, NotConstant (of a part of a decimal D3), D4 or
/// D6, TooShort.
pub fn plan_field(
    instr: &FieldPart,
    kept: EntryRef,
    value: Option<&Scalar>,
) -> Result<Plan, FieldRefusal>
    // the instruction is as resolved, and an assigned value within its type
    requires part { IsFieldPart instr.now }
    requires entry { HoldsScalar (entry_of kept) }
    ensures best { IfOk result (λ plan. (b : List ℕ)
        × IsBest instr.now (entry_of kept.entry) plan.bit b (option_copied value.entry)
        × (plan.size ≡ length b)) }
    // a value is refused exactly where it has no form, and for the first reason
    ensures refused { MatchResult result
        (λ _. refusal_of instr.now (entry_of kept.entry) (option_copied value.entry) ≡ None)
        (λ f. refusal_of instr.now (entry_of kept.entry) (option_copied value.entry) ≡ Some f) }
    // no form has fewer bytes, and none has bit 0 where this bit is 1
    ensures shortest { IfOk result (λ plan. (bit : Bool) (c : List ℕ)
        → Form Usual instr.now (entry_of kept.entry) bit c (option_copied value.entry)
        → (bit ≡ false → plan.bit ≡ false) × (plan.size ≤ length c)) }
{
    let (bit, pieces) = choose(instr, kept, value)?;
    let size = size_pieces(instr, pieces);
    Ok(Plan { bit, size })
}
