//! Whether operators apply to their types, and have the initial values that they need; and these values.

ghost use Rattle.std.specs.Prelude.{◌≡◌, ◌≤◌, ◌⊎◌, ◌∷◌, ◌++◌, [], IfOk, MatchResult, None, Ok, length, map};
ghost use Rattle.fast_load.specs.Initials.{AreInitials, initial_in, initials_of};
ghost use Rattle.fast_written.specs.LoadFaults.{want_of_memory};
ghost use Rattle.fast_load.specs.Phases.{IsFirstOf, Passes};
ghost use Rattle.fast_value.specs.declared.kind.Kind.TheVariants.{Int32};
ghost use Rattle.fast_value.specs.declared.kind.Part.TheVariants.{Exponent};
ghost use Rattle.fast_load.specs.PartCauses.{missing_value as missing_value_of, part_cause, parts_cause};
ghost use Rattle.fast_template.specs.TemplateSets.{applies as applies_to};
ghost use Rattle.fast_written.specs.Written.{operation_of, parts_of, written_template_of};

use crate::walk::{Judge, judge_all};
use fast_template::Initial;
use fast_value::{Kind, Operator, Part, Presence, value_of_text};
use fast_written::{Instruction, LoadCause, LoadFault, Operation, Template, want_of_memory};
use std::alloc::{AllocError, Global};

/// Judges operators and initial values, an exponent before its mantissa, and keeps the value of each part.
#[derive(Drop)]
pub(crate) struct Operators {
    pub(crate) alloc: Global,
}

impl Judge for Operators {
    type Kept = Option<Initial>;

    ghost judges_template = { λ s w. None };

    ghost judges = { λ s i. parts_cause (parts_of i) };

    ghost keeps = { λ s. initials_of };

    fn judge_template(&self, _template: &Template) -> Option<LoadCause> {
        None
    }

    fn judge(
        &self,
        instruction: &Instruction,
        kept: &mut Vec<Option<Initial>>,
    ) -> Result<Option<LoadCause>, AllocError> {
        match instruction {
            Instruction::Field {
                kind,
                presence,
                operation,
                ..
            } => judge_part(self.alloc, Part::Whole, *kind, *presence, operation, kept),
            Instruction::Parts {
                presence,
                exponent,
                mantissa,
                ..
            } => match judge_part(
                self.alloc,
                Part::Exponent,
                Kind::Int32,
                *presence,
                exponent,
                kept,
            )? {
                Some(cause) => Ok(Some(cause)),
                None => judge_part(
                    self.alloc,
                    Part::Mantissa,
                    Kind::Int64,
                    Presence::Mandatory,
                    mantissa,
                    kept,
                ),
            },
            Instruction::Sequence {
                presence,
                length,
                ..
            } => judge_part(
                self.alloc,
                Part::Length,
                Kind::UInt32,
                *presence,
                length,
                kept,
            ),
            Instruction::Group { .. } | Instruction::Reference { .. } => Ok(None),
        }
    }
}

/// The initial values of each template's parts, in their order.
///
/// # Errors
///
/// The first fault of operators and initial values, or want of memory.
pub(crate) fn check_operators(
    alloc: Global,
    templates: &[Template],
) -> Result<Vec<Vec<Option<Initial>>>, LoadFault>
    requires { length templates.now ≤ 65535 }
    ensures { MatchResult result
        (λ rows. Passes (map written_template_of templates.now) 3
        × AreInitials templates.now rows.items)
        (λ fault. IsFirstOf (map written_template_of templates.now) 3 fault
        ⊎ (fault ≡ want_of_memory)) }
{
    match judge_all(alloc, templates, &Operators { alloc }) {
        Ok(Ok(rows)) => Ok(rows),
        Ok(Err(fault)) => Err(fault),
        Err(AllocError) => Err(want_of_memory()),
    }
}

// What is wrong with an operator of a part. Where nothing is, its initial value is appended.
fn judge_part(
    alloc: Global,
    part: Part,
    kind: Kind,
    presence: Presence,
    operation: &Operation,
    kept: &mut Vec<Option<Initial>>,
) -> Result<Option<LoadCause>, AllocError>
    requires { part ≡ Exponent → kind ≡ Int32 }
    ensures cause { IfOk result (λ cause. cause ≡ part_cause (record {
      part = part;
      kind = kind;
      presence = presence;
      operation = operation_of operation.now;
    })) }
    ensures kept { result ≡ Ok None → kept.new.items ≡ kept.old.items
        ++ initial_in part kind (operation_of operation.now) ∷ [] }
{
    if !applies(operation.operator, kind) {
        return Ok(Some(LoadCause::S2));
    }
    match &operation.initial {
        None => match missing_value(operation.operator, presence) {
            Some(cause) => Ok(Some(cause)),
            None => {
                kept.push(None)?;
                Ok(None)
            }
        },
        Some(text) => match value_of_text(alloc, part, kind, text)? {
            Some(value) => {
                kept.push(Some(Initial::of(alloc, value)?))?;
                Ok(None)
            }
            None => Ok(Some(LoadCause::S3)),
        },
    }
}

// What is wrong with an operator that has no initial value.
fn missing_value(operator: Operator, presence: Presence) -> Option<LoadCause>
    ensures { result ≡ missing_value_of operator presence }
{
    match operator {
        Operator::Constant => Some(LoadCause::S4),
        Operator::Default => match presence {
            Presence::Mandatory => Some(LoadCause::S5),
            Presence::Optional => None,
        },
        _ => None,
    }
}

// Whether an operator applies to a type.
fn applies(operator: Operator, kind: Kind) -> bool
    ensures { result ≡ applies_to operator kind }
{
    match operator {
        Operator::Increment => match kind {
            Kind::Int32 | Kind::UInt32 | Kind::Int64 | Kind::UInt64 => true,
            Kind::Decimal | Kind::Ascii | Kind::Unicode | Kind::Bytes => false,
        },
        Operator::Tail => match kind {
            Kind::Ascii | Kind::Unicode | Kind::Bytes => true,
            Kind::Int32 | Kind::UInt32 | Kind::Int64 | Kind::UInt64 | Kind::Decimal => false,
        },
        _ => true,
    }
}
