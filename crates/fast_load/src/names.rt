//! Whether the names of templates are names.

ghost use Rattle.std.specs.Prelude.{[], ◌≡◌, ◌≤◌, ◌⊎◌, ◌&&◌, MatchResult, length, map, nat_le, Some, None, if◌then◌else◌, option_map, option_to_list, string_bytes};
ghost use Rattle.std.specs.List.{list_all};
ghost use Rattle.fast_written.specs.declared.fault.LoadCause.TheVariants.{S1};
ghost use Rattle.fast_load.specs.LoadChecks.{names_beside, names_in, names_of};
ghost use Rattle.fast_written.specs.LoadFaults.{want_of_memory};
ghost use Rattle.fast_written.specs.Names.{is_name as is_name_of};
ghost use Rattle.fast_load.specs.Phases.{IsFirstOf, Passes};
ghost use Rattle.fast_written.specs.Written.{operation_of, written_of, written_template_of};

use crate::walk::{Judge, judge_all};
use fast_written::{
    Instruction, LoadCause, LoadFault, Operation, Template, is_name, want_of_memory,
};
use std::alloc::{AllocError, Global};

/// Judges names: 1 to 255 bytes from `!` to `~`.
pub(crate) struct Names;

impl Judge for Names {
    type Kept = ();

    ghost judges_template = { λ s w. if list_all is_name_of (names_of w) then None else Some S1 };

    ghost judges = { λ s i. if list_all is_name_of (names_in i) then None else Some S1 };

    ghost keeps = { λ s i. [] };

    fn judge_template(&self, template: &Template) -> Option<LoadCause> {
        if template_is_named(template) {
            None
        } else {
            Some(LoadCause::S1)
        }
    }

    fn judge(
        &self,
        instruction: &Instruction,
        _kept: &mut Vec<()>,
    ) -> Result<Option<LoadCause>, AllocError> {
        if is_named(instruction) {
            Ok(None)
        } else {
            Ok(Some(LoadCause::S1))
        }
    }
}

/// The first fault of names.
///
/// # Errors
///
/// That fault, or want of memory.
pub(crate) fn check_names(alloc: Global, templates: &[Template]) -> Result<(), LoadFault>
    requires { length templates.now ≤ 65535 }
    ensures { MatchResult result (λ passed. Passes (map written_template_of templates.now) 1)
        (λ fault. IsFirstOf (map written_template_of templates.now) 1 fault
        ⊎ (fault ≡ want_of_memory)) }
{
    match judge_all(alloc, templates, &Names) {
        Ok(Ok(_)) => Ok(()),
        Ok(Err(fault)) => Err(fault),
        Err(AllocError) => Err(want_of_memory()),
    }
}

// Whether a template's own names are names.
fn template_is_named(template: &Template) -> bool
    ensures { result ≡ list_all is_name_of (names_of (written_template_of template.now)) }
{
    is_name(&template.name)
        && is_name_or_none(&template.dictionary)
        && is_name_or_none(&template.type_ref)
}

// Whether the names that an instruction itself has are names.
fn is_named(instruction: &Instruction) -> bool
    ensures { result ≡ list_all is_name_of (names_in (written_of instruction.now)) }
{
    match instruction {
        Instruction::Field {
            name,
            operation,
            ..
        } => is_name(name) && is_named_beside(operation),
        Instruction::Parts {
            name,
            exponent,
            mantissa,
            ..
        } => is_name(name) && is_named_beside(exponent) && is_named_beside(mantissa),
        Instruction::Group {
            name,
            dictionary,
            type_ref,
            ..
        } => is_name(name) && is_name_or_none(dictionary) && is_name_or_none(type_ref),
        Instruction::Sequence {
            name,
            dictionary,
            type_ref,
            length_name,
            length,
            ..
        } => {
            is_name(name)
                && is_name_or_none(dictionary)
                && is_name_or_none(type_ref)
                && is_name_or_none(length_name)
                && is_named_beside(length)
        }
        Instruction::Reference { name } => is_name(name),
    }
}

// Whether the names beside an operator are names.
fn is_named_beside(operation: &Operation) -> bool
    ensures { result ≡ list_all is_name_of (names_beside (operation_of operation.now)) }
{
    is_name_or_none(&operation.dictionary) && is_name_or_none(&operation.key)
}

fn is_name_or_none(text: &Option<String>) -> bool
    ensures { result ≡ list_all is_name_of (option_to_list (option_map string_bytes text.now)) }
{
    match text {
        Some(text) => is_name(text),
        None => true,
    }
}
