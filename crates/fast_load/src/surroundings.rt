//! Where an instruction was written, and the keys that follow from it.

ghost use Rattle.std.specs.Prelude.{◌≡◌, IfOk, option_map, string_bytes};
ghost use Rattle.std.specs.Option.{option_or};
ghost use Rattle.fast_load.specs.FlatLists.{Context, context_of, inside as inside_of, key_of as key_of_operation, part_of as part_of_operation, scope_named as scope_of_name, scope_of as scope_of_operation};
ghost use Rattle.fast_load.specs.Initials.{initial_in};
ghost use Rattle.fast_load.specs.Surroundings.{context_in};
ghost use Rattle.fast_written.specs.Written.{operation_of, written_template_of};

use fast_template::{FieldPart, Initial};
use fast_value::{Key, Kind, Name, Part, Presence, Scope};
use fast_written::{Operation, Template};
use std::alloc::{AllocError, Global};

/// In which template an instruction was written, and what the elements around it name.
#[derive(Clone, Copy)]
pub(crate) struct Around<'a> {
    pub(crate) template: u32,
    pub(crate) dictionary: Option<&'a str>,
    pub(crate) type_ref: Option<&'a str>,
}

/// Directly in a template, which is counted from 1.
pub(crate) fn directly_in(template: &Template, number: u32) -> Around<'_>
    ensures { context_in result ≡ context_of number (written_template_of template.now) }
{
    Around {
        template: number,
        dictionary: own(&template.dictionary),
        type_ref: own(&template.type_ref),
    }
}

fn own(name: &Option<String>) -> Option<&str>
    ensures { option_map (λ s. s.now) result ≡ option_map string_bytes name.now }
{
    match name {
        Some(name) => Some(name.as_str()),
        None => None,
    }
}

/// What is around the members of an element: the innermost element's names hold.
pub(crate) fn inside<'a>(
    around: Around<'a>,
    dictionary: &'a Option<String>,
    type_ref: &'a Option<String>,
) -> Around<'a>
    ensures { context_in result ≡ inside_of (context_in around.entry)
        (record {
          dictionary = option_map string_bytes dictionary.now;
          type_ref = option_map string_bytes type_ref.now;
        }) }
{
    Around {
        template: around.template,
        dictionary: own_or(dictionary, around.dictionary),
        type_ref: own_or(type_ref, around.type_ref),
    }
}

// A name of an element itself, or else that around it.
fn own_or<'a>(own: &'a Option<String>, around: Option<&'a str>) -> Option<&'a str>
    ensures { option_map (λ s. s.now) result
        ≡ option_or (option_map string_bytes own.now) (option_map (λ s. s.now) around.entry) }
{
    match own {
        Some(name) => Some(name.as_str()),
        None => around,
    }
}

// The dictionary of a name.
fn scope_named(alloc: Global, around: Around<'_>, name: &str) -> Result<Scope, AllocError>
    ensures { IfOk result (λ scope. scope ≡ scope_of_name (context_in around.entry) name.now) }
{
    if name == "global" {
        return Ok(Scope::Global);
    }
    if name == "template" {
        return Ok(Scope::Template(around.template));
    }
    if name == "type" {
        return match around.type_ref {
            Some(type_ref) => Ok(Scope::Typed(Name::of(alloc, type_ref)?)),
            None => Ok(Scope::Typed(Name::of(alloc, "any")?)),
        };
    }
    Ok(Scope::User(Name::of(alloc, name)?))
}

// The dictionary of an operator: its own, or else that around it, or else `global`.
fn scope_of(alloc: Global, around: Around<'_>, operation: &Operation) -> Result<Scope, AllocError>
    ensures { IfOk result (λ scope. scope
        ≡ scope_of_operation (context_in around.entry) (operation_of operation.now)) }
{
    match own_or(&operation.dictionary, around.dictionary) {
        Some(name) => scope_named(alloc, around, name),
        None => scope_named(alloc, around, "global"),
    }
}

/// The key of an operator's entry, its slot still to be given. It shares the field's name, where it has that.
///
/// # Errors
///
/// Where memory is refused.
pub(crate) fn key_of(
    alloc: Global,
    around: Around<'_>,
    operation: &Operation,
    name: &Name,
    part: Part,
) -> Result<Key, AllocError>
    ensures { IfOk result (λ key. key
        ≡ key_of_operation (context_in around.entry) (operation_of operation.now) name.now part) }
{
    let scope = scope_of(alloc, around, operation)?;
    match &operation.key {
        Some(key) => Ok(Key {
            slot: 0,
            scope,
            name: Name::of(alloc, key)?,
            part: Part::Whole,
        }),
        None => Ok(Key {
            slot: 0,
            scope,
            name: name.copy()?,
            part,
        }),
    }
}

/// One part of an instruction, its number still to be given.
pub(crate) fn part_of(
    part: Part,
    kind: Kind,
    presence: Presence,
    operation: &Operation,
    key: Key,
    initial: Option<Initial>,
) -> FieldPart
    requires { initial ≡ initial_in part kind (operation_of operation.now) }
    ensures { (c : Context) → result
        ≡ part_of_operation c part kind presence (operation_of operation.now) key }
{
    FieldPart {
        number: 0,
        part,
        kind,
        presence,
        operator: operation.operator,
        key,
        initial,
    }
}
