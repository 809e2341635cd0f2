//! Templates from the data of a template text.

ghost use Rattle.std.specs.Prelude.{◌≡◌, IfOk, length, map, min, option_and_then, option_map, option_to_list, string_bytes};
ghost use Rattle.fast_written.specs.JsonTemplates.{ReadsAs, ReadsTemplate, ReadsTemplates, fault_of_unread, read_templates as read_templates_of, templates_of, templates_under, id_in, read_template as read_template_of, template_with, around_in, group_in, members_in, read_all as read_all_of, read_items, one_of, sequence_in, charset_in, charset_named, decimal_in, field_in, form_in, form_named, has as has_of, leaf_in, length_name_in, name_in, operation_in, operator_named as operator_named_of, part_in, parts_in, plain, presence_in, presence_named, row_of_form as row_of_form_of, says_more as says_more_of, text_at as text_at_of};
ghost use Rattle.std.specs.List.{list_all};
ghost use Rattle.std.specs.Option.{option_or};
ghost use Rattle.fast_written.specs.Names.{is_name as is_name_of};
ghost use Rattle.fast_written.specs.declared.profile.Word.TheVariants as word_variants;
ghost use Rattle.fast_written.specs.JsonData.{data_in, items_in};
ghost use Rattle.fast_written.specs.LoadFaults.{next_number as next_number_of};
ghost use Rattle.fast_written.specs.Written.{operation_of, written_group, written_list, written_of, written_sequence, written_template_of};
ghost use Rattle.fast_written.specs.declared.from_data.Unread.TheVariants as unread_variants;

use crate::data::{member, text, whole_number};
use crate::fault::{LoadCause, LoadFault, fault_at, want_of_memory};
use crate::name::is_name;
use crate::profile::{IDENTIFIERS, Row, Word, fits};
use crate::written::{Instruction, Operation, Template};
use fast_value::{Kind, Operator, Presence};
use json::Value;
use std::alloc::{AllocError, Global};

/// What an instruction's `kind` says.
#[derive(Clone, Copy)]
pub enum Form {
    Int32,
    UInt32,
    Int64,
    UInt64,
    Decimal,
    Text,
    Bytes,
    Group,
    Sequence,
    Reference,
}

/// Why an instruction was not read.
#[derive(Clone, Copy)]
pub(crate) enum Unread {
    /// The shape of the instruction with this number is at fault.
    At(u32),
    /// Memory was refused.
    Memory,
}

impl From<AllocError> for Unread {
    ghost from_gives = { λ error unread. unread ≡ unread_variants.Memory };

    fn from(_: AllocError) -> Unread {
        Unread::Memory
    }
}

fn text_at<'a>(object: &'a Value<'_>, word: Word) -> Option<&'a str>
    ensures { option_map (λ s. s.now) result ≡ text_at_of word (data_in object.now) }
{
    match member(object, word) {
        Some(value) => text(value),
        None => None,
    }
}

fn has(object: &Value<'_>, word: Word) -> bool
    ensures { result ≡ has_of word (data_in object.now) }
{
    member(object, word).is_some()
}

fn string_at(alloc: Global, object: &Value<'_>, word: Word) -> Result<Option<String>, AllocError>
    ensures { IfOk result (λ o. option_map string_bytes o ≡ text_at_of word (data_in object.now)) }
{
    match text_at(object, word) {
        Some(text) => Ok(Some(String::from_str(alloc, text)?)),
        None => Ok(None),
    }
}

fn name_at(alloc: Global, object: &Value<'_>) -> Result<String, AllocError>
    ensures { IfOk result (λ name. string_bytes name ≡ name_in (data_in object.now)) }
{
    match text_at(object, Word::Name) {
        Some(name) => String::from_str(alloc, name),
        None => Ok(String::new(alloc)),
    }
}

/// The words for kinds.
pub const KINDS: [&str; 10] = [
    "int32",
    "uInt32",
    "int64",
    "uInt64",
    "decimal",
    "string",
    "byteVector",
    "group",
    "sequence",
    "templateRef",
];

/// What a word for a kind says.
pub fn form_of_kind(text: &str) -> Option<Form>
    ensures { result ≡ form_named text.now }
{
    match text {
        "int32" => Some(Form::Int32),
        "uInt32" => Some(Form::UInt32),
        "int64" => Some(Form::Int64),
        "uInt64" => Some(Form::UInt64),
        "decimal" => Some(Form::Decimal),
        "string" => Some(Form::Text),
        "byteVector" => Some(Form::Bytes),
        "group" => Some(Form::Group),
        "sequence" => Some(Form::Sequence),
        "templateRef" => Some(Form::Reference),
        _ => None,
    }
}

fn form_at(object: &Value<'_>) -> Option<Form>
    ensures { result ≡ form_in (data_in object.now) }
{
    match text_at(object, Word::Kind) {
        Some(text) => form_of_kind(text),
        None => None,
    }
}

/// The words for presences.
pub const PRESENCES: [&str; 2] = ["mandatory", "optional"];

/// The presence of a word.
pub fn presence_of_word(text: &str) -> Option<Presence>
    ensures { result ≡ presence_named text.now }
{
    match text {
        "mandatory" => Some(Presence::Mandatory),
        "optional" => Some(Presence::Optional),
        _ => None,
    }
}

fn presence_at(object: &Value<'_>) -> Option<Presence>
    ensures { result ≡ presence_in (data_in object.now) }
{
    match text_at(object, Word::Presence) {
        Some(text) => presence_of_word(text),
        None => Some(Presence::Mandatory),
    }
}

/// The words for charsets.
pub const CHARSETS: [&str; 2] = ["ascii", "unicode"];

/// The kind of a string with this charset.
pub fn kind_of_charset(text: &str) -> Option<Kind>
    ensures { result ≡ charset_named text.now }
{
    match text {
        "ascii" => Some(Kind::Ascii),
        "unicode" => Some(Kind::Unicode),
        _ => None,
    }
}

fn charset_at(object: &Value<'_>) -> Option<Kind>
    ensures { result ≡ charset_in (data_in object.now) }
{
    match text_at(object, Word::Charset) {
        Some(text) => kind_of_charset(text),
        None => Some(Kind::Ascii),
    }
}

/// The words for operators.
pub const OPERATORS: [&str; 6] = ["constant", "default", "copy", "increment", "delta", "tail"];

/// The operator of a word.
pub fn operator_named(text: &str) -> Option<Operator>
    ensures { result ≡ operator_named_of text.now }
{
    match text {
        "constant" => Some(Operator::Constant),
        "default" => Some(Operator::Default),
        "copy" => Some(Operator::Copy),
        "increment" => Some(Operator::Increment),
        "delta" => Some(Operator::Delta),
        "tail" => Some(Operator::Tail),
        _ => None,
    }
}

fn says_more(object: &Value<'_>) -> bool
    ensures { result ≡ says_more_of (data_in object.now) }
{
    has(object, Word::Value) || has(object, Word::Dictionary) || has(object, Word::Key)
}

fn plain_operation() -> Operation
    ensures { operation_of result ≡ plain }
{
    Operation {
        operator: Operator::Plain,
        initial: None,
        dictionary: None,
        key: None,
    }
}

fn operation_at(alloc: Global, object: &Value<'_>) -> Result<Option<Operation>, AllocError>
    ensures { IfOk result (λ o. option_map operation_of o ≡ operation_in (data_in object.now)) }
{
    let Some(text) = text_at(object, Word::Operator) else {
        return if says_more(object) {
            Ok(None)
        } else {
            Ok(Some(plain_operation()))
        };
    };
    match operator_named(text) {
        Some(operator) => Ok(Some(Operation {
            operator,
            initial: string_at(alloc, object, Word::Value)?,
            dictionary: string_at(alloc, object, Word::Dictionary)?,
            key: string_at(alloc, object, Word::Key)?,
        })),
        None => Ok(None),
    }
}

// The operator of a part that is an object of its own.
fn part_at(
    alloc: Global,
    row: Row,
    word: Word,
    object: &Value<'_>,
) -> Result<Option<Operation>, AllocError>
    ensures { IfOk result (λ o. option_map operation_of o ≡ part_in row word (data_in object.now)) }
{
    match member(object, word) {
        Some(inner) => {
            if fits(row, inner) {
                operation_at(alloc, inner)
            } else {
                Ok(None)
            }
        }
        None => Ok(Some(plain_operation())),
    }
}

fn length_name_at(alloc: Global, object: &Value<'_>) -> Result<Option<String>, AllocError>
    ensures { IfOk result (λ o. option_map string_bytes o ≡ length_name_in (data_in object.now)) }
{
    match member(object, Word::Length) {
        Some(length) => string_at(alloc, length, Word::Name),
        None => Ok(None),
    }
}

fn field_at(
    alloc: Global,
    kind: Kind,
    object: &Value<'_>,
) -> Result<Option<Instruction>, AllocError>
    ensures { IfOk result (λ o. option_map written_of o ≡ field_in kind (data_in object.now)) }
{
    let Some(presence) = presence_at(object) else {
        return Ok(None);
    };
    match operation_at(alloc, object)? {
        Some(operation) => Ok(Some(Instruction::Field {
            name: name_at(alloc, object)?,
            kind,
            presence,
            operation,
        })),
        None => Ok(None),
    }
}

fn parts_at(alloc: Global, object: &Value<'_>) -> Result<Option<Instruction>, AllocError>
    ensures { IfOk result (λ o. option_map written_of o ≡ parts_in (data_in object.now)) }
{
    if has(object, Word::Operator) || says_more(object) {
        return Ok(None);
    }
    let Some(presence) = presence_at(object) else {
        return Ok(None);
    };
    let Some(exponent) = part_at(alloc, Row::Part, Word::Exponent, object)? else {
        return Ok(None);
    };
    match part_at(alloc, Row::Part, Word::Mantissa, object)? {
        Some(mantissa) => Ok(Some(Instruction::Parts {
            name: name_at(alloc, object)?,
            presence,
            exponent,
            mantissa,
        })),
        None => Ok(None),
    }
}

fn decimal_at(alloc: Global, object: &Value<'_>) -> Result<Option<Instruction>, AllocError>
    ensures { IfOk result (λ o. option_map written_of o ≡ decimal_in (data_in object.now)) }
{
    if has(object, Word::Exponent) || has(object, Word::Mantissa) {
        parts_at(alloc, object)
    } else {
        field_at(alloc, Kind::Decimal, object)
    }
}

fn text_field_at(alloc: Global, object: &Value<'_>) -> Result<Option<Instruction>, AllocError>
    ensures { IfOk result (λ o. option_map written_of o
        ≡ option_and_then (λ k. field_in k (data_in object.now)) (charset_in (data_in object.now))) }
{
    match charset_at(object) {
        Some(kind) => field_at(alloc, kind, object),
        None => Ok(None),
    }
}

// An instruction that has no members.
fn leaf_at(alloc: Global, form: Form, object: &Value<'_>) -> Result<Option<Instruction>, AllocError>
    ensures { IfOk result (λ o. option_map written_of o ≡ leaf_in form (data_in object.now)) }
{
    match form {
        Form::Int32 => field_at(alloc, Kind::Int32, object),
        Form::UInt32 => field_at(alloc, Kind::UInt32, object),
        Form::Int64 => field_at(alloc, Kind::Int64, object),
        Form::UInt64 => field_at(alloc, Kind::UInt64, object),
        Form::Decimal => decimal_at(alloc, object),
        Form::Text => text_field_at(alloc, object),
        Form::Bytes => field_at(alloc, Kind::Bytes, object),
        Form::Reference => Ok(Some(Instruction::Reference {
            name: name_at(alloc, object)?,
        })),
        Form::Group | Form::Sequence => Ok(None),
    }
}

/// The keys that an instruction of a kind has.
pub fn row_of_form(form: Form) -> Row
    ensures { result ≡ row_of_form_of form }
{
    match form {
        Form::Text => Row::Text,
        Form::Decimal => Row::Decimal,
        Form::Group => Row::Group,
        Form::Sequence => Row::Sequence,
        Form::Reference => Row::Reference,
        Form::Int32 | Form::UInt32 | Form::Int64 | Form::UInt64 | Form::Bytes => Row::Field,
    }
}

fn next_number(number: u32) -> u32
    ensures { result ≡ next_number_of number }
{
    number.saturating_add(1)
}

fn group_of(
    alloc: Global,
    object: &Value<'_>,
    presence: Presence,
    members: Vec<Instruction>,
) -> Result<Instruction, AllocError>
    ensures { IfOk result (λ group. written_of group
        ≡ written_group (name_in (data_in object.now)) presence
        (around_in (data_in object.now)) (written_list (map written_of members.items))) }
{
    Ok(Instruction::Group {
        name: name_at(alloc, object)?,
        presence,
        dictionary: string_at(alloc, object, Word::Dictionary)?,
        type_ref: string_at(alloc, object, Word::TypeRef)?,
        members,
    })
}

fn sequence_of(
    alloc: Global,
    object: &Value<'_>,
    presence: Presence,
    length: Operation,
    members: Vec<Instruction>,
) -> Result<Instruction, AllocError>
    ensures { IfOk result (λ sequence. written_of sequence
        ≡ written_sequence (name_in (data_in object.now)) presence
        (around_in (data_in object.now)) (length_name_in (data_in object.now)) (operation_of length)
        (written_list (map written_of members.items))) }
{
    Ok(Instruction::Sequence {
        name: name_at(alloc, object)?,
        presence,
        dictionary: string_at(alloc, object, Word::Dictionary)?,
        type_ref: string_at(alloc, object, Word::TypeRef)?,
        length_name: length_name_at(alloc, object)?,
        length,
        members,
    })
}

#[cycle(reads)]
fn read_group(alloc: Global, object: &Value<'_>, number: u32) -> Result<(Instruction, u32), Unread>
    ensures { ReadsAs written_of result (group_in (data_in object.now) number (members_in
        (data_in object.now) (next_number_of number))) }
{
    let Some(presence) = presence_at(object) else {
        return Err(Unread::At(number));
    };
    let (members, next) = read_members(alloc, object, next_number(number))?;
    let group = group_of(alloc, object, presence, members)?;
    Ok((group, next))
}

#[cycle(reads)]
fn read_sequence(
    alloc: Global,
    object: &Value<'_>,
    number: u32,
) -> Result<(Instruction, u32), Unread>
    ensures { ReadsAs written_of result (sequence_in (data_in object.now) number (members_in
        (data_in object.now) (next_number_of number))) }
{
    let Some(presence) = presence_at(object) else {
        return Err(Unread::At(number));
    };
    let Some(length) = part_at(alloc, Row::Length, Word::Length, object)? else {
        return Err(Unread::At(number));
    };
    let (members, next) = read_members(alloc, object, next_number(number))?;
    let sequence = sequence_of(alloc, object, presence, length, members)?;
    Ok((sequence, next))
}

#[cycle(reads)]
fn read_one(alloc: Global, value: &Value<'_>, number: u32) -> Result<(Instruction, u32), Unread>
    ensures { ReadsAs written_of result (one_of (data_in value.now) number (members_in
        (data_in value.now) (next_number_of number))) }
{
    let Some(form) = form_at(value) else {
        return Err(Unread::At(number));
    };
    if !fits(row_of_form(form), value) {
        return Err(Unread::At(number));
    }
    match form {
        Form::Group => read_group(alloc, value, number),
        Form::Sequence => read_sequence(alloc, value, number),
        form => match leaf_at(alloc, form, value)? {
            Some(instruction) => Ok((instruction, next_number(number))),
            None => Err(Unread::At(number)),
        },
    }
}

// The instructions that stand in an object, numbered from one on, and the number after them.
#[cycle(reads)]
fn read_members(
    alloc: Global,
    object: &Value<'_>,
    number: u32,
) -> Result<(Vec<Instruction>, u32), Unread>
    ensures { ReadsAs (λ instructions. written_list (map written_of instructions.items)) result
        (members_in (data_in object.now) number) }
{
    match member(object, Word::Instructions) {
        Some(list) => read_all(alloc, list, number),
        None => Ok((Vec::new(alloc), number)),
    }
}

#[cycle(reads)]
fn read_all(alloc: Global, list: &Value<'_>, number: u32) -> Result<(Vec<Instruction>, u32), Unread>
    ensures { ReadsAs (λ instructions. written_list (map written_of instructions.items)) result
        (read_all_of (data_in list.now) number) }
{
    match list {
        Value::Array(values) => read_values(alloc, values, number),
        _ => Ok((Vec::new(alloc), number)),
    }
}

// How much room a list of a text is given at once: as much as it needs, or the most that a set may have.
fn room_for(values: &[Value<'_>]) -> usize
    ensures { result ≡ min (length values.now) 65535 }
{
    values.len().min(65_535)
}

#[cycle(reads)]
fn read_values(
    alloc: Global,
    values: &[Value<'_>],
    number: u32,
) -> Result<(Vec<Instruction>, u32), Unread>
    ensures { ReadsAs (λ instructions. written_list (map written_of instructions.items)) result
        (read_items (items_in values.now) number) }
{
    let mut instructions = Vec::with_capacity(alloc, room_for(values))?;
    let mut next = number;
    for value in values {
        let (instruction, following) = read_one(alloc, value, next)?;
        instructions.push(instruction).map_err(AllocError::from)?;
        next = following;
    }
    Ok((instructions, next))
}

fn id_at(object: &Value<'_>) -> Option<u32>
    ensures { result ≡ id_in (data_in object.now) }
{
    match member(object, Word::Id).and_then(whole_number) {
        Some(id) if id < IDENTIFIERS => Some(id as u32),
        _ => None,
    }
}

// The dictionary of a template, or else that of the text.
fn dictionary_or(
    alloc: Global,
    object: &Value<'_>,
    default: Option<&str>,
) -> Result<Option<String>, AllocError>
    ensures { IfOk result (λ o. option_map string_bytes o
        ≡ option_or (text_at_of word_variants.Dictionary (data_in object.now)) (option_map
        (λ s. s.now) default.entry)) }
{
    match text_at(object, Word::Dictionary).or(default) {
        Some(name) => Ok(Some(String::from_str(alloc, name)?)),
        None => Ok(None),
    }
}

fn template_of(
    alloc: Global,
    object: &Value<'_>,
    default: Option<&str>,
    members: Vec<Instruction>,
) -> Result<Template, AllocError>
    ensures { IfOk result (λ template. written_template_of template
        ≡ template_with (option_map (λ s. s.now) default.entry)
        (data_in object.now) (written_list (map written_of members.items))) }
{
    Ok(Template {
        name: name_at(alloc, object)?,
        id: id_at(object),
        dictionary: dictionary_or(alloc, object, default)?,
        type_ref: string_at(alloc, object, Word::TypeRef)?,
        members,
    })
}

fn read_template(
    alloc: Global,
    value: &Value<'_>,
    default: Option<&str>,
) -> Result<Template, Unread>
    ensures { ReadsTemplate result (read_template_of (option_map (λ s. s.now) default.entry)
        (data_in value.now)) }
{
    if !fits(Row::Template, value) {
        return Err(Unread::At(0));
    }
    let (members, _) = read_members(alloc, value, 1)?;
    Ok(template_of(alloc, value, default, members)?)
}

// The fault of a template that was not read.
fn fault_in(unread: Unread, place: u32) -> LoadFault
    ensures { result ≡ fault_of_unread unread place }
{
    match unread {
        Unread::At(number) => fault_at(LoadCause::S1, place, number),
        Unread::Memory => want_of_memory(),
    }
}

fn read_templates(
    alloc: Global,
    values: &[Value<'_>],
    default: Option<&str>,
) -> Result<Vec<Template>, LoadFault>
    ensures { ReadsTemplates result
        (read_templates_of (option_map (λ s. s.now) default.entry) (items_in values.now) 1) }
{
    let Ok(mut templates) = Vec::with_capacity(alloc, room_for(values)) else {
        return Err(want_of_memory());
    };
    let mut place: u32 = 1;
    for value in values {
        let template = match read_template(alloc, value, default) {
            Ok(template) => template,
            Err(unread) => return Err(fault_in(unread, place)),
        };
        if templates.push(template).is_err() {
            return Err(want_of_memory());
        }
        place = next_number(place);
    }
    Ok(templates)
}

fn read_list(
    alloc: Global,
    list: Option<&Value<'_>>,
    default: Option<&str>,
) -> Result<Vec<Template>, LoadFault>
    ensures { ReadsTemplates result
        (templates_under (option_map (λ s. s.now) default.entry) (option_map
        (λ v. data_in v.now) list.entry)) }
{
    match list {
        Some(Value::Array(values)) => read_templates(alloc, values, default),
        _ => Err(fault_at(LoadCause::S1, 0, 0)),
    }
}

/// The templates that the data of a template text's JSON stands for.
///
/// # Errors
///
/// S1 with its place, where the shape of the text, of a template or of an instruction is at fault; or want of memory.
pub fn templates_in_data(alloc: Global, data: &Value<'_>) -> Result<Vec<Template>, LoadFault>
    ensures { ReadsTemplates result (templates_of (data_in data.now)) }
{
    if !fits(Row::Top, data) {
        return Err(fault_at(LoadCause::S1, 0, 0));
    }
    let default = text_at(data, Word::Dictionary);
    if !is_name_or_none(default) {
        return Err(fault_at(LoadCause::S1, 0, 0));
    }
    read_list(alloc, member(data, Word::Templates), default)
}

fn is_name_or_none(name: Option<&str>) -> bool
    ensures { result ≡ list_all is_name_of (option_to_list (option_map (λ s. s.now) name.entry)) }
{
    match name {
        Some(name) => is_name(name),
        None => true,
    }
}
