//! The head of a line: which template it names.

ghost use Rattle.std.specs.Prelude.{◌≡◌, ◌≢◌, ◌≤◌, ◌++◌, ◌&&◌, ◌⊎◌, Some, codes, IfOk, MatchOption, MatchResult, List, None, Option, find, is_some, length, option_and_then, option_map};
ghost use Rattle.std.specs.Str.{bytes_eq};
ghost use Rattle.json.specs.Json.{Json, Members, member, number, object, string};
ghost use Rattle.json.specs.Token.{Token as SpecToken};
ghost use Rattle.json.specs.Tree.{depth, json_tokens, members_tokens};
ghost use Rattle.fast_template.specs.TemplateSets.{TemplateList};
ghost use Rattle.fast_value.specs.InitialValues.{value_of_text as value_of_text_of};
ghost use Rattle.fast_value.specs.declared.kind.Part.TheVariants.{Whole};
ghost use Rattle.fast_value.specs.declared.kind.Kind.TheVariants.{UInt32};
ghost use Rattle.fast_spelled.specs.declared.head.Said.TheVariants.{Nothing};
ghost use Rattle.fast_spelled.specs.Heads.{HasSeen, IsHead, IsNoPart, StandsForNone, TakesPart, message_after, message_of_head, name_of_part, said, there};
ghost use Rattle.fast_spelled.specs.Numbered.{packet_by};
ghost use Rattle.fast_spelled.specs.Spelled.{is_named, of_id, template_by};

use crate::fault::{LineCause, LineFault};
use fast_template::{FlatTemplate, Kind, Part, Scalar, TemplateSet};
use fast_value::value_of_text;
use json::{MAX_DEPTH, Reader, Token};
use std::alloc::{AllocError, Global};

/// A fault of the head, where the reader stands.
pub(crate) fn fault(cause: LineCause, reader: &Reader<'_>) -> LineFault
    ensures { result.cause ≡ cause }
{
    LineFault {
        cause,
        template: 0,
        instruction: 0,
        column: reader.offset(),
    }
}

/// What a member of a line says that has a text or is null.
#[derive(Clone, Copy)]
pub(crate) enum Said<'a> {
    Nothing,
    Null,
    Text(&'a str),
}

/// What the members of a line say, as far as it is read.
#[derive(Clone, Copy)]
pub(crate) struct Head<'a> {
    /// The name of its template.
    name: Said<'a>,
    /// The digits of its template's identifier.
    id: Said<'a>,
    has_fields: bool,
}

/// The members that a line has.
#[derive(Clone, Copy)]
enum LinePart {
    Template,
    Id,
    Fields,
}

/// The member of a name.
fn part_of(name: &str) -> Option<LinePart>
    ensures { MatchOption result (IsNoPart name.now) (λ part. name.now ≡ name_of_part part) }
{
    if name == "template" {
        return Some(LinePart::Template);
    }
    if name == "id" {
        return Some(LinePart::Id);
    }
    if name == "fields" {
        return Some(LinePart::Fields);
    }
    None
}

/// Reads the name of a template, or null.
fn read_name<'a>(reader: &mut Reader<'a>) -> Result<Said<'a>, LineFault>
    ensures shorter { length reader.new ≤ length reader.old }
    ensures read { (j : Json) (rest : List SpecToken) → reader.old ≡ json_tokens j ++ rest → MatchResult result
        (λ name. (there string name ≡ Some j) × (reader.new ≡ rest))
        (λ f. (set : TemplateList) (id : Json) → template_by set j id ≡ None) }
{
    match reader.next() {
        Some(Token::String(name)) => Ok(Said::Text(name)),
        Some(Token::Null) => Ok(Said::Null),
        _ => Err(fault(LineCause::Line, reader)),
    }
}

/// Reads the digits of an identifier, or null.
fn read_id<'a>(reader: &mut Reader<'a>) -> Result<Said<'a>, LineFault>
    ensures shorter { length reader.new ≤ length reader.old }
    ensures read { (j : Json) (rest : List SpecToken) → reader.old ≡ json_tokens j ++ rest → MatchResult result
        (λ id. (there number id ≡ Some j) × (reader.new ≡ rest))
        (λ f. (set : TemplateList) (name : Json) → template_by set name j ≡ None) }
{
    match reader.next() {
        Some(Token::Number(digits)) => Ok(Said::Text(digits)),
        Some(Token::Null) => Ok(Said::Null),
        _ => Err(fault(LineCause::Line, reader)),
    }
}

/// Reads the brace that opens an object.
pub(crate) fn open_object(reader: &mut Reader<'_>) -> Result<(), LineFault>
    ensures shorter { length reader.new ≤ length reader.old }
    ensures read { (j : Json) (rest : List SpecToken) → reader.old ≡ json_tokens j ++ rest → MatchResult result
        (λ _. (ms : Members) × (j ≡ object ms) × (reader.new ≡ members_tokens ms ++ rest))
        (λ f. (ms : Members) → j ≡ object ms → ⊥) }
{
    match reader.next() {
        Some(Token::BeginObject) => Ok(()),
        _ => Err(fault(LineCause::Line, reader)),
    }
}

/// Passes over a value, which is known to be JSON.
pub(crate) fn pass(reader: &mut Reader<'_>) -> Result<(), LineFault>
    ensures shorter { length reader.new ≤ length reader.old }
    ensures read { (j : Json) (rest : List SpecToken) → depth j ≤ 127 → reader.old ≡ json_tokens j ++ rest
        → MatchResult result (λ _. reader.new ≡ rest) (λ _. ⊥) }
{
    match reader.skip_value(MAX_DEPTH) {
        Ok(()) => Ok(()),
        Err(_) => Err(fault(LineCause::Json, reader)),
    }
}

/// Reads a member of a line behind its name.
fn with_member<'a>(
    reader: &mut Reader<'a>,
    part: LinePart,
    head: Head<'a>,
) -> Result<Head<'a>, LineFault>
    ensures shorter { length reader.new ≤ length reader.old }
    ensures read { (fields : Option Json) (j : Json) (rest : List SpecToken) → HasSeen head.entry fields → depth j ≤ 127
        → reader.old ≡ json_tokens j ++ rest → MatchResult result
        (λ next. TakesPart part head.entry fields j next × (reader.new ≡ rest))
        (λ f. (set : TemplateList) (ms : Members)
        → message_after set head.entry fields (member (name_of_part part) j ms) ≡ None) }
{
    match part {
        LinePart::Template => match head.name {
            Said::Nothing => match read_name(reader) {
                Ok(name) => Ok(Head { name, ..head }),
                Err(fault) => Err(fault),
            },
            Said::Null | Said::Text(_) => Err(fault(LineCause::Line, reader)),
        },
        LinePart::Id => match head.id {
            Said::Nothing => match read_id(reader) {
                Ok(id) => Ok(Head { id, ..head }),
                Err(fault) => Err(fault),
            },
            Said::Null | Said::Text(_) => Err(fault(LineCause::Line, reader)),
        },
        LinePart::Fields => {
            if head.has_fields {
                return Err(fault(LineCause::Line, reader));
            }
            match pass(reader) {
                Ok(()) => Ok(Head {
                    has_fields: true,
                    ..head
                }),
                Err(fault) => Err(fault),
            }
        }
    }
}

/// What the members of a line say before its fields are read.
#[derive(Clone, Copy)]
pub(crate) struct LineHead<'a> {
    pub(crate) head: Head<'a>,
    /// The digits of its packet's number.
    pub(crate) packet: Said<'a>,
}

/// Whether a member says which packet a line is of, where lines say that.
fn is_packet(packets: bool, name: &str) -> bool
    ensures { result ≡ (packets && bytes_eq name.now (codes "packet")) }
{
    packets && name == "packet"
}

/// Reads the digits of a packet's number, which stands in a line once.
fn read_packet<'a>(reader: &mut Reader<'a>, before: Said<'a>) -> Result<Said<'a>, LineFault>
    ensures shorter { length reader.new ≤ length reader.old }
    ensures read { (j : Json) (rest : List SpecToken) → reader.old ≡ json_tokens j ++ rest → MatchResult result
        (λ packet. (before.entry ≡ Nothing) × (there number packet ≡ Some j) × (reader.new ≡ rest))
        (λ f. before.entry ≡ Nothing → packet_by j ≡ None) }
{
    match before {
        Said::Nothing => match reader.next() {
            Some(Token::Number(digits)) => Ok(Said::Text(digits)),
            _ => Err(fault(LineCause::Line, reader)),
        },
        Said::Null | Said::Text(_) => Err(fault(LineCause::Line, reader)),
    }
}

/// Reads a line to its end for what its members say, of which one is its packet or none. It is JSON.
pub(crate) fn read_head<'a>(
    reader: &mut Reader<'a>,
    packets: bool,
) -> Result<LineHead<'a>, LineFault>
    ensures { (j : Json) → depth j ≤ 128 → reader.old ≡ json_tokens j → MatchResult result
        (λ line. IsHead packets j line)
        (λ f. (set : TemplateList) → StandsForNone packets set j) }
{
    match open_object(reader) {
        Ok(()) => {}
        Err(fault) => return Err(fault),
    }
    let mut packet = Said::Nothing;
    let mut head = Head {
        name: Said::Nothing,
        id: Said::Nothing,
        has_fields: false,
    };
    loop {
        let name = match reader.next_key() {
            Ok(Some(name)) => name,
            Ok(None) => break,
            Err(_) => return Err(fault(LineCause::Json, reader)),
        };
        if is_packet(packets, name) {
            packet = match read_packet(reader, packet) {
                Ok(packet) => packet,
                Err(fault) => return Err(fault),
            };
            continue;
        }
        let part = match part_of(name) {
            Some(part) => part,
            None => return Err(fault(LineCause::Line, reader)),
        };
        head = match with_member(reader, part, head) {
            Ok(head) => head,
            Err(fault) => return Err(fault),
        };
    }
    if !head.has_fields {
        return Err(fault(LineCause::Line, reader));
    }
    Ok(LineHead { head, packet })
}

/// Why a head names no template.
fn why_none(head: Head<'_>) -> LineCause {
    match (head.name, head.id) {
        (Said::Text(_), _) | (_, Said::Text(_)) => LineCause::D9,
        (_, _) => LineCause::Line,
    }
}

/// The template of a name.
fn named<'s>(set: &'s TemplateSet, name: &str) -> Option<&'s FlatTemplate>
    ensures { option_map (λ t. t.now) result ≡ find (is_named name.now) set.now.templates }
{
    set.templates()
        .iter()
        .find(|template| template.name.as_str() == name)
}

/// The template of an identifier's digits.
///
/// # Errors
///
/// Where memory is refused.
fn of_digits<'s>(
    alloc: Global,
    set: &'s TemplateSet,
    digits: &str,
) -> Result<Option<&'s FlatTemplate>, AllocError>
    ensures { IfOk result (λ found. option_map (λ t. t.now) found
        ≡ of_id set.now (value_of_text_of Whole UInt32 digits.now)) }
{
    match value_of_text(alloc, Part::Whole, Kind::UInt32, digits)? {
        Some(Scalar::U32(id)) => Ok(set.find(id)),
        _ => Ok(None),
    }
}

/// The template that a head names, if there is one.
///
/// # Errors
///
/// Where memory is refused.
fn template_of<'s>(
    alloc: Global,
    set: &'s TemplateSet,
    head: Head<'_>,
) -> Result<Option<&'s FlatTemplate>, AllocError>
    ensures { IfOk result (λ found. option_map (λ t. t.now) found
        ≡ template_by set.now (said string head.entry.name) (said number head.entry.id)) }
{
    match (head.name, head.id) {
        (Said::Text(name), Said::Text(digits)) => match of_digits(alloc, set, digits)? {
            Some(template) if template.name.as_str() == name => Ok(Some(template)),
            _ => Ok(None),
        },
        (Said::Text(name), _) => Ok(named(set, name)),
        (_, Said::Text(digits)) => of_digits(alloc, set, digits),
        (_, _) => Ok(None),
    }
}

/// The template that a head names, with its identifier.
pub(crate) fn template_for<'s>(
    alloc: Global,
    set: &'s TemplateSet,
    head: Head<'_>,
    reader: &Reader<'_>,
) -> Result<(&'s FlatTemplate, u32), LineFault>
    ensures { MatchResult result
        (λ x. (template_by set.now (said string head.entry.name) (said number head.entry.id) ≡ Some x.0.now)
        × (x.0.now.id ≡ Some x.1))
        (λ f. (f.cause ≡ LineCause.Memory)
        ⊎ ((fields : Json) → message_of_head set.now head.entry fields ≡ None)) }
{
    match template_of(alloc, set, head)? {
        Some(template) => match template.id {
            Some(id) => Ok((template, id)),
            None => Err(fault(LineCause::D9, reader)),
        },
        None => Err(fault(why_none(head), reader)),
    }
}

/// The number of a packet that its digits are: from 1 on.
///
/// # Errors
///
/// Where memory is refused.
pub(crate) fn number_of(alloc: Global, packet: Said<'_>) -> Result<Option<u64>, AllocError>
    ensures { IfOk result (λ n. n ≡ packet_by (said number packet.entry)) }
{
    match packet {
        Said::Text(digits) => match value_of_text(alloc, Part::Whole, Kind::UInt64, digits)? {
            Some(Scalar::U64(number)) if number > 0 => Ok(Some(number)),
            _ => Ok(None),
        },
        Said::Nothing | Said::Null => Ok(None),
    }
}
