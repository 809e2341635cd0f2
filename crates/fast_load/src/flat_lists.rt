//! Lists of instructions whose references are replaced.

ghost use Rattle.std.specs.Prelude.{◌≡◌, ◌≤◌, ◌∷◌, [], IfOk, OnOk, OnErr, drop, length, map, option_map, string_bytes};
ghost use Rattle.fast_load.specs.FlatLists.{exponent_part, field_part, flat_list, flat_one, length_key, length_part, mantissa_part};
ghost use Rattle.fast_load.specs.Initials.{AreInitials, Leads, initial_in, initials_in, initials_in_one};
ghost use Rattle.fast_load.specs.Links.{AreLinks, IsBuildOrder, references_in, references_in_one};
ghost use Rattle.fast_load.specs.NamedLists.{AreFlattened, heading, heading_of, list_at, list_named, place_among};
ghost use Rattle.fast_load.specs.Phases.{Passes};
ghost use Rattle.fast_template.specs.Resolved.{field_in_parts, group_of, instruction_of, joined, list_of, sequence_of, whole_field};
ghost use Rattle.fast_load.specs.Surroundings.{context_in};
ghost use Rattle.fast_value.specs.declared.kind.Kind.TheVariants.{Int32, Int64, UInt32};
ghost use Rattle.fast_value.specs.declared.kind.Part.TheVariants.{Exponent, Length, Mantissa, Whole};
ghost use Rattle.fast_written.specs.Written.{operation_of, written_list, written_of, written_template_of};

use crate::checks::Checked;
use crate::initials::{Initials, copied};
use crate::links::Links;
use crate::surroundings::{Around, directly_in, inside, key_of, part_of};
use fast_template::{FieldPart, Flat, FlatTemplate, Initial};
use fast_value::{Key, Kind, Name, Part, Presence};
use fast_written::{Instruction, Operation, Template};
use std::alloc::{AllocError, Global};

/// The templates as written, each with its flat list: keys have no slot yet, and instructions no
/// number.
///
/// # Errors
///
/// Where memory is refused.
pub(crate) fn flat_templates(
    alloc: Global,
    templates: &[Template],
    checked: &Checked,
    order: &[usize],
) -> Result<Vec<FlatTemplate>, AllocError>
    requires few { length templates.now ≤ 65535 }
    requires known { Passes (map written_template_of templates.now) 4 }
    requires linked { AreLinks templates.now checked.now.links.items }
    requires initials { AreInitials templates.now checked.now.initials.items }
    requires in_order { IsBuildOrder (map written_template_of templates.now) order.now }
    ensures { IfOk result (λ flats. AreFlattened
        (map written_template_of templates.now) flats.items) }
{
    let mut flats = without_members(alloc, templates)?;
    for place in order {
        let template = &templates[*place];
        let mut members = Vec::with_capacity(alloc, template.members.len())?;
        let around = directly_in(template, *place as u32 + 1);
        let mut links = Links {
            rest: &checked.links[*place],
        };
        let mut initials = Initials {
            rest: &checked.initials[*place],
        };
        append_all(
            &template.members,
            around,
            &flats,
            &mut links,
            &mut initials,
            alloc,
            &mut members,
        )?;
        flats[*place].members = members;
    }
    Ok(flats)
}

// The names and identifiers of templates.
fn without_members(alloc: Global, templates: &[Template]) -> Result<Vec<FlatTemplate>, AllocError>
    ensures { IfOk result (λ flats. map heading_of flats.items
        ≡ map (λ t. heading (written_template_of t)) templates.now) }
{
    let mut flats = Vec::with_capacity(alloc, templates.len())?;
    for template in templates {
        let name = Name::of(alloc, &template.name)?;
        flats.push(FlatTemplate {
            id: template.id,
            name,
            members: Vec::new(alloc),
        })?;
    }
    Ok(flats)
}

/// Appends instructions with each reference replaced by the list that stands for its name.
///
/// # Errors
///
/// Where memory is refused.
#[cycle(appends)]
#[tactic(auto, using(crate::proofs::KeptLaws::leads_member, crate::proofs::KeptLaws::linked_member))]
pub(crate) fn append_all(
    members: &[Instruction],
    around: Around<'_>,
    lists: &[FlatTemplate],
    links: &mut Links<'_>,
    initials: &mut Initials<'_>,
    alloc: Global,
    flats: &mut Vec<Flat>,
) -> Result<(), AllocError>
    requires linked { Leads (map (place_among lists.now) (references_in (written_list
        (map written_of members.now)))) links.old.rest.now }
    requires led { Leads (initials_in (written_list (map written_of members.now)))
        initials.old.rest.now }
    ensures appended { OnOk result (list_of flats.new.items ≡ joined (list_of flats.old.items)
        (flat_list (list_named lists.now) (context_in around.entry) (written_list
        (map written_of members.now)))) }
    ensures links { OnOk result (links.new.rest.now ≡ drop (length (references_in (written_list
        (map written_of members.now)))) links.old.rest.now) }
    ensures rest { OnOk result (initials.new.rest.now ≡ drop (length (initials_in (written_list
        (map written_of members.now)))) initials.old.rest.now) }
{
    for member in members {
        append_one(member, around, lists, links, initials, alloc, flats)?;
    }
    Ok(())
}

#[cycle(appends)]
#[tactic(auto, using(crate::proofs::FlatLaws::list_of_push))]
fn append_one(
    member: &Instruction,
    around: Around<'_>,
    lists: &[FlatTemplate],
    links: &mut Links<'_>,
    initials: &mut Initials<'_>,
    alloc: Global,
    flats: &mut Vec<Flat>,
) -> Result<(), AllocError>
    requires linked { Leads (map (place_among lists.now)
        (references_in_one (written_of member.now))) links.old.rest.now }
    requires led { Leads (initials_in_one (written_of member.now)) initials.old.rest.now }
    ensures appended { OnOk result (list_of flats.new.items ≡ joined (list_of flats.old.items)
        (flat_one (list_named lists.now) (context_in around.entry)
        (written_of member.now))) }
    ensures links { OnOk result (links.new.rest.now
        ≡ drop (length (references_in_one (written_of member.now))) links.old.rest.now) }
    ensures rest { OnOk result (initials.new.rest.now
        ≡ drop (length (initials_in_one (written_of member.now))) initials.old.rest.now) }
{
    match member {
        Instruction::Field {
            name,
            kind,
            presence,
            operation,
        } => {
            let initial = initials.take_next()?;
            let field = field_flat(alloc, around, name, *kind, *presence, operation, initial)?;
            flats.push(field)?;
            Ok(())
        }
        Instruction::Parts {
            name,
            presence,
            exponent,
            mantissa,
        } => {
            let parts = parts_flat(alloc, around, name, *presence, exponent, mantissa, initials)?;
            flats.push(parts)?;
            Ok(())
        }
        Instruction::Group {
            name,
            presence,
            dictionary,
            type_ref,
            members,
        } => {
            let around = inside(around, dictionary, type_ref);
            let mut inner = Vec::with_capacity(alloc, members.len())?;
            append_all(members, around, lists, links, initials, alloc, &mut inner)?;
            let group = group_flat(alloc, name, *presence, inner)?;
            flats.push(group)?;
            Ok(())
        }
        Instruction::Sequence {
            name,
            presence,
            dictionary,
            type_ref,
            length_name,
            length,
            members,
        } => {
            let around = inside(around, dictionary, type_ref);
            let initial = initials.take_next()?;
            let length = length_of(alloc, around, name, *presence, length_name, length, initial)?;
            let mut inner = Vec::with_capacity(alloc, members.len())?;
            append_all(members, around, lists, links, initials, alloc, &mut inner)?;
            let sequence = sequence_flat(alloc, name, *presence, length, inner)?;
            flats.push(sequence)?;
            Ok(())
        }
        Instruction::Reference { .. } => append_placed(links.take_next(), lists, alloc, flats),
    }
}

// Appends the list at a place.
fn append_placed(
    place: usize,
    lists: &[FlatTemplate],
    alloc: Global,
    flats: &mut Vec<Flat>,
) -> Result<(), AllocError>
    ensures { OnOk result (list_of flats.new.items ≡ joined (list_of flats.old.items)
        (list_at lists.now place)) }
{
    match lists.get(place) {
        Some(template) => append_copies(&template.members, alloc, flats),
        None => Ok(()),
    }
}

#[tactic(auto, using(crate::proofs::FlatLaws::list_of_append))]
fn append_copies(list: &[Flat], alloc: Global, flats: &mut Vec<Flat>) -> Result<(), AllocError>
    ensures added { OnOk result (list_of flats.new.items ≡ joined (list_of flats.old.items)
        (list_of list.now)) }
    ensures unchanged { OnErr result (flats.new.items ≡ flats.old.items) }
{
    let mut copies = copy_all(list, alloc)?;
    flats.append(&mut copies)?;
    Ok(())
}

fn field_flat(
    alloc: Global,
    around: Around<'_>,
    name: &str,
    kind: Kind,
    presence: Presence,
    operation: &Operation,
    initial: Option<Initial>,
) -> Result<Flat, AllocError>
    requires { initial ≡ initial_in Whole kind (operation_of operation.now) }
    ensures { IfOk result (λ flat. instruction_of flat ≡ whole_field name.now 0 presence
        (field_part (context_in around.entry) name.now kind presence
        (operation_of operation.now))) }
{
    let name = Name::of(alloc, name)?;
    let key = key_of(alloc, around, operation, &name, Part::Whole)?;
    Ok(Flat::Field {
        name,
        number: 0,
        presence,
        whole: part_of(Part::Whole, kind, presence, operation, key, initial),
    })
}

fn parts_flat(
    alloc: Global,
    around: Around<'_>,
    name: &str,
    presence: Presence,
    exponent: &Operation,
    mantissa: &Operation,
    initials: &mut Initials<'_>,
) -> Result<Flat, AllocError>
    requires { Leads (initial_in Exponent Int32 (operation_of exponent.now)
        ∷ initial_in Mantissa Int64 (operation_of mantissa.now) ∷ []) initials.old.rest.now }
    ensures rest { OnOk result (initials.new.rest.now ≡ drop 2 initials.old.rest.now) }
    ensures made { IfOk result (λ flat. instruction_of flat ≡ field_in_parts name.now 0 presence
        (exponent_part (context_in around.entry) name.now presence (operation_of exponent.now))
        (mantissa_part (context_in around.entry) name.now (operation_of mantissa.now))) }
{
    let name = Name::of(alloc, name)?;
    let exponent_key = key_of(alloc, around, exponent, &name, Part::Exponent)?;
    let exponent_initial = initials.take_next()?;
    let mantissa_key = key_of(alloc, around, mantissa, &name, Part::Mantissa)?;
    let mantissa_initial = initials.take_next()?;
    Ok(Flat::Parts {
        name,
        number: 0,
        presence,
        exponent: part_of(
            Part::Exponent,
            Kind::Int32,
            presence,
            exponent,
            exponent_key,
            exponent_initial,
        ),
        mantissa: part_of(
            Part::Mantissa,
            Kind::Int64,
            Presence::Mandatory,
            mantissa,
            mantissa_key,
            mantissa_initial,
        ),
    })
}

fn group_flat(
    alloc: Global,
    name: &str,
    presence: Presence,
    members: Vec<Flat>,
) -> Result<Flat, AllocError>
    ensures { IfOk result (λ flat. instruction_of flat ≡ group_of name.now 0 presence
        (list_of members.items)) }
{
    Ok(Flat::Group {
        name: Name::of(alloc, name)?,
        number: 0,
        presence,
        members,
    })
}

fn sequence_flat(
    alloc: Global,
    name: &str,
    presence: Presence,
    length: FieldPart,
    members: Vec<Flat>,
) -> Result<Flat, AllocError>
    ensures { IfOk result (λ flat. instruction_of flat ≡ sequence_of name.now 0 presence length
        (list_of members.items)) }
{
    Ok(Flat::Sequence {
        name: Name::of(alloc, name)?,
        number: 0,
        presence,
        length,
        members,
    })
}

// The length of a sequence, inside it.
fn length_of(
    alloc: Global,
    around: Around<'_>,
    name: &str,
    presence: Presence,
    length_name: &Option<String>,
    operation: &Operation,
    initial: Option<Initial>,
) -> Result<FieldPart, AllocError>
    requires { initial ≡ initial_in Length UInt32 (operation_of operation.now) }
    ensures { IfOk result (λ made. made ≡ length_part (context_in around.entry) name.now presence
        (option_map string_bytes length_name.now) (operation_of operation.now)) }
{
    let key = key_of_length(alloc, around, name, length_name, operation)?;
    Ok(part_of(
        Part::Length,
        Kind::UInt32,
        presence,
        operation,
        key,
        initial,
    ))
}

fn key_of_length(
    alloc: Global,
    around: Around<'_>,
    name: &str,
    length_name: &Option<String>,
    operation: &Operation,
) -> Result<Key, AllocError>
    ensures { IfOk result (λ key. key ≡ length_key (context_in around.entry) name.now
        (option_map string_bytes length_name.now) (operation_of operation.now)) }
{
    match length_name {
        Some(length_name) => {
            let length_name = Name::of(alloc, length_name)?;
            key_of(alloc, around, operation, &length_name, Part::Whole)
        }
        None => {
            let name = Name::of(alloc, name)?;
            key_of(alloc, around, operation, &name, Part::Length)
        }
    }
}

// The same part once more, of the same names and initial value.
fn copy_part(part: &FieldPart) -> Result<FieldPart, AllocError>
    ensures { IfOk result (λ other. other ≡ part.now) }
{
    Ok(FieldPart {
        number: part.number,
        part: part.part,
        kind: part.kind,
        presence: part.presence,
        operator: part.operator,
        key: part.key.copy()?,
        initial: copied(&part.initial)?,
    })
}

// The same instruction once more, with its members.
#[cycle(copies)]
fn copy_one(flat: &Flat, alloc: Global) -> Result<Flat, AllocError>
    ensures { IfOk result (λ other. instruction_of other ≡ instruction_of flat.now) }
{
    match flat {
        Flat::Field {
            name,
            number,
            presence,
            whole,
        } => Ok(Flat::Field {
            name: name.copy()?,
            number: *number,
            presence: *presence,
            whole: copy_part(whole)?,
        }),
        Flat::Parts {
            name,
            number,
            presence,
            exponent,
            mantissa,
        } => Ok(Flat::Parts {
            name: name.copy()?,
            number: *number,
            presence: *presence,
            exponent: copy_part(exponent)?,
            mantissa: copy_part(mantissa)?,
        }),
        Flat::Group {
            name,
            number,
            presence,
            members,
        } => Ok(Flat::Group {
            name: name.copy()?,
            number: *number,
            presence: *presence,
            members: copy_all(members, alloc)?,
        }),
        Flat::Sequence {
            name,
            number,
            presence,
            length,
            members,
        } => Ok(Flat::Sequence {
            name: name.copy()?,
            number: *number,
            presence: *presence,
            length: copy_part(length)?,
            members: copy_all(members, alloc)?,
        }),
    }
}

// The same instructions once more.
#[cycle(copies)]
fn copy_all(flats: &[Flat], alloc: Global) -> Result<Vec<Flat>, AllocError>
    ensures { IfOk result (λ others. map instruction_of others.items
        ≡ map instruction_of flats.now) }
{
    let mut others = Vec::with_capacity(alloc, flats.len())?;
    for flat in flats {
        others.push(copy_one(flat, alloc)?)?;
    }
    Ok(others)
}
