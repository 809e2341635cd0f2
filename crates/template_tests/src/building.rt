//! Templates that are built. A row describes them in constants, and what takes memory is made of it in a function for
//! each kind of thing.

use crate::base::*;
use crate::loads::Wanted::{Fault, Loaded};
use crate::loads::answers;
use fast_build::LoadCause::{
    Cycle, D8, DuplicateId, DuplicateName, S1, S2, S3, S4, S5, TooDeep, TooMany,
};
use fast_build::{Instruction, Operation, Template};
use fast_template::FlatTemplate;

fn text(alloc: Global, given: Option<&str>) -> Tried<Option<String>> {
    match given {
        Some(given) => Ok(Some(String::from_str(alloc, given)?)),
        None => Ok(None),
    }
}

type Text<'a> = Option<&'a str>;

fn operation(alloc: Global, operator: Operator, first: Text, within: Text) -> Tried<Operation> {
    let mut operation = plainly(operator);
    operation.initial = text(alloc, first)?;
    operation.dictionary = text(alloc, within)?;
    Ok(operation)
}

// A field of a row.
#[derive(Clone, Copy)]
pub(crate) struct Field<'a> {
    pub(crate) name: &'a str,
    pub(crate) kind: Kind,
    pub(crate) presence: Presence,
    pub(crate) operator: Operator,
    pub(crate) initial: Option<&'a str>,
    pub(crate) dictionary: Option<&'a str>,
}

pub(crate) const PLAIN: Field = Field {
    name: "F",
    kind: Kind::UInt32,
    presence: Presence::Mandatory,
    operator: Operator::Plain,
    initial: None,
    dictionary: None,
};

impl Field<'_> {
    fn instruction(&self, alloc: Global) -> Tried<Instruction> {
        let operation = operation(alloc, self.operator, self.initial, self.dictionary)?;
        Ok(Instruction::Field {
            name: String::from_str(alloc, self.name)?,
            kind: self.kind,
            presence: self.presence,
            operation,
        })
    }
}

// An operation that takes no memory.
fn plainly(operator: Operator) -> Operation {
    Operation {
        operator,
        initial: None,
        dictionary: None,
        key: None,
    }
}

// A decimal with this text beside its exponent, and a mantissa that no operator applies to.
fn decimal(alloc: Global, exponent: &str) -> Tried<Instruction> {
    let exponent = operation(alloc, Operator::Copy, Some(exponent), None)?;
    Ok(Instruction::Parts {
        name: String::from_str(alloc, "P")?,
        presence: Presence::Mandatory,
        exponent,
        mantissa: plainly(Operator::Tail),
    })
}

fn group(alloc: Global, member: Instruction) -> Tried<Instruction> {
    let members = vec![in alloc; member]?;
    Ok(Instruction::Group {
        name: String::from_str(alloc, "G")?,
        presence: Presence::Mandatory,
        dictionary: None,
        type_ref: None,
        members,
    })
}

// An instruction in so many groups, each in the one before.
fn in_groups(alloc: Global, levels: u32, innermost: Instruction) -> Tried<Instruction> {
    let mut member = innermost;
    for _ in 0..levels {
        member = group(alloc, member)?;
    }
    Ok(member)
}

// A sequence of another template.
fn sequence_of(alloc: Global, name: &str) -> Tried<Instruction> {
    let members = vec![in alloc; reference(alloc, name)?]?;
    Ok(Instruction::Sequence {
        name: String::from_str(alloc, "L")?,
        presence: Presence::Mandatory,
        dictionary: text(alloc, Some("mine"))?,
        type_ref: None,
        length_name: None,
        length: plainly(Operator::Copy),
        members,
    })
}

fn reference(alloc: Global, name: &str) -> Tried<Instruction> {
    Ok(Instruction::Reference {
        name: String::from_str(alloc, name)?,
    })
}

// An instruction of a row.
#[derive(Clone, Copy)]
pub(crate) enum Made<'a> {
    Field(Field<'a>),
    // with this text beside the exponent
    Decimal(&'a str),
    // of the template of this name
    Sequence(&'a str),
    Reference(&'a str),
    // in so many groups
    Groups(u32, &'a Made<'a>),
}

impl Made<'_> {
    fn instruction(&self, alloc: Global) -> Tried<Instruction> {
        match self {
            Made::Field(field) => field.instruction(alloc),
            Made::Decimal(exponent) => decimal(alloc, exponent),
            Made::Sequence(name) => sequence_of(alloc, name),
            Made::Reference(name) => reference(alloc, name),
            Made::Groups(levels, made) => in_groups(alloc, *levels, made.instruction(alloc)?),
        }
    }
}

fn instructions(alloc: Global, made: &[Made]) -> Tried<Vec<Instruction>> {
    let mut members = Vec::new(alloc);
    for one in made {
        members.push(one.instruction(alloc)?)?;
    }
    Ok(members)
}

// A template of a row: its name, its identifier and its instructions.
pub(crate) type Described<'a> = (&'a str, Option<u32>, &'a [Made<'a>]);

fn template(alloc: Global, row: Described) -> Tried<Template> {
    let (name, id, made) = row;
    let members = instructions(alloc, made)?;
    Ok(Template {
        name: String::from_str(alloc, name)?,
        id,
        dictionary: None,
        type_ref: None,
        members,
    })
}

fn templates(alloc: Global, rows: &[Described]) -> Tried<Vec<Template>> {
    let mut templates = Vec::new(alloc);
    for row in rows {
        templates.push(template(alloc, *row)?)?;
    }
    Ok(templates)
}

// What is wanted of templates.
pub(crate) struct Row {
    pub(crate) templates: &'static [Described<'static>],
    pub(crate) wanted: Wanted,
}

// Templates are loaded, or have this fault.
pub(crate) fn all_judged(rt: &impl Abort, alloc: Global, rows: &[Row]) -> Tried {
    for row in rows {
        let built = TemplateSet::build(alloc, templates(alloc, row.templates)?);
        answers(rt, built, row.wanted)?;
    }
    Ok(())
}

#[test]
fn templates_are_judged(rt: HostRuntime) -> Tried {
    const ROWS: &[Row] = rows! { Row { templates, wanted }:
        // fields
        &[("A", None, &[Made::Field(Field { kind: Kind::Ascii, operator: Operator::Increment, ..PLAIN })])],
            Fault(S2, 1, 1);
        &[("A", None, &[Made::Field(Field { operator: Operator::Copy, initial: Some("x"), ..PLAIN })])],
            Fault(S3, 1, 1);
        &[("A", None, &[Made::Field(Field { operator: Operator::Copy, initial: Some("4294967296"), ..PLAIN })])],
            Fault(S3, 1, 1);
        &[("A", None, &[Made::Field(Field { operator: Operator::Constant, ..PLAIN })])], Fault(S4, 1, 1);
        &[("A", None, &[Made::Field(Field { operator: Operator::Default, ..PLAIN })])], Fault(S5, 1, 1);
        &[("A", None, &[Made::Field(Field { presence: Presence::Optional, operator: Operator::Default, ..PLAIN })])],
            Loaded;
        // an exponent is judged before its mantissa
        &[("A", None, &[Made::Decimal("64")])], Fault(S3, 1, 1);
        &[("A", None, &[Made::Decimal("63")])], Fault(S2, 1, 1);
        &[("A", None, &[Made::Decimal("-63")])], Fault(S2, 1, 1);
        &[("A", None, &[Made::Decimal("-64")])], Fault(S3, 1, 1);
        // names and identifiers are new
        &[], Loaded;
        &[("A", None, &[]), ("A", None, &[])], Fault(DuplicateName, 2, 0);
        &[("A", Some(1), &[]), ("B", Some(1), &[])], Fault(DuplicateId, 2, 0);
        &[("A", None, &[]), ("B b", None, &[])], Fault(S1, 2, 0);
        // references lead to templates and not back
        &[("A", None, &[Made::Reference("Nobody")])], Fault(D8, 1, 1);
        &[("A", None, &[Made::Reference("A")])], Fault(Cycle, 1, 0);
        // the first leads to a cycle, and the second leads from one cycle to another
        &[("A", None, &[Made::Reference("D"), Made::Reference("B")]), ("B", None, &[Made::Reference("E")]),
            ("C", None, &[Made::Reference("D"), Made::Reference("B")]), ("D", None, &[Made::Reference("C")]),
            ("E", None, &[Made::Reference("E")])], Fault(Cycle, 3, 0);
        // depth goes through references
        &[("A", None, &[Made::Groups(8, &Made::Field(PLAIN))]), ("B", None, &[Made::Reference("A")])], Loaded;
        &[("A", None, &[Made::Groups(9, &Made::Field(PLAIN))]), ("B", None, &[Made::Reference("A")])],
            Fault(TooDeep, 1, 0);
        &[("A", None, &[Made::Groups(4, &Made::Field(PLAIN))]), ("B", None, &[Made::Groups(4, &Made::Reference("A"))])],
            Loaded;
        &[("A", None, &[Made::Groups(4, &Made::Field(PLAIN))]), ("B", None, &[Made::Groups(5, &Made::Reference("A"))])],
            Fault(TooDeep, 2, 0);
    };
    all_judged(&rt, rt.alloc(), ROWS)
}

pub(crate) fn numbered(alloc: Global, number: u32) -> Tried<String> {
    format!(in alloc; "N{number}")
}

// The template of this number, with these instructions.
pub(crate) fn of_number(alloc: Global, number: u32, members: &[Made]) -> Tried<Template> {
    let name = numbered(alloc, number)?;
    template(alloc, (&name, Some(number), members))
}

// A template that refers to the next one twice; the last of so many has these instructions.
fn twice(alloc: Global, number: u32, count: u32, members: &[Made]) -> Tried<Template> {
    if number >= count {
        return of_number(alloc, number, members);
    }
    let next = numbered(alloc, number + 1)?;
    of_number(alloc, number, &[Made::Reference(&next); 2])
}

// Templates, each of which refers to the next one twice; the last has these instructions.
pub(crate) fn doubling(alloc: Global, count: u32, members: &[Made]) -> Tried<Vec<Template>> {
    let mut templates = Vec::new(alloc);
    for number in 1..=count {
        templates.push(twice(alloc, number, count, members)?)?;
    }
    Ok(templates)
}

#[test]
fn counts_stop(rt: HostRuntime) -> Tried {
    const ROWS: &[(u32, &[Made], Wanted)] = rows! {
        17, &[Made::Field(PLAIN)], Fault(TooMany, 1, 0);
        130, &[Made::Field(PLAIN)], Fault(TooMany, 1, 0);
        130, &[], Loaded;
    };
    for (count, members, wanted) in ROWS {
        let built = TemplateSet::build(rt.alloc(), doubling(rt.alloc(), *count, members)?);
        answers(&rt, built, *wanted)?;
    }
    Ok(())
}

// A copy that begins with the number 7.
const SEVEN: Field = Field {
    operator: Operator::Copy,
    initial: Some("007"),
    ..PLAIN
};

// A template that refers twice to another, once inside a sequence, and that other.
const SHARING: &[Described] = rows! {
    ("A", Some(5), &[Made::Reference("Shared"), Made::Sequence("Shared"), Made::Field(PLAIN)]);
    ("Shared", Some(6),
        &[Made::Field(Field { name: "X", dictionary: Some("template"), ..SEVEN }), Made::Field(Field { name: "Y", dictionary: Some("type"), ..SEVEN })]);
};

pub(crate) fn built(rt: &impl Abort, alloc: Global, rows: &[Described]) -> Tried<TemplateSet> {
    loaded(rt, TemplateSet::build(alloc, templates(alloc, rows)?))
}

fn part_of(flat: &Flat) -> Option<&FieldPart> {
    match flat {
        Flat::Field { whole, .. } => Some(whole),
        Flat::Sequence { length, .. } => Some(length),
        _ => None,
    }
}

/// The instructions of a template that is there.
pub(crate) fn members_of(template: Option<&FlatTemplate>) -> &[Flat] {
    match template {
        Some(template) => template.members.as_slice(),
        None => &[],
    }
}

fn elements_of(flat: Option<&Flat>) -> &[Flat] {
    match flat {
        Some(Flat::Sequence { members, .. }) => members.as_slice(),
        _ => &[],
    }
}

// The number of a field or a sequence, and the slot and the name of its key.
fn key_of(flat: &Flat) -> Option<(u32, u32, &str)> {
    let part = part_of(flat)?;
    Some((part.number, part.key.slot, part.key.name.as_str()))
}

fn have_keys(rt: &impl Abort, flats: &[Flat], wanted: &[(u32, u32, &str)]) {
    same(rt, flats.len(), wanted.len());
    for (flat, wanted) in flats.iter().zip(wanted) {
        same(rt, key_of(flat), Some(*wanted));
    }
}

fn initial_of(flat: &Flat) -> Option<&Scalar> {
    part_of(flat)?.initial()
}

// Each field begins with the number 7.
fn begin_with_seven(rt: &impl Abort, flats: &[Flat]) {
    same(rt, flats.len(), 2);
    for flat in flats {
        same(rt, initial_of(flat), Some(&Scalar::U32(7)));
    }
}

// Keys are those where an instruction was written.
fn is_shared(rt: &impl Abort, set: &TemplateSet) {
    same(rt, set.slots(), 5);
    same(rt, set.name(6), Some("Shared"));
    same(rt, set.find(7).is_none(), true);
    let flats = members_of(set.find(5));
    let keys = [(1, 1, "X"), (2, 2, "Y"), (3, 3, "L"), (6, 4, "F")];
    have_keys(rt, flats, &keys);
    have_keys(rt, elements_of(flats.get(2)), &[(4, 1, "X"), (5, 2, "Y")]);
    begin_with_seven(rt, members_of(set.find(6)));
}

#[test]
fn a_template_is_shared(rt: HostRuntime) -> Tried {
    let set = built(&rt, rt.alloc(), SHARING)?;
    is_shared(&rt, &set);
    Ok(())
}
