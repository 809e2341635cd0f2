//! Sets of many templates, and long initial values that many templates share.

use crate::base::*;
use crate::building::{
    Described, Field, Made, PLAIN, Row, all_judged, built, doubling, numbered, of_number,
};
use fast_build::Template;

// A template of one number that may be given by bit 0, with a name of its own.
fn with_key(alloc: Global, number: u32) -> Tried<Template> {
    let name = numbered(alloc, number)?;
    let field = Field {
        name: &name,
        operator: Operator::Copy,
        ..PLAIN
    };
    of_number(alloc, number, &[Made::Field(field)])
}

// So many such templates, numbered from 0.
fn with_keys(alloc: Global, count: u32) -> Tried<Vec<Template>> {
    let mut templates = Vec::new(alloc);
    for number in 0..count {
        templates.push(with_key(alloc, number)?)?;
    }
    Ok(templates)
}

// Each template is found, and there is a slot for the identifier and one for the key of each.
fn all_found(rt: &impl Abort, alloc: Global, set: &TemplateSet) -> Tried {
    same(rt, set.slots(), 65_536);
    same(rt, set.name(65_535), None);
    for number in 0..65_535 {
        let name = numbered(alloc, number)?;
        same(rt, set.name(number), Some(name.as_str()));
    }
    Ok(())
}

#[test]
fn there_are_65535_templates(rt: HostRuntime) -> Tried {
    let alloc = rt.alloc();
    let set = loaded(&rt, TemplateSet::build(alloc, with_keys(alloc, 65_535)?))?;
    all_found(&rt, alloc, &set)
}

const CONSTANT: Field = Field {
    kind: Kind::Ascii,
    operator: Operator::Constant,
    ..PLAIN
};

// The length of the constant of a field, and its first character.
fn constant_of(flat: &Flat) -> (usize, Option<u8>) {
    match flat {
        Flat::Field { whole, .. } => match whole.initial() {
            Some(Scalar::Ascii(text)) => (text.as_slice().len(), text.as_slice().first().copied()),
            _ => (0, None),
        },
        _ => (0, None),
    }
}

// Instructions are constants of these characters, each so many times.
fn are_constants(rt: &impl Abort, flats: &[Flat], wanted: &[u8], count: usize) {
    same(rt, flats.len(), wanted.len());
    for (flat, character) in flats.iter().zip(wanted) {
        same(rt, constant_of(flat), (count, Some(*character)));
    }
}

#[test]
fn each_reference_has_the_value_of_its_own_template(rt: HostRuntime) -> Tried {
    const ROWS: &[Described] = rows! {
        "A", Some(1), &[Made::Field(Field { initial: Some("aaa"), ..CONSTANT })];
        "B", Some(2), &[Made::Field(Field { initial: Some("bbb"), ..CONSTANT })];
        "C", Some(3), &[Made::Reference("B"), Made::Reference("A"), Made::Reference("B")];
    };
    let set = built(&rt, rt.alloc(), ROWS)?;
    are_constants(&rt, members_of(set.find(1)), b"a", 3);
    are_constants(&rt, members_of(set.find(2)), b"b", 3);
    are_constants(&rt, members_of(set.find(3)), b"bab", 3);
    Ok(())
}

// The last of templates that refer twice to the next has this constant, and the first has it so many times.
fn is_shared(rt: &impl Abort, alloc: Global, initial: &str) -> Tried {
    let constant = Field {
        initial: Some(initial),
        ..CONSTANT
    };
    let templates = doubling(alloc, 16, &[Made::Field(constant)])?;
    let set = loaded(rt, TemplateSet::build(alloc, templates))?;
    are_constants(rt, members_of(set.find(1)), &[b'c'; 32_768], 65_535);
    Ok(())
}

// 4 GB, if each of the 65,535 constants had its value by itself.
#[test]
fn a_long_value_is_shared_by_all_references(rt: HostRuntime) -> Tried {
    let mut text = String::new(rt.alloc());
    for _ in 0..65_535 {
        text.push('c')?;
    }
    is_shared(&rt, rt.alloc(), &text)
}

// No level takes a part of the stack, neither where the groups are looked at nor where they are dropped.
#[test]
fn a_million_groups_in_groups_are_too_deep(rt: HostRuntime) -> Tried {
    const ROWS: &[Row] = rows! { Row { templates, wanted }:
        &[("A", Some(1), &[]), ("B", Some(2), &[Made::Groups(1_000_000, &Made::Field(PLAIN))])],
            Wanted::Fault(LoadCause::TooDeep, 2, 0);
    };
    all_judged(&rt, rt.alloc(), ROWS)
}
