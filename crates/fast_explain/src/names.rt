//! The names of templates and instructions, by their numbers.

use fast_template::{Flat, TemplateSet};
use serde_json::Value;
use std::alloc::{AllocError, Global};

/// What has members of its own kind.
trait Nested: Sized {
    /// Its members in their order.
    fn members(&self) -> &[Self];
}

impl Nested for Flat {
    fn members(&self) -> &[Flat] {
        match self {
            Flat::Group { members, .. } | Flat::Sequence { members, .. } => members.as_slice(),
            Flat::Field { .. } | Flat::Parts { .. } => &[],
        }
    }
}

impl Nested for Value {
    fn members(&self) -> &[Value] {
        list_at(self, "instructions")
    }
}

/// The list that an object has under a key; an empty one where it has none.
fn list_at<'a>(object: &'a Value, key: &str) -> &'a [Value] {
    match object.get(key).and_then(Value::as_array) {
        Some(list) => list.as_slice(),
        None => &[],
    }
}

/// Puts the members before those that wait, the first of them last.
fn wait<'a, N: Nested>(members: &'a [N], waiting: &mut Vec<&'a N>) -> Result<(), AllocError> {
    for member in members.iter().rev() {
        waiting.push(member)?;
    }
    Ok(())
}

/// The member of this number, counted from 1, depth first, each before its own members.
fn member<'a, N: Nested>(
    alloc: Global,
    members: &'a [N],
    number: u32,
) -> Result<Option<&'a N>, AllocError> {
    let mut waiting = Vec::new(alloc);
    wait(members, &mut waiting)?;
    let mut found = None;
    for _ in 0..number {
        match waiting.pop() {
            Some(next) => {
                wait(next.members(), &mut waiting)?;
                found = Some(next);
            }
            None => return Ok(None),
        }
    }
    Ok(found)
}

/// The names of a template and of one of its instructions, where they are known.
#[derive(Drop)]
pub struct Names {
    pub template: Option<String>,
    pub instruction: Option<String>,
}

impl Names {
    /// No names.
    pub fn unknown() -> Names {
        Names {
            template: None,
            instruction: None,
        }
    }
}

/// The name that an object has.
fn name_at(alloc: Global, object: &Value) -> Result<Option<String>, AllocError> {
    match object.get("name").and_then(Value::as_str) {
        Some(name) => Ok(Some(String::from_str(alloc, name)?)),
        None => Ok(None),
    }
}

/// The template of this place in a text, from 1.
pub fn template_in_text(text: &Value, place: u32) -> Option<&Value> {
    list_at(text, "templates").get((place as usize).saturating_sub(1))
}

/// The instruction of a template of a text, both as they are written, from 1.
pub fn member_in_text(
    alloc: Global,
    text: &Value,
    place: u32,
    number: u32,
) -> Result<Option<&Value>, AllocError> {
    match template_in_text(text, place) {
        Some(template) => member(alloc, template.members(), number),
        None => Ok(None),
    }
}

/// The names in a template text, by the places of the template in it and of the instruction as it is written, both
/// from 1.
pub fn names_in_text(
    alloc: Global,
    text: &Value,
    template: u32,
    instruction: u32,
) -> Result<Names, AllocError> {
    let Some(named) = template_in_text(text, template) else {
        return Ok(Names::unknown());
    };
    let instruction = match member_in_text(alloc, text, template, instruction)? {
        Some(instruction) => name_at(alloc, instruction)?,
        None => None,
    };
    Ok(Names {
        template: name_at(alloc, named)?,
        instruction,
    })
}

fn name_of(instruction: &Flat) -> &str {
    match instruction {
        Flat::Field { name, .. }
        | Flat::Parts { name, .. }
        | Flat::Group { name, .. }
        | Flat::Sequence { name, .. } => name.as_str(),
    }
}

/// The names in a set, by the template's identifier and the instruction's number in it.
pub fn names_in_set(
    alloc: Global,
    set: &TemplateSet,
    template: u32,
    instruction: u32,
) -> Result<Names, AllocError> {
    let Some(template) = set.find(template) else {
        return Ok(Names::unknown());
    };
    let instruction = match member(alloc, &template.members, instruction)? {
        Some(instruction) => Some(String::from_str(alloc, name_of(instruction))?),
        None => None,
    };
    Ok(Names {
        template: Some(String::from_str(alloc, template.name.as_str())?),
        instruction,
    })
}
