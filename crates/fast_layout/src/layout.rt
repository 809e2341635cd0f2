//! Fields one behind the other, with their names.

ghost use Rattle.std.specs.Prelude.{◌≡◌, ◌≤◌, ◌∷◌, [], IfOk, OnOk, map};
ghost use Rattle.fast_template.specs.Resolved.{instruction_of, list_of, resolved_of, size_of, size_of_one};
ghost use Rattle.fast_template.specs.TemplateSets.{IsSound, size_of_all, templates_in};
ghost use Rattle.fast_layout.specs.Fields.{Appends, fields_of, names_of_all, row_of, rows_of, rows_of_all, rows_of_one, rows_of_template};

use crate::field::{Field, GROUP, SEQUENCE, TEMPLATE, kind_number, optional};
use crate::size::size;
use fast_template::{Flat, FlatTemplate, Kind, TemplateSet};
use std::alloc::{AllocError, Global};

/// Fields, and the bytes of their names.
#[derive(Drop)]
pub struct Layout {
    pub fields: Vec<Field>,
    pub names: Vec<u8>,
}

impl Layout {
    // Appends a field of this name.
    fn push(
        &mut self,
        kind: u32,
        instruction: u32,
        name: &str,
        optional: u32,
        length: u32,
    ) -> Result<(), AllocError>
        ensures { OnOk result (Appends (row_of kind instruction name.now optional length ∷ []) self.old self.new) }
    {
        let field = Field {
            kind,
            instruction,
            name: self.names.len() as u64,
            name_length: name.len() as u64,
            optional,
            length,
        };
        self.names.extend_from_slice(name.as_bytes())?;
        self.fields.push(field)?;
        Ok(())
    }

    // Appends the fields of an instruction.
    #[cycle(laying)]
    fn push_member(&mut self, member: &Flat) -> Result<(), AllocError>
        requires { size_of_one (instruction_of member.now) ≤ 65535 }
        ensures { OnOk result (Appends (rows_of_one (instruction_of member.now)) self.old self.new) }
    {
        match member {
            Flat::Field {
                name,
                number,
                presence,
                whole,
            } => self.push(
                kind_number(whole.kind),
                *number,
                name.as_str(),
                optional(*presence),
                0,
            ),
            Flat::Parts {
                name,
                number,
                presence,
                ..
            } => self.push(
                kind_number(Kind::Decimal),
                *number,
                name.as_str(),
                optional(*presence),
                0,
            ),
            Flat::Group {
                name,
                number,
                presence,
                members,
            } => {
                self.push(
                    GROUP,
                    *number,
                    name.as_str(),
                    optional(*presence),
                    size(members),
                )?;
                self.push_members(members)
            }
            Flat::Sequence {
                name,
                number,
                presence,
                members,
                ..
            } => {
                self.push(
                    SEQUENCE,
                    *number,
                    name.as_str(),
                    optional(*presence),
                    size(members),
                )?;
                self.push_members(members)
            }
        }
    }

    // Appends the fields of each instruction.
    #[cycle(laying)]
    fn push_members(&mut self, members: &[Flat]) -> Result<(), AllocError>
        requires { size_of (list_of members.now) ≤ 65535 }
        ensures { OnOk result (Appends (rows_of (list_of members.now)) self.old self.new) }
    {
        for member in members {
            self.push_member(member)?;
        }
        Ok(())
    }

    // Appends a template, and its fields.
    fn push_template(&mut self, template: &FlatTemplate) -> Result<(), AllocError>
        requires { size_of (resolved_of template.now).members ≤ 65535 }
        ensures { OnOk result (Appends (rows_of_template (resolved_of template.now)) self.old self.new) }
    {
        let (id, has_id) = match template.id {
            Some(id) => (id, 1),
            None => (0, 0),
        };
        let length = size(&template.members);
        self.push(TEMPLATE, id, template.name.as_str(), has_id, length)?;
        self.push_members(&template.members)
    }

    // Appends each template, and its fields behind it.
    fn push_templates(&mut self, templates: &[FlatTemplate]) -> Result<(), AllocError>
        requires { size_of_all (map resolved_of templates.now) ≤ 65535 }
        ensures { OnOk result (Appends (rows_of_all (map resolved_of templates.now)) self.old self.new) }
    {
        for template in templates {
            self.push_template(template)?;
        }
        Ok(())
    }
}

/// The templates of a set as fields, and their names.
///
/// # Errors
///
/// Where memory is refused.
pub fn lay_out(alloc: Global, set: &TemplateSet) -> Result<Layout, AllocError>
    ensures fields { IfOk result (λ layout. layout.fields.items ≡ fields_of (templates_in set.now)) }
    ensures names { IfOk result (λ layout. layout.names.items ≡ names_of_all (templates_in set.now)) }
{
    let mut layout = Layout {
        fields: Vec::new(alloc),
        names: Vec::new(alloc),
    };
    layout.push_templates(set.templates())?;
    Ok(layout)
}
