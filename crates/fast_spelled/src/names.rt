//! The names of a set, which are texts.

ghost use Rattle.fast_template.specs.Resolved.{instruction_of, list_of};
ghost use Rattle.fast_spelled.specs.Laws.{HasTextName, HasTextNames, HaveTextNames};

use fast_template::{Flat, TemplateSet};

/// Looks at a name of an instruction, and at those within it.
#[cycle(names)]
fn is_text(flat: &Flat)
    ensures { HasTextName (instruction_of flat.now) }
{
    match flat {
        Flat::Field { name, .. } | Flat::Parts { name, .. } => {
            name.as_str().as_bytes();
        }
        Flat::Group { name, members, .. } | Flat::Sequence { name, members, .. } => {
            name.as_str().as_bytes();
            are_text(members);
        }
    }
}

/// Looks at the names of instructions.
#[cycle(names)]
fn are_text(members: &[Flat])
    ensures { HaveTextNames (list_of members.now) }
{
    for member in members {
        is_text(member);
    }
}

/// Looks at all names of a set. Nothing is answered: each is a `str`, so its bytes are UTF-8, and the laws of lines ask for
/// that.
pub fn names_are_text(set: &TemplateSet)
    ensures { HasTextNames set.now }
{
    for template in set.templates() {
        template.name.as_str().as_bytes();
        are_text(&template.members);
    }
}
