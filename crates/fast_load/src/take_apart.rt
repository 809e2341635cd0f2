//! Templates as they are written are given back without a call for each level.

ghost use Rattle.std.specs.Prelude.{◌<◌, length};
ghost use Rattle.fast_load.specs.InOrder.{count_in};
ghost use Rattle.fast_written.specs.Written.{listed_one, written_of};

use fast_written::{Instruction, Template};
use std::alloc::{AllocError, Global};

/// Drops templates. Their groups may nest deeper than a stack reaches, so none is dropped with its members in it; but
/// where memory for that is refused, those that are left are dropped as they are.
pub(crate) fn take_apart(alloc: Global, templates: Vec<Template>) {
    let mut templates = templates;
    while let Some(template) = templates.pop() {
        let Template { members, .. } = template;
        let _taken = take_members_apart(alloc, members);
    }
}

fn take_members_apart(alloc: Global, members: Vec<Instruction>) -> Result<(), AllocError> {
    let mut pile = members;
    while let Some(instruction) = pile.pop() {
        let mut members = own_members(alloc, instruction);
        pile.append(&mut members)?;
    }
    Ok(())
}

// The members of a group or sequence, taken out of it.
fn own_members(alloc: Global, instruction: Instruction) -> Vec<Instruction>
    ensures { count_in result.items < length (listed_one (written_of instruction)) }
{
    match instruction {
        Instruction::Group { members, .. } => members,
        Instruction::Sequence { members, .. } => members,
        Instruction::Field { .. } | Instruction::Parts { .. } | Instruction::Reference { .. } => {
            Vec::new(alloc)
        }
    }
}
