//! Instructions one after another, depth first, without a call for each level: those that a user builds may nest deeper
//! than a stack reaches.

ghost use Rattle.std.specs.Prelude.{◌≡◌, ◌≤◌, ◌<◌, ◌+◌, ◌∷◌, ◌++◌, [], ℕ, IfOk, MatchOption, OnOk, length, map};
ghost use Rattle.fast_load.specs.InOrder.{found_of, left_of, level_inside, leveled, leveled_of, leveled_one, to_come};
ghost use Rattle.fast_written.specs.Written.{listed, written_list, written_of};

use fast_written::Instruction;
use std::alloc::{AllocError, Global};

/// An instruction, and in how many groups and sequences it stands; 9 for any number past 8.
#[derive(Clone, Copy)]
pub(crate) struct Leveled<'a> {
    pub(crate) level: u32,
    pub(crate) instruction: &'a Instruction,
}

// What is left of the members of an element.
#[derive(Clone, Copy)]
pub(crate) struct Level<'a> {
    level: u32,
    members: &'a [Instruction],
}

/// The instructions of a list and those inside them, depth first, a group or sequence before its members.
///
/// # Errors
///
/// Where memory is refused.
pub(crate) fn in_order<'a>(
    alloc: Global,
    members: &'a [Instruction],
) -> Result<Vec<Leveled<'a>>, AllocError>
    ensures leveled { IfOk result (λ list. map leveled_of list.items
        ≡ leveled 0 (written_list (map written_of members.now))) }
    ensures listed { IfOk result (λ list. map found_of list.items
        ≡ listed (written_list (map written_of members.now))) }
{
    let mut list = Vec::with_capacity(alloc, members.len())?;
    let mut pile = Vec::new(alloc);
    pile.push(Level { level: 0, members })?;
    while let Some(front) = pile.pop() {
        take_next(front, &mut pile, &mut list)?;
    }
    Ok(list)
}

// Takes the next instruction of a list that was taken off the pile, if there is one, and puts what comes behind it back.
fn take_next<'a>(
    front: Level<'a>,
    pile: &mut Vec<Level<'a>>,
    list: &mut Vec<Leveled<'a>>,
) -> Result<(), AllocError>
    ensures same { OnOk result (map leveled_of list.new.items ++ to_come pile.new.items
        ≡ map leveled_of list.old.items ++ to_come (pile.old.items ++ front.entry ∷ [])) }
    ensures less { OnOk result (left_of pile.new.items
        < left_of (pile.old.items ++ front.entry ∷ [])) }
{
    let Some((instruction, rest)) = front.members.split_first() else {
        return Ok(());
    };
    let found = Leveled {
        level: front.level,
        instruction,
    };
    list.push(found)?;
    pile.push(Level {
        level: front.level,
        members: rest,
    })?;
    enter(found, pile)?;
    Ok(())
}

// Puts the members that an instruction has on the pile.
fn enter<'a>(found: Leveled<'a>, pile: &mut Vec<Level<'a>>) -> Result<(), AllocError>
    ensures same { OnOk result (leveled_of found.entry ∷ to_come pile.new.items
        ≡ leveled_one found.entry.level (written_of found.entry.instruction.now)
        ++ to_come pile.old.items) }
    ensures few { OnOk result (length pile.new.items ≤ length pile.old.items + 1) }
{
    match members_of(found.instruction) {
        Some(members) => {
            pile.push(Level {
                level: found.level.saturating_add(1).min(9),
                members,
            })?;
            Ok(())
        }
        None => Ok(()),
    }
}

// The members of a group or sequence.
fn members_of(instruction: &Instruction) -> Option<&[Instruction]>
    ensures { (level : ℕ) → MatchOption result
        (leveled_one level (written_of instruction.now)
        ≡ (level, written_of instruction.now) ∷ [])
        (λ members. leveled_one level (written_of instruction.now)
        ≡ (level, written_of instruction.now) ∷ leveled (level_inside level)
        (written_list (map written_of members.now))) }
{
    match instruction {
        Instruction::Group { members, .. } => Some(members),
        Instruction::Sequence { members, .. } => Some(members),
        Instruction::Field { .. } | Instruction::Parts { .. } | Instruction::Reference { .. } => {
            None
        }
    }
}
