//! Instructions one after another, until one is at fault.

ghost use Rattle.std.specs.Prelude.{◌≡◌, ◌≤◌, ◌++◌, IfOk, List, MatchResult, None, Ok, Option, Some, length, map};
ghost use Rattle.fast_written.specs.declared.fault.LoadCause as cause_type;
ghost use Rattle.fast_written.specs.Written.{WrittenInstruction, WrittenTemplate, written_list, written_of, written_template_of};
ghost use Rattle.fast_load.specs.Walks.{first_at_fault as first_at_fault_of, kept_of, walk as walk_of, when_passed};

use crate::in_order::in_order;
use fast_written::{Instruction, LoadCause, LoadFault, Template, fault_at};
use std::alloc::{AllocError, Global};

/// What is judged of each template and of each instruction by itself, and what is kept of an instruction.
pub(crate) trait Judge {
    /// What later steps want of instructions that are not at fault.
    type Kept: Drop;

    ghost judges_template: { Self → WrittenTemplate → Option cause_type.LoadCause };

    ghost judges: { Self → WrittenInstruction → Option cause_type.LoadCause };

    ghost keeps: { Self → WrittenInstruction → List Self.Kept };

    /// The cause of a template's own fault, if it has one.
    fn judge_template(&self, template: &Template) -> Option<LoadCause>
        ensures { result ≡ judges_template self.now (written_template_of template.now) };

    /// The cause of its fault, if it has one. Without one, what is kept of it is appended.
    ///
    /// # Errors
    ///
    /// Where memory is refused.
    fn judge(
        &self,
        instruction: &Instruction,
        kept: &mut Vec<Self::Kept>,
    ) -> Result<Option<LoadCause>, AllocError>
        ensures cause { IfOk result (λ cause. cause
            ≡ judges self.now (written_of instruction.now)) }
        ensures kept { result ≡ Ok None
            → kept.new.items ≡ kept.old.items ++ keeps self.now (written_of instruction.now) };
}

/// Where a walk ended.
#[derive(Clone, Copy)]
pub(crate) enum Walked {
    /// No instruction was at fault, and this is the number of the one after them.
    Next(u32),
    /// The first that was, and its number.
    Fault(LoadCause, u32),
}

/// What is kept of the instructions of each template; or the first fault of templates, each judged before its
/// instructions.
///
/// # Errors
///
/// Where memory is refused.
pub(crate) fn judge_all<J: Judge>(
    alloc: Global,
    templates: &[Template],
    judge: &J,
) -> Result<Result<Vec<Vec<J::Kept>>, LoadFault>, AllocError>
    requires { length templates.now ≤ 65535 }
    ensures fault { IfOk result (λ answer. MatchResult answer
        (λ rows. first_at_fault_of (J.judges_template judge.now) (J.judges judge.now)
        (map written_template_of templates.now) 1 ≡ None)
        (λ fault. first_at_fault_of (J.judges_template judge.now) (J.judges judge.now)
        (map written_template_of templates.now) 1 ≡ Some fault)) }
    ensures kept { IfOk result (λ answer. IfOk answer (λ rows. map (λ row. row.items) rows.items
        ≡ map (λ t. kept_of (J.keeps judge.now) (written_template_of t).members) templates.now)) }
{
    let mut rows = Vec::with_capacity(alloc, templates.len())?;
    let mut place: u32 = 1;
    for template in templates {
        if let Some(cause) = judge.judge_template(template) {
            return Ok(Err(fault_at(cause, place, 0)));
        }
        let mut row = Vec::new(alloc);
        if let Walked::Fault(cause, number) = walk(alloc, &template.members, judge, 1, &mut row)? {
            return Ok(Err(fault_at(cause, place, number)));
        }
        rows.push(row)?;
        place += 1;
    }
    Ok(Ok(rows))
}

/// Judges instructions depth first, a group or sequence before its members, until one is at fault, and appends what is
/// kept of them.
///
/// # Errors
///
/// Where memory is refused.
pub(crate) fn walk<J: Judge>(
    alloc: Global,
    members: &[Instruction],
    judge: &J,
    number: u32,
    kept: &mut Vec<J::Kept>,
) -> Result<Walked, AllocError>
    ensures walked { IfOk result (λ walked. walked
        ≡ walk_of (J.judges judge.now) (written_list (map written_of members.now)) number) }
    ensures kept { IfOk result (λ walked. when_passed walked (kept.new.items
        ≡ kept.old.items ++ kept_of (J.keeps judge.now)
        (written_list (map written_of members.now)))) }
{
    let list = in_order(alloc, members)?;
    let mut next = number;
    for found in &list {
        if let Some(cause) = judge.judge(found.instruction, kept)? {
            return Ok(Walked::Fault(cause, next));
        }
        next = next.saturating_add(1);
    }
    Ok(Walked::Next(next))
}
