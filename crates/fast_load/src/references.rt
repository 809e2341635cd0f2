//! Whether references name templates, and where these stand.

ghost use Rattle.std.specs.Prelude.{◌≡◌, ◌≤◌, ◌⊎◌, MatchResult, None, is_some, length, map};
ghost use Rattle.std.specs.BTreeMap.{get};
ghost use Rattle.std.specs.Cmp.Lexicographic.{slice_cmp};
ghost use Rattle.std.specs.Ordering.{nat_cmp};
ghost use Rattle.fast_load.specs.Duplicates.{NamesLead};
ghost use Rattle.fast_load.specs.Links.{AreLinks, place_in, places_of, referred_by};
ghost use Rattle.fast_written.specs.LoadFaults.{want_of_memory as want_of_memory_of};
ghost use Rattle.fast_load.specs.Phases.{IsFirstOf, Passes};
ghost use Rattle.fast_load.specs.References.{reference_cause};
ghost use Rattle.fast_written.specs.Written.{written_template_of};

use crate::walk::{Judge, judge_all};
use fast_value::Name;
use fast_written::{Instruction, LoadCause, LoadFault, Template, want_of_memory};
use std::alloc::{AllocError, Global};
use std::collections::BTreeMap;

/// Judges references, and keeps the places that they lead to.
#[derive(Drop)]
pub(crate) struct References<'a> {
    alloc: Global,
    names: &'a BTreeMap<Name, u32>,
}

impl Judge for References<'_> {
    type Kept = usize;

    ghost judges_template = { λ s w. None };

    ghost judges = { λ s. reference_cause (λ name. is_some (get
        (slice_cmp nat_cmp) s.names.now name)) };

    ghost keeps = { λ s i. places_of (place_in s.names.now) (referred_by i) };

    fn judge_template(&self, _template: &Template) -> Option<LoadCause> {
        None
    }

    fn judge(
        &self,
        instruction: &Instruction,
        kept: &mut Vec<usize>,
    ) -> Result<Option<LoadCause>, AllocError> {
        match instruction {
            Instruction::Reference { name } => {
                let name = Name::of(self.alloc, name)?;
                match self.names.get(&name) {
                    Some(place) => {
                        kept.push(*place as usize)?;
                        Ok(None)
                    }
                    None => Ok(Some(LoadCause::D8)),
                }
            }
            _ => Ok(None),
        }
    }
}

/// The places of the templates that each template refers to, depth first.
///
/// # Errors
///
/// The fault of the first reference that names no template, or want of memory.
pub(crate) fn check_references(
    alloc: Global,
    templates: &[Template],
    names: &BTreeMap<Name, u32>,
) -> Result<Vec<Vec<usize>>, LoadFault>
    requires few { length templates.now ≤ 65535 }
    requires lead { NamesLead names.now (map written_template_of templates.now) }
    ensures { MatchResult result
        (λ links. Passes (map written_template_of templates.now) 4
        × AreLinks templates.now links.items)
        (λ fault. IsFirstOf (map written_template_of templates.now) 4 fault
        ⊎ (fault ≡ want_of_memory_of)) }
{
    match judge_all(alloc, templates, &References { alloc, names }) {
        Ok(Ok(links)) => Ok(links),
        Ok(Err(fault)) => Err(fault),
        Err(AllocError) => Err(want_of_memory()),
    }
}
