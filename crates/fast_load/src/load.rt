//! A template set from templates as they are written.

ghost use Rattle.std.specs.Prelude.{◌≡◌, ◌⊎◌, MatchResult, map};
ghost use Rattle.fast_load.specs.FlatLists.{AreResolved};
ghost use Rattle.fast_load.specs.LoadChecks.{IsAccepted, IsFirstFault};
ghost use Rattle.fast_template.specs.TemplateSets.{templates_in};
ghost use Rattle.fast_written.specs.LoadFaults.{want_of_memory as want_of_memory_of};
ghost use Rattle.fast_written.specs.Written.{written_template_of};

use crate::build::resolve;
use crate::checks::check_written;
use crate::take_apart::take_apart;
use fast_template::TemplateSet;
use fast_written::{LoadFault, Template, want_of_memory};
use std::alloc::{AllocError, Global};

/// Checks templates as they are written, resolves them, and lets them go.
///
/// # Errors
///
/// The first check of a load that fails, with its template and instruction; or, where memory is refused, want of
/// memory, whichever step asked for it.
pub fn load_written(alloc: Global, templates: Vec<Template>) -> Result<TemplateSet, LoadFault>
    ensures { MatchResult result
        (λ set. IsAccepted (map written_template_of templates.items)
        × AreResolved (map written_template_of templates.items) (templates_in set))
        (λ fault. IsFirstFault (map written_template_of templates.items) fault ⊎ (fault
        ≡ want_of_memory_of)) }
{
    let made = set_of(alloc, &templates);
    take_apart(alloc, templates);
    made
}

// The set that templates are resolved to, or the first fault.
fn set_of(alloc: Global, templates: &[Template]) -> Result<TemplateSet, LoadFault>
    ensures { MatchResult result
        (λ set. IsAccepted (map written_template_of templates.now)
        × AreResolved (map written_template_of templates.now) (templates_in set))
        (λ fault. IsFirstFault (map written_template_of templates.now) fault ⊎ (fault
        ≡ want_of_memory_of)) }
{
    let checked = check_written(alloc, templates)?;
    match resolve(alloc, templates, &checked) {
        Ok(Ok(set)) => Ok(set),
        Ok(Err(fault)) => Err(fault),
        Err(AllocError) => Err(want_of_memory()),
    }
}
