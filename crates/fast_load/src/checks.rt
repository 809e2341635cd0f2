//! The checks of templates as they are written, in their order.

ghost use Rattle.std.specs.Prelude.{◌≡◌, ◌<◌, ◌⊎◌, MatchResult, ℕ, map};
ghost use Rattle.fast_load.specs.Initials.{AreInitials};
ghost use Rattle.fast_load.specs.Links.{AreLinks};
ghost use Rattle.fast_load.specs.LoadChecks.{IsFirstFault};
ghost use Rattle.fast_written.specs.LoadFaults.{want_of_memory};
ghost use Rattle.fast_load.specs.Phases.{Passes};
ghost use Rattle.fast_written.specs.Written.{written_template_of};

use crate::duplicates::check_duplicates;
use crate::names::check_names;
use crate::operators::check_operators;
use crate::references::check_references;
use fast_template::Initial;
use fast_written::{LoadCause, LoadFault, Template, fault_at};
use std::alloc::Global;

/// What the checks found of templates that resolving them takes up.
#[derive(Drop)]
pub(crate) struct Checked {
    /// The places of the templates that each template refers to, depth first.
    pub(crate) links: Vec<Vec<usize>>,
    /// The initial values of each template's parts, in their order.
    pub(crate) initials: Vec<Vec<Option<Initial>>>,
}

/// What is known of templates, if no check up to that of references fails.
///
/// # Errors
///
/// The first fault of the load, or want of memory.
pub(crate) fn check_written(alloc: Global, templates: &[Template]) -> Result<Checked, LoadFault>
    ensures { MatchResult result
        (λ checked. ((phase : ℕ) → phase < 5 → Passes (map written_template_of templates.now) phase)
        × AreLinks templates.now checked.links.items
        × AreInitials templates.now checked.initials.items)
        (λ fault. IsFirstFault (map written_template_of templates.now) fault
        ⊎ (fault ≡ want_of_memory)) }
{
    if templates.len() > 65_535 {
        return Err(fault_at(LoadCause::TooMany, 0, 0));
    }
    match check_names(alloc, templates) {
        Ok(()) => (),
        Err(fault) => return Err(fault),
    }
    let names = match check_duplicates(alloc, templates) {
        Ok(names) => names,
        Err(fault) => return Err(fault),
    };
    let initials = match check_operators(alloc, templates) {
        Ok(initials) => initials,
        Err(fault) => return Err(fault),
    };
    let links = match check_references(alloc, templates, &names) {
        Ok(links) => links,
        Err(fault) => return Err(fault),
    };
    Ok(Checked { links, initials })
}
