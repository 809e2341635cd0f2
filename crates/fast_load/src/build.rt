//! Sets of resolved templates, from templates that passed the first checks of a load.

ghost use Rattle.std.specs.Prelude.{◌≤◌, ◌<◌, ℕ, IfOk, MatchOption, MatchResult, length, map};
ghost use Rattle.fast_load.specs.FlatLists.{AreResolved};
ghost use Rattle.fast_load.specs.Initials.{AreInitials};
ghost use Rattle.fast_load.specs.Links.{AreLinks, IsBuildOrder};
ghost use Rattle.fast_load.specs.LoadChecks.{IsAccepted, IsFirstFault};
ghost use Rattle.fast_load.specs.Phases.{IsFirstOf, Passes};
ghost use Rattle.fast_template.specs.TemplateSets.{templates_in};
ghost use Rattle.fast_written.specs.Written.{written_template_of};

use crate::checks::Checked;
use crate::extents::{extents_of, first_too_large};
use crate::flat_lists::flat_templates;
use crate::id_places::id_places;
use crate::links::build_order;
use crate::settle::settle;
use fast_template::TemplateSet;
use fast_written::{LoadFault, Template};
use std::alloc::{AllocError, Global};

/// Templates that pass the checks up to that of references, resolved; or the first fault.
///
/// # Errors
///
/// Where memory is refused.
pub(crate) fn resolve(
    alloc: Global,
    templates: &[Template],
    checked: &Checked,
) -> Result<Result<TemplateSet, LoadFault>, AllocError>
    requires linked { AreLinks templates.now checked.now.links.items }
    requires initials { AreInitials templates.now checked.now.initials.items }
    requires passed { (phase : ℕ) → phase < 5 → Passes
        (map written_template_of templates.now) phase }
    ensures { IfOk result (λ answer. MatchResult answer
        (λ set. IsAccepted (map written_template_of templates.now)
        × AreResolved (map written_template_of templates.now) (templates_in set))
        (λ fault. IsFirstFault (map written_template_of templates.now) fault)) }
{
    match order_within_limits(alloc, templates, checked)? {
        Ok(order) => Ok(Ok(set_of(alloc, templates, checked, &order)?)),
        Err(fault) => Ok(Err(fault)),
    }
}

// An order in which the lists of templates can be put together, if they are within the limits; or
// the first fault.
fn order_within_limits(
    alloc: Global,
    templates: &[Template],
    checked: &Checked,
) -> Result<Result<Vec<usize>, LoadFault>, AllocError>
    requires linked { AreLinks templates.now checked.now.links.items }
    requires passed { (phase : ℕ) → phase < 5 → Passes
        (map written_template_of templates.now) phase }
    ensures { IfOk result (λ answer. MatchResult answer
        (λ order. IsBuildOrder (map written_template_of templates.now) order.items
        × Passes (map written_template_of templates.now) 5
        × Passes (map written_template_of templates.now) 6)
        (λ fault. IsFirstFault (map written_template_of templates.now) fault)) }
{
    match build_order(alloc, templates, &checked.links)? {
        Ok(order) => match limit_passed(alloc, templates, &checked.links, &order)? {
            Some(fault) => Ok(Err(fault)),
            None => Ok(Ok(order)),
        },
        Err(fault) => Ok(Err(fault)),
    }
}

// The first limit on the depth and the number of instructions that is passed.
fn limit_passed(
    alloc: Global,
    templates: &[Template],
    links: &[Vec<usize>],
    order: &[usize],
) -> Result<Option<LoadFault>, AllocError>
    requires few { length templates.now ≤ 65535 }
    requires known { Passes (map written_template_of templates.now) 4 }
    requires linked { AreLinks templates.now links.now }
    requires differ { Passes (map written_template_of templates.now) 2 }
    requires in_order { IsBuildOrder (map written_template_of templates.now) order.now }
    ensures { IfOk result (λ answer. MatchOption answer
        (Passes (map written_template_of templates.now) 6)
        (λ fault. IsFirstOf (map written_template_of templates.now) 6 fault)) }
{
    let extents = extents_of(alloc, templates, links, order)?;
    Ok(first_too_large(&extents))
}

// The set of templates that no check fails.
fn set_of(
    alloc: Global,
    templates: &[Template],
    checked: &Checked,
    order: &[usize],
) -> Result<TemplateSet, AllocError>
    requires few { length templates.now ≤ 65535 }
    requires known { Passes (map written_template_of templates.now) 4 }
    requires linked { AreLinks templates.now checked.now.links.items }
    requires initials { AreInitials templates.now checked.now.initials.items }
    requires differ { Passes (map written_template_of templates.now) 2 }
    requires operators { Passes (map written_template_of templates.now) 3 }
    requires limits { Passes (map written_template_of templates.now) 6 }
    requires in_order { IsBuildOrder (map written_template_of templates.now) order.now }
    ensures { IfOk result (λ set. AreResolved (map written_template_of templates.now)
        (templates_in set)) }
{
    let mut flats = flat_templates(alloc, templates, checked, order)?;
    let slots = settle(&mut flats, alloc)?;
    let places = id_places(alloc, &flats)?;
    Ok(TemplateSet::of(flats, slots, places))
}
