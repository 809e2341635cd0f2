//! The places that references lead to, and an order of templates by these.

ghost use Rattle.std.specs.Prelude.{◌≡◌, ◌≤◌, ◌<◌, ◌+◌, IfOk, MatchResult, drop, get_or, length, map};
ghost use Rattle.fast_written.specs.declared.fault.LoadCause.TheVariants.{Cycle};
ghost use Rattle.fast_load.specs.Phases.{IsFirstOf, Passes};
ghost use Rattle.fast_load.specs.Links.{AreLinks, IsBuildOrder};
ghost use Rattle.fast_written.specs.Written.{written_template_of};

use fast_order::order_of;
use fast_written::{LoadCause, LoadFault, Template, fault_at};
use std::alloc::{AllocError, Global};

/// Places that references lead to and that are still to be taken, in the order of the references.
#[derive(Drop)]
pub(crate) struct Links<'a> {
    pub(crate) rest: &'a [usize],
}

impl Links<'_> {
    /// The next one, or 0 past the last.
    pub(crate) fn take_next(&mut self) -> usize
        ensures place { result ≡ get_or self.old.rest.now 0 0 }
        ensures rest { self.new.rest.now ≡ drop 1 self.old.rest.now }
    {
        match self.rest.split_first() {
            Some((first, rest)) => {
                self.rest = rest;
                *first
            }
            None => 0,
        }
    }
}

/// The places of templates in an order in which each stands behind those that it refers to, or the
/// fault of the first template that lies on a cycle.
///
/// # Errors
///
/// Where memory is refused.
pub(crate) fn build_order(
    alloc: Global,
    templates: &[Template],
    links: &[Vec<usize>],
) -> Result<Result<Vec<usize>, LoadFault>, AllocError>
    requires few { length templates.now ≤ 65535 }
    requires linked { AreLinks templates.now links.now }
    requires differ { Passes (map written_template_of templates.now) 2 }
    requires known { Passes (map written_template_of templates.now) 4 }
    ensures { IfOk result (λ answer. MatchResult answer
        (λ order. IsBuildOrder (map written_template_of templates.now) order.items
        × Passes (map written_template_of templates.now) 5)
        (λ fault. IsFirstOf (map written_template_of templates.now) 5 fault)) }
{
    match order_of(alloc, links)? {
        Ok(order) => Ok(Ok(order)),
        Err(first) => Ok(Err(cycle_at(first))),
    }
}

// The fault of a template on a cycle, at a place from 0.
fn cycle_at(place: usize) -> LoadFault
    requires { place < 65535 }
    ensures { result ≡ record { cause = Cycle; template = place + 1; instruction = 0 } }
{
    fault_at(LoadCause::Cycle, place as u32 + 1, 0)
}
