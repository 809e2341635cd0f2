//! How large flat lists are, before any is put together.

ghost use Rattle.std.specs.Prelude.{◌≡◌, ◌≤◌, ◌+◌, ℕ, IfOk, List, Some, drop, length, map, max, slice_get};
ghost use Rattle.std.specs.Option.{option_map_or};
ghost use Rattle.fast_load.specs.Duplicates.{place_or};
ghost use Rattle.fast_load.specs.Extents.{IsExtentOf, depth_named, depth_with, own_depth, own_size, size_named, size_with, stopped_depth, stopped_size, too_large};
ghost use Rattle.fast_load.specs.declared.extents.Extent as extent_type;
ghost use Rattle.fast_load.specs.FlatLists.{AreFlatLists};
ghost use Rattle.fast_load.specs.Initials.{Leads};
ghost use Rattle.fast_load.specs.Phases.{Passes};
ghost use Rattle.fast_load.specs.Links.{AreLinks, IsBuildOrder, references_in, referred_by};
ghost use Rattle.fast_template.specs.Resolved.{Instructions};
ghost use Rattle.fast_written.specs.Written.{WrittenTemplate, written_list, written_of, written_template_of};

use crate::in_order::in_order;
use crate::links::Links;
use fast_written::{Instruction, LoadCause, LoadFault, Template, fault_at};
use std::alloc::{AllocError, Global};

/// The size and depth of a list of instructions.
#[derive(Clone, Copy)]
pub(crate) struct Extent {
    /// How many instructions, those inside groups and sequences too; 65,536 for any number past
    /// 65,535.
    pub(crate) size: u32,
    /// In how many levels groups and sequences nest; 9 for any number past 8.
    pub(crate) depth: u32,
}

impl Extent {
    // Of no instructions.
    fn empty() -> Extent
        ensures { result ≡ record { size = 0; depth = 0 } }
    {
        Extent { size: 0, depth: 0 }
    }

    // Of one list after another.
    fn and(self, other: Extent) -> Extent
        ensures size { result.size ≡ stopped_size (self.size + other.size) }
        ensures depth { result.depth ≡ stopped_depth (max self.depth other.depth) }
    {
        Extent {
            size: self.size.saturating_add(other.size).min(65_536),
            depth: self.depth.max(other.depth).min(9),
        }
    }

    // Of this on a level.
    fn below(self, level: u32) -> Extent
        ensures size { result.size ≡ self.size }
        ensures depth { result.depth ≡ stopped_depth (level + self.depth) }
    {
        Extent {
            size: self.size,
            depth: self.depth.saturating_add(level).min(9),
        }
    }
}

/// The extent of the flat list of each template.
///
/// # Errors
///
/// Where memory is refused.
pub(crate) fn extents_of(
    alloc: Global,
    templates: &[Template],
    links: &[Vec<usize>],
    order: &[usize],
) -> Result<Vec<Extent>, AllocError>
    ghost place: { List ℕ → ℕ }
    requires places { (name : List ℕ)
        → place name ≡ place_or (map written_template_of templates.now) name }
    requires known { Passes (map written_template_of templates.now) 4 }
    requires linked { AreLinks templates.now links.now }
    requires in_order { IsBuildOrder (map written_template_of templates.now) order.now }
    ensures len { IfOk result (λ extents. length extents.items ≡ length templates.now) }
    ensures extents { IfOk result (λ extents. (stands : List ℕ → Instructions)
        → AreFlatLists (map written_template_of templates.now) stands
        → (a : ℕ) (w : WrittenTemplate) (e : extent_type.Extent)
        → slice_get (map written_template_of templates.now) a ≡ Some w
        → slice_get extents.items a ≡ Some e
        → IsExtentOf (stands w.name) e) }
{
    let mut extents = vec![in alloc; Extent::empty(); templates.len()]?;
    for place in order {
        let links = Links {
            rest: &links[*place],
        };
        let extent = extent_of_all(&templates[*place].members, links, &extents, alloc)?;
        extents[*place] = extent;
    }
    Ok(extents)
}

/// The first template whose flat list nests too deep, or with which the lists have too many
/// instructions.
pub(crate) fn first_too_large(extents: &[Extent]) -> Option<LoadFault>
    requires { length extents.now ≤ 65535 }
    ensures { result ≡ too_large extents.now 1 0 }
{
    let mut place: u32 = 1;
    let mut sum: u32 = 0;
    for extent in extents {
        if 8 < extent.depth {
            return Some(fault_at(LoadCause::TooDeep, place, 0));
        }
        sum = sum.saturating_add(extent.size);
        if 65_535 < sum {
            return Some(fault_at(LoadCause::TooMany, place, 0));
        }
        place += 1;
    }
    None
}

// The extent of instructions with those inside them.
fn extent_of_all(
    members: &[Instruction],
    links: Links<'_>,
    extents: &[Extent],
    alloc: Global,
) -> Result<Extent, AllocError>
    ghost place: { List ℕ → ℕ }
    requires { links.rest.now
        ≡ map place (references_in (written_list (map written_of members.now))) }
    ensures size { IfOk result (λ e. e.size ≡ stopped_size (size_with
        (size_named place extents.now) (written_list (map written_of members.now)))) }
    ensures depth { IfOk result (λ e. e.depth ≡ stopped_depth (depth_with
        (depth_named place extents.now) (written_list (map written_of members.now)))) }
{
    let list = in_order(alloc, members)?;
    let mut links = links;
    let mut extent = Extent::empty();
    for found in &list {
        let own = own_extent(found.instruction, &mut links, extents);
        extent = extent.and(own.below(found.level));
    }
    Ok(extent)
}

// What an instruction itself adds, without its members.
fn own_extent(instruction: &Instruction, links: &mut Links<'_>, extents: &[Extent]) -> Extent
    ghost place: { List ℕ → ℕ }
    requires { Leads (map place (referred_by (written_of instruction.now))) links.old.rest.now }
    ensures size { result.size ≡ own_size (size_named place extents.now)
        (written_of instruction.now) }
    ensures depth { result.depth ≡ own_depth (depth_named place extents.now)
        (written_of instruction.now) }
    ensures rest { links.new.rest.now
        ≡ drop (length (referred_by (written_of instruction.now))) links.old.rest.now }
{
    match instruction {
        Instruction::Field { .. } | Instruction::Parts { .. } => Extent { size: 1, depth: 0 },
        Instruction::Group { .. } | Instruction::Sequence { .. } => Extent { size: 1, depth: 1 },
        Instruction::Reference { .. } => extent_at(links.take_next(), extents),
    }
}

// The extent of the list at a place.
fn extent_at(place: usize, extents: &[Extent]) -> Extent
    ensures size { result.size ≡ option_map_or (λ e. e.size) (slice_get extents.now place) 0 }
    ensures depth { result.depth ≡ option_map_or (λ e. e.depth) (slice_get extents.now place) 0 }
{
    match extents.get(place) {
        Some(extent) => *extent,
        None => Extent::empty(),
    }
}
