//! Templates that repeat a name or an identifier.

ghost use Rattle.std.specs.Prelude.{◌≡◌, ◌≤◌, ◌⊎◌, IfOk, MatchResult, None, Ok, Some, [], false, is_some, length, map};
ghost use Rattle.std.specs.BTreeMap.{Updates, get};
ghost use Rattle.std.specs.Cmp.Lexicographic.{slice_cmp};
ghost use Rattle.std.specs.Ordering.{nat_cmp};
ghost use Rattle.fast_load.specs.Duplicates.{EntersId, NamesLead, first_duplicate, has_entry};
ghost use Rattle.fast_written.specs.LoadFaults.{want_of_memory as want_of_memory_of};
ghost use Rattle.fast_load.specs.Phases.{IsFirstOf, Passes};
ghost use Rattle.fast_written.specs.Written.{written_template_of};

use fast_value::Name;
use fast_written::{LoadCause, LoadFault, Template, fault_at, want_of_memory};
use std::alloc::{AllocError, Global};
use std::collections::BTreeMap;

/// Where the name of each template stands.
///
/// # Errors
///
/// The first fault of names or identifiers that are repeated, or want of memory.
pub(crate) fn check_duplicates(
    alloc: Global,
    templates: &[Template],
) -> Result<BTreeMap<Name, u32>, LoadFault>
    requires { length templates.now ≤ 65535 }
    ensures { MatchResult result
        (λ names. Passes (map written_template_of templates.now) 2
        × NamesLead names (map written_template_of templates.now))
        (λ fault. IsFirstOf (map written_template_of templates.now) 2 fault
        ⊎ (fault ≡ want_of_memory_of)) }
{
    match index_names(alloc, templates) {
        Ok(Ok(names)) => Ok(names),
        Ok(Err(fault)) => Err(fault),
        Err(AllocError) => Err(want_of_memory()),
    }
}

// Where the name of each template stands, or the first template that repeats a name or an identifier.
fn index_names(
    alloc: Global,
    templates: &[Template],
) -> Result<Result<BTreeMap<Name, u32>, LoadFault>, AllocError>
    requires { length templates.now ≤ 65535 }
    ensures { IfOk result (λ answer. MatchResult answer
        (λ names. (first_duplicate [] (map written_template_of templates.now) 1 ≡ None)
        × NamesLead names (map written_template_of templates.now))
        (λ fault. first_duplicate [] (map written_template_of templates.now) 1 ≡ Some fault)) }
{
    let mut names = BTreeMap::new(alloc);
    let mut ids = BTreeMap::new(alloc);
    let mut place: u32 = 0;
    for template in templates {
        let name = Name::of(alloc, &template.name)?;
        if enter_name(&mut names, name, place)? {
            return Ok(Err(fault_at(LoadCause::DuplicateName, place + 1, 0)));
        }
        if enter_id(&mut ids, template.id, place)? {
            return Ok(Err(fault_at(LoadCause::DuplicateId, place + 1, 0)));
        }
        place += 1;
    }
    Ok(Ok(names))
}

// Enters the place of a name, or answers that it has one.
fn enter_name(names: &mut BTreeMap<Name, u32>, name: Name, place: u32) -> Result<bool, AllocError>
    ensures repeats { IfOk result (λ repeats. repeats
        ≡ is_some (get (slice_cmp nat_cmp) names.old name)) }
    ensures updates { result ≡ Ok false
        → Updates (slice_cmp nat_cmp) names.old names.new name (Some place) }
{
    if names.contains_key(&name) {
        return Ok(true);
    }
    names.insert(name, place)?;
    Ok(false)
}

// Enters the place of an identifier, where there is one, or answers that it has one.
fn enter_id(ids: &mut BTreeMap<u32, u32>, id: Option<u32>, place: u32) -> Result<bool, AllocError>
    ensures repeats { IfOk result (λ repeats. repeats ≡ has_entry ids.old id) }
    ensures updates { result ≡ Ok false → EntersId ids.old ids.new id place }
{
    match id {
        Some(id) => {
            if ids.contains_key(&id) {
                return Ok(true);
            }
            ids.insert(id, place)?;
            Ok(false)
        }
        None => Ok(false),
    }
}
