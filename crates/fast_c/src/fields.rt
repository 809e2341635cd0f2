//! The fields of the templates behind a handle.

ghost use Rattle.std.specs.Prelude.{◌≡◌, Option, Result, option_map};
ghost use Rattle.fast_kept.specs.Sets.{set_of};
ghost use Rattle.fast_layout.specs.declared.rooms.LayoutFault.{LayoutFault as LayoutFaultOf};
ghost use Rattle.fast_layout.specs.declared.rooms.Sizes.{Sizes as SizesOf};
ghost use Rattle.fast_c.specs.Fields.{PutsOf, sizes_told as sizes_told_lem, status_told as status_told_lem};

use fast_kept::{Handle, Kept, set_in};
use fast_layout::{Field, LayoutFault, Sizes, put_fields};
use std::alloc::Global;

/// Puts the fields of the set that is held, and their names, into rooms; none where there is no set.
fn put_held(
    alloc: Global,
    held: &Option<Box<Kept>>,
    fields: &mut [Field],
    names: &mut [u8],
) -> Option<Result<Sizes, LayoutFault>>
    ensures { PutsOf (set_of (option_map (λ b. b.value) held.now)) fields.old fields.new names.old names.new result }
{
    match set_in(held) {
        Some(set) => Some(put_fields(alloc, set.set(), fields, names)),
        None => None,
    }
}

/// The status that C is answered.
fn status_told(done: &Option<Result<Sizes, LayoutFault>>) -> u32
    ensures { result ≡ status_told_lem done.now }
{
    match done {
        Some(Ok(_)) => 0,
        Some(Err(LayoutFault::Room(_))) => 3,
        Some(Err(LayoutFault::Memory)) => 4,
        None => 8,
    }
}

/// How many there are, as C is told.
fn sizes_told(done: &Option<Result<Sizes, LayoutFault>>) -> Sizes
    ensures { result ≡ sizes_told_lem done.now }
{
    match done {
        Some(Ok(sizes)) | Some(Err(LayoutFault::Room(sizes))) => *sizes,
        Some(Err(LayoutFault::Memory)) | None => Sizes {
            templates: 0,
            fields: 0,
            names: 0,
        },
    }
}

/// Puts the fields of the templates of a handle, and their names, into the fronts of two rooms, says how many there are, and
/// answers the status.
#[unsafe(no_mangle)]
pub extern "C" fn fastcat_set_fields(
    alloc: Global,
    set: &mut Handle,
    fields: &mut [Field],
    names: &mut [u8],
    sizes: &mut Sizes,
) -> u32
    ensures answer { (done : Option (Result SizesOf LayoutFaultOf))
        × PutsOf (set_of set.old.value) fields.old fields.new names.old names.new done
        × (sizes.new ≡ sizes_told_lem done) × (result ≡ status_told_lem done) }
    ensures same { set.new.value ≡ set.old.value }
{
    let held = set.take(alloc);
    let done = put_held(alloc, &held, fields, names);
    set.put(alloc, held);
    *sizes = sizes_told(&done);
    status_told(&done)
}
