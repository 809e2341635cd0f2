//! Fields and names, put into rooms that a caller lends.

ghost use Rattle.std.specs.Prelude.{◌≡◌, length};
ghost use Rattle.fast_template.specs.TemplateSets.{templates_in};
ghost use Rattle.fast_layout.specs.Rooms.{PutsFields};

use crate::field::Field;
use crate::layout::lay_out;
use fast_template::TemplateSet;
use std::alloc::Global;

/// How many templates, fields and bytes of names there are. A template is a field too.
#[repr(C)]
#[derive(Clone, Copy)]
pub struct Sizes {
    pub templates: u64,
    pub fields: u64,
    pub names: u64,
}

/// Why nothing was put.
#[derive(Clone, Copy)]
pub enum LayoutFault {
    /// A room is too short for so many.
    Room(Sizes),
    /// An allocation was refused.
    Memory,
}

/// Puts the fields of a set and their names into the fronts of two rooms, and says how many there are.
///
/// # Errors
///
/// The rooms are as they were.
///
/// - `Room`: a room is too short; how many fields and bytes there are.
/// - `Memory`: an allocation was refused.
pub fn put_fields(
    alloc: Global,
    set: &TemplateSet,
    fields: &mut [Field],
    names: &mut [u8],
) -> Result<Sizes, LayoutFault>
    ensures { PutsFields (templates_in set.now) fields.old fields.new names.old names.new result }
{
    let layout = match lay_out(alloc, set) {
        Ok(layout) => layout,
        Err(_) => return Err(LayoutFault::Memory),
    };
    let sizes = Sizes {
        templates: set.templates().len() as u64,
        fields: layout.fields.len() as u64,
        names: layout.names.len() as u64,
    };
    if fields.len() < layout.fields.len() || names.len() < layout.names.len() {
        return Err(LayoutFault::Room(sizes));
    }
    fields[..layout.fields.len()].copy_from_slice(&layout.fields);
    names[..layout.names.len()].copy_from_slice(&layout.names);
    Ok(sizes)
}
