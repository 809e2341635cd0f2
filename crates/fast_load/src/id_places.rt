//! Where the template of an identifier is.

ghost use Rattle.std.specs.Prelude.{◌≡◌, ◌≤◌, IfOk, OnOk, length};
ghost use Rattle.fast_load.specs.IdPlaces.{EntersPlace};
ghost use Rattle.fast_template.specs.Places.{FindsAll};

use fast_template::FlatTemplate;
use std::alloc::{AllocError, Global};
use std::collections::BTreeMap;

/// The place of the first template of each identifier, from 0.
///
/// # Errors
///
/// Where memory is refused.
pub(crate) fn id_places(
    alloc: Global,
    templates: &[FlatTemplate],
) -> Result<BTreeMap<u32, u32>, AllocError>
    requires { length templates.now ≤ 65535 }
    ensures { IfOk result (λ places. FindsAll places templates.now) }
{
    let mut places = BTreeMap::new(alloc);
    let mut place: u32 = 0;
    for template in templates {
        enter_place(&mut places, template.id, place)?;
        place += 1;
    }
    Ok(places)
}

// Enters the place of an identifier, where there is one and it has none.
fn enter_place(
    places: &mut BTreeMap<u32, u32>,
    id: Option<u32>,
    place: u32,
) -> Result<(), AllocError>
    ensures { OnOk result (EntersPlace places.old places.new id place) }
{
    if let Some(id) = id {
        if !places.contains_key(&id) {
            places.insert(id, place)?;
        }
    }
    Ok(())
}
