//! Numbers and slots of a set's instructions.

ghost use Rattle.std.specs.Prelude.{◌≡◌, ◌≤◌, ◌∷◌, Contains, IfOk, OnOk, map};
ghost use Rattle.std.specs.List.{AllByRecursion};
ghost use Rattle.fast_value.specs.declared.key.Key as key_type;
ghost use Rattle.fast_template.specs.Resolved.{list_of, numbered, resolved_of, size_of, with_keys};
ghost use Rattle.fast_load.specs.Slots.{AreSettled, EntersKeys, settled, slot_in};
ghost use Rattle.fast_template.specs.TemplateSets.{HasSlots, identifier_key, keys_of_all};

use crate::numbers::number_all;
use crate::slots::{enter_keys, first_slots, give_slots, next_slot};
use fast_template::{Flat, FlatTemplate};
use fast_value::Key;
use std::alloc::{AllocError, Global};
use std::collections::BTreeMap;

/// Numbers the instructions of each template from 1, gives each key its slot, and answers the number of slots.
///
/// # Errors
///
/// Where memory is refused.
pub(crate) fn settle(templates: &mut [FlatTemplate], alloc: Global) -> Result<u32, AllocError>
    requires small { AllByRecursion (λ r. size_of r.members ≤ 65535)
        (map resolved_of templates.old) }
    requires bare { (k : key_type.Key)
        → Contains (keys_of_all (map resolved_of templates.old)) k → k.slot ≡ 0 }
    ensures settled { OnOk result (AreSettled (map resolved_of templates.old)
        (map resolved_of templates.new)) }
    ensures slots { IfOk result (λ slots. HasSlots (identifier_key ∷ keys_of_all
        (map resolved_of templates.new)) slots) }
{
    let mut slots = first_slots(alloc)?;
    enter_all(templates, &mut slots, alloc)?;
    settle_all(templates, &slots);
    next_slot(&slots)
}

fn enter_all(
    templates: &[FlatTemplate],
    slots: &mut BTreeMap<Key, u32>,
    alloc: Global,
) -> Result<(), AllocError>
    ensures { OnOk result (EntersKeys slots.old slots.new (keys_of_all
        (map resolved_of templates.now))) }
{
    for template in templates {
        enter_keys(&template.members, slots, alloc)?;
    }
    Ok(())
}

fn settle_all(templates: &mut [FlatTemplate], slots: &BTreeMap<Key, u32>)
    requires { AllByRecursion (λ r. size_of r.members ≤ 65535) (map resolved_of templates.old) }
    ensures { map resolved_of templates.new
        ≡ map (settled (slot_in slots.now)) (map resolved_of templates.old) }
{
    for template in templates.iter_mut() {
        settle_one(template, slots);
    }
}

fn settle_one(template: &mut FlatTemplate, slots: &BTreeMap<Key, u32>)
    requires { size_of (list_of template.old.members.items) ≤ 65535 }
    ensures { resolved_of template.new ≡ settled (slot_in slots.now) (resolved_of template.old) }
{
    settle_members(&mut template.members, slots);
}

fn settle_members(members: &mut [Flat], slots: &BTreeMap<Key, u32>)
    requires { size_of (list_of members.old) ≤ 65535 }
    ensures { list_of members.new
        ≡ numbered 1 (with_keys (λ k. record k { slot = slot_in slots.now k })
        (list_of members.old)) }
{
    give_slots(members, slots);
    number_all(members, 1);
}
