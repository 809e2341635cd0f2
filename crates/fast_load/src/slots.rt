//! A slot for each key of a set.

ghost use Rattle.std.specs.Prelude.{◌≡◌, ◌∷◌, [], IfOk, OnOk};
ghost use Rattle.std.specs.BTreeMap.{btree_map_len};
ghost use Rattle.fast_template.specs.Resolved.{instruction_of, keys_of, keys_of_one, list_of, with_key, with_keys, with_keys_of_one};
ghost use Rattle.fast_load.specs.Slots.{AreSlots, EntersKeys, slot_in};
ghost use Rattle.fast_template.specs.TemplateSets.{identifier_key};

use fast_template::{FieldPart, Flat};
use fast_value::{Key, Name, Part, Scope};
use std::alloc::{AllocError, Global};
use std::collections::BTreeMap;

/// The slot of the template identifier's key, and of no other.
///
/// # Errors
///
/// Where memory is refused.
pub(crate) fn first_slots(alloc: Global) -> Result<BTreeMap<Key, u32>, AllocError>
    ensures slots { IfOk result (λ slots. AreSlots slots (identifier_key ∷ [])) }
    ensures len { IfOk result (λ slots. btree_map_len slots ≡ 1) }
{
    let mut slots = BTreeMap::new(alloc);
    let identifier = Key {
        slot: 0,
        scope: Scope::Global,
        name: Name::empty(),
        part: Part::Whole,
    };
    slots.insert(identifier, 0)?;
    Ok(slots)
}

/// The slot after those that are taken: how many are.
///
/// # Errors
///
/// Past 32 bits: no machine has the memory for so many keys.
pub(crate) fn next_slot(slots: &BTreeMap<Key, u32>) -> Result<u32, AllocError>
    ensures { IfOk result (λ slot. slot ≡ btree_map_len slots.now) }
{
    match u32::try_from(slots.len()) {
        Ok(slot) => Ok(slot),
        Err(_) => Err(AllocError),
    }
}

// A slot for one more key, where it has none.
fn enter_key(key: &Key, slots: &mut BTreeMap<Key, u32>, alloc: Global) -> Result<(), AllocError>
    ensures { OnOk result (EntersKeys slots.old slots.new (key.now ∷ [])) }
{
    if slots.contains_key(key) {
        return Ok(());
    }
    let slot = next_slot(slots)?;
    slots.insert(key.copy()?, slot)?;
    Ok(())
}

/// A slot for each key of these instructions that has none yet.
///
/// # Errors
///
/// Where memory is refused.
#[cycle(entering)]
pub(crate) fn enter_keys(
    flats: &[Flat],
    slots: &mut BTreeMap<Key, u32>,
    alloc: Global,
) -> Result<(), AllocError>
    ensures { OnOk result (EntersKeys slots.old slots.new (keys_of (list_of flats.now))) }
{
    for flat in flats {
        enter_keys_of_one(flat, slots, alloc)?;
    }
    Ok(())
}

#[cycle(entering)]
fn enter_keys_of_one(
    flat: &Flat,
    slots: &mut BTreeMap<Key, u32>,
    alloc: Global,
) -> Result<(), AllocError>
    ensures { OnOk result (EntersKeys slots.old slots.new (keys_of_one (instruction_of flat.now))) }
{
    match flat {
        Flat::Field { whole, .. } => enter_key(&whole.key, slots, alloc),
        Flat::Parts {
            exponent,
            mantissa,
            ..
        } => {
            enter_key(&exponent.key, slots, alloc)?;
            enter_key(&mantissa.key, slots, alloc)
        }
        Flat::Group { members, .. } => enter_keys(members, slots, alloc),
        Flat::Sequence {
            length,
            members,
            ..
        } => {
            enter_key(&length.key, slots, alloc)?;
            enter_keys(members, slots, alloc)
        }
    }
}

// Gives the key of a part its slot.
fn give_slot(part: &mut FieldPart, slots: &BTreeMap<Key, u32>)
    ensures { part.new ≡ with_key (λ k. record k { slot = slot_in slots.now k }) part.old }
{
    part.key.slot = match slots.get(&part.key) {
        Some(slot) => *slot,
        None => 0,
    };
}

/// Gives each key of these instructions its slot, or 0 where it has none.
#[cycle(giving)]
pub(crate) fn give_slots(flats: &mut [Flat], slots: &BTreeMap<Key, u32>)
    ensures { list_of flats.new
        ≡ with_keys (λ k. record k { slot = slot_in slots.now k }) (list_of flats.old) }
{
    for flat in flats.iter_mut() {
        give_slots_to_one(flat, slots);
    }
}

#[cycle(giving)]
fn give_slots_to_one(flat: &mut Flat, slots: &BTreeMap<Key, u32>)
    ensures { instruction_of flat.new
        ≡ with_keys_of_one (λ k. record k { slot = slot_in slots.now k })
        (instruction_of flat.old) }
{
    match flat {
        Flat::Field { whole, .. } => give_slot(whole, slots),
        Flat::Parts {
            exponent,
            mantissa,
            ..
        } => {
            give_slot(exponent, slots);
            give_slot(mantissa, slots);
        }
        Flat::Group { members, .. } => give_slots(members, slots),
        Flat::Sequence {
            length,
            members,
            ..
        } => {
            give_slot(length, slots);
            give_slots(members, slots);
        }
    }
}
