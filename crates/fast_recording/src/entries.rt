//! Entries that are reset often.

ghost use Rattle.std.specs.Prelude.{◌≡◌, ◌≢◌, ◌≤◌, ◌*◌, ◌/◌, ◌^◌, Contains, IfOk, IsTrue, false, true, slice_index_or, vec_len, ℕ};
ghost use Rattle.fast_dictionary.specs.declared.entry.Entry.TheVariants.{Undefined};
ghost use Rattle.std.specs.FinMap as map;
ghost use Rattle.fast_value.specs.declared.key.Key.{Key as KeyOf};
ghost use Rattle.fast_template.specs.TemplateSets.{keys_in};
ghost use Rattle.fast_dictionary.specs.Slots.{AllUndefined, AreBelow, HaveOwnSlots, dictionary_in, is_key_in};
ghost use Rattle.fast_recording.specs.Touched.{AreTouched};

use crate::touched::{GROUP, Touched};
use fast_dictionary::{Entries, Entry, EntryRef, Spare};
use fast_template::{Key, TemplateSet};
use std::alloc::{AllocError, Global};
use std::mem;

/// Entries of the keys of one template set, in a vector by slot. A reset looks only at those that were asked for to be
/// changed since the one before, and their neighbours.
#[derive(Drop)]
pub struct PacketEntries<'a> {
    alloc: Global,
    set: &'a TemplateSet,
    entries: Vec<Entry>,
    touched: Touched,
    ghost one_each: { vec_len entries ≡ set.now.slots },
    ghost below: { AreBelow set.now },
    ghost own_slots: { HaveOwnSlots set.now },
    ghost noted: { AreTouched entries.items touched.groups.items },
    ghost room: { vec_len entries ≤ 32 * vec_len touched.groups },
    ghost few: { vec_len touched.groups ≤ 2 ^ 28 },
}

impl<'a> PacketEntries<'a> {
    /// Entries that are all undefined, for the keys of a set.
    ///
    /// # Errors
    ///
    /// Where memory is refused.
    pub fn new(alloc: Global, set: &'a TemplateSet) -> Result<PacketEntries<'a>, AllocError>
        ensures empty { IfOk result
            (λ s. ⟦<PacketEntries<'a> as Entries>⟧.contents s ≡ map.empty) }
        ensures keys { IfOk result
            (λ s. ⟦<PacketEntries<'a> as Entries>⟧.serves s ≡ is_key_in set.now) }
        ensures serves_all { IfOk result (λ s. (k : KeyOf) → Contains (keys_in set.now) k
            → IsTrue (⟦<PacketEntries<'a> as Entries>⟧.serves s k)) }
    {
        let slots = set.slots();
        let touched = Touched::new(alloc, slots)?;
        let mut entries = Vec::with_capacity(alloc, slots as usize)?;
        for _ in 0..slots {
            entries.push(Entry::Undefined)?;
        }
        Ok(PacketEntries {
            alloc,
            set,
            entries,
            touched,
        })
    }
}

impl Entries for PacketEntries<'_> {
    ghost contents = { λ s. dictionary_in s.set.now s.entries.items };

    ghost serves = { λ s. is_key_in s.set.now };

    ghost takes_memory = { false };

    #[inline(always)]
    fn get(&self, key: &Key) -> EntryRef<'_> {
        self.entries[key.slot as usize].view()
    }

    #[inline(always)]
    fn entry_mut(&mut self, key: &Key) -> Result<&mut Entry, AllocError> {
        self.touched.note(key.slot);
        Ok(&mut self.entries[key.slot as usize])
    }

    fn reset(&mut self) {
        let mut spare = Spare::new(self.alloc);
        self.reset_into(&mut spare);
    }

    fn reset_into(&mut self, spare: &mut Spare) {
        undefine(&mut self.entries, &mut self.touched.groups, spare);
    }

    fn copy(&self, alloc: Global) -> Result<Self, AllocError> {
        let entries = copies(&self.entries, alloc)?;
        let touched = self.touched.copy(alloc)?;
        Ok(PacketEntries {
            alloc,
            set: self.set,
            entries,
            touched,
        })
    }
}

#[inline(always)]
fn is_undefined(entry: &Entry) -> bool
    ensures { result ≡ true → entry.now ≡ Undefined }
{
    match entry {
        Entry::Undefined => true,
        Entry::Empty | Entry::Assigned(_) => false,
    }
}

// Makes the entries of a group undefined, and keeps the memory of their strings.
fn undefine_group(entries: &mut Vec<Entry>, group: usize, spare: &mut Spare)
    requires few { group ≤ 2 ^ 28 }
    ensures undefined { (n : ℕ) → n / 32 ≡ group → slice_index_or entries.new.items n Undefined ≡ Undefined }
    ensures others { (n : ℕ) → n / 32 ≢ group
        → slice_index_or entries.new.items n Undefined ≡ slice_index_or entries.old.items n Undefined }
    ensures len { vec_len entries.new ≡ vec_len entries.old }
{
    let first = group * GROUP;
    let end = entries.len().min(first + GROUP);
    for slot in first..end {
        // (most are, and to look costs less than to write)
        if !is_undefined(&entries[slot]) {
            spare.keep_entry(mem::replace(&mut entries[slot], Entry::Undefined));
        }
    }
}

// Makes every entry undefined, where those that are not have been noted, and forgets which were.
fn undefine(entries: &mut Vec<Entry>, groups: &mut Vec<bool>, spare: &mut Spare)
    requires touched { AreTouched entries.now.items groups.now.items }
    requires few { vec_len groups.now ≤ 2 ^ 28 }
    ensures undefined { AllUndefined entries.new.items }
    ensures len { vec_len entries.new ≡ vec_len entries.old }
    ensures groups { vec_len groups.new ≡ vec_len groups.old }
{
    for group in 0..groups.len() {
        if groups[group] {
            undefine_group(entries, group, spare);
            groups[group] = false;
        }
    }
}

// The same entries once more.
fn copies(entries: &[Entry], alloc: Global) -> Result<Vec<Entry>, AllocError>
    ensures { IfOk result (λ copy. copy.items ≡ entries.now) }
{
    let mut copy = Vec::with_capacity(alloc, entries.len())?;
    for entry in entries {
        copy.push(entry.view().copy(alloc)?)?;
    }
    Ok(copy)
}
