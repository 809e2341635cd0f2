//! Entries in an ordered map.

ghost use Rattle.std.specs.Prelude.{◌≡◌, true, Some, None, IsSome, OnErr, OnOk};
ghost use Rattle.std.specs.BTreeMap.{get};
ghost use Rattle.std.specs.FinMap as map;
ghost use Rattle.fast_value.specs.Key.{key_cmp};
ghost use Rattle.fast_dictionary.specs.Dictionary.{from_pairs, set_entry};

use crate::entries::Entries;
use crate::entry::{Entry, EntryRef};
use fast_template::Key;
use std::alloc::{AllocError, Global};
use std::collections::BTreeMap;
use std::marker::Model;

/// Entries in an ordered map: look-ups take time that grows with the logarithm of their number.
#[derive(Drop)]
pub struct MapEntries {
    alloc: Global,
    // a key with an undefined entry is as good as none
    entries: BTreeMap<Key, Entry>,
}

impl Model for MapEntries {
    ghost use Rattle.fast_dictionary.specs.Dictionary.{Dictionary, dictionary_code, from_pairs};

    ghost Value = { Dictionary };

    ghost coded = { dictionary_code };

    ghost view = { λ m. from_pairs m.entries.entries };
}

impl MapEntries {
    /// Entries that are all undefined. Takes no memory.
    pub fn new(alloc: Global) -> MapEntries
        ensures { result ≡ map.empty }
    {
        MapEntries {
            alloc,
            entries: BTreeMap::new(alloc),
        }
    }
}

impl Entries for MapEntries {
    ghost contents = { λ m. m };

    ghost serves = { λ m k. true };

    ghost takes_memory = { true };

    fn get(&self, key: &Key) -> EntryRef<'_> {
        match self.entries.get(key) {
            None => EntryRef::Undefined,
            Some(entry) => entry.view(),
        }
    }

    fn entry_mut(&mut self, key: &Key) -> Result<&mut Entry, AllocError> {
        if let Err(error) = hold(&mut self.entries, key, self.alloc) {
            return Err(error);
        }
        match self.entries.get_mut(key) {
            Some(entry) => Ok(entry),
            None => Err(AllocError),
        }
    }

    fn reset(&mut self) {
        self.entries.clear();
    }

    fn copy(&self, alloc: Global) -> Result<MapEntries, AllocError> {
        let mut entries = BTreeMap::new(alloc);
        for (key, entry) in self.entries.iter().rev() {
            let entry = entry.view().copy(alloc)?;
            set(&mut entries, key.copy()?, entry)?;
        }
        Ok(MapEntries { alloc, entries })
    }
}

// Makes room for the entry of a key, where there is none.
fn hold(entries: &mut BTreeMap<Key, Entry>, key: &Key, alloc: Global) -> Result<(), AllocError>
    ensures same { from_pairs entries.new.entries ≡ from_pairs entries.old.entries }
    ensures there { OnOk result (IsSome (get key_cmp entries.new key.now)) }
    ensures refused { OnErr result (get key_cmp entries.old key.now ≡ None) }
{
    if !entries.contains_key(key) {
        set(entries, key.copy()?, Entry::Undefined)?;
    }
    Ok(())
}

// Sets the entry of a key, in place of the one that is there.
fn set(entries: &mut BTreeMap<Key, Entry>, key: Key, entry: Entry) -> Result<(), AllocError>
    ensures ok { OnOk result
        (from_pairs entries.new.entries ≡ set_entry (from_pairs entries.old.entries) key entry) }
    ensures there { OnOk result (get key_cmp entries.new key ≡ Some entry) }
    ensures err { OnErr result (from_pairs entries.new.entries ≡ from_pairs entries.old.entries) }
{
    entries.insert(key, entry)?;
    Ok(())
}
