//! What every kind of dictionary does.

ghost use Rattle.std.specs.Prelude.{◌≡◌, ◌≢◌, Bool, IsTrue, IfOk, OnOk, OnErr};
ghost use Rattle.std.specs.Borrow.{sem, LendsSoOk};
ghost use Rattle.std.specs.FinMap as map;
ghost use Rattle.fast_value.specs.declared.key.Key as key_type;
ghost use Rattle.fast_dictionary.specs.Dictionary.{Dictionary, entry_at, entry_of, set_entry, value_in};
ghost use Rattle.fast_dictionary.specs.contracts.entry.Entry as entry_type;
ghost use Rattle.fast_dictionary.specs.declared.entry.Entry.TheVariants.{Undefined};

use crate::entry::{Entry, EntryRef};
use crate::spare::Spare;
use fast_template::Key;
use std::alloc::{AllocError, Global};

/// The entries of all dictionaries: one finite map from keys, whichever way it is kept.
pub trait Entries: Drop {
    ghost contents: { Self → Dictionary };

    // The keys that the entries may be asked for. No call changes which these are.
    ghost serves: { Self → key_type.Key → Bool };

    // Whether an undefined entry may ask for memory where it is changed.
    ghost takes_memory: { Bool };

    /// The entry under a key.
    fn get(&self, key: &Key) -> EntryRef<'_>
        requires { IsTrue (serves self.now key.now) }
        ensures { entry_of result ≡ entry_at (contents self.now) key.now };

    /// The entry under a key, to be changed where it lies. Every other stays.
    ///
    /// # Errors
    ///
    /// Where memory is refused, and then nothing has changed. Only for an undefined entry is memory
    /// asked for.
    fn entry_mut(&mut self, key: &Key) -> Result<&mut Entry, AllocError>
        requires { IsTrue (serves self.old key.now) }
        ensures* writes_back { sem 𝓛 (LendsSoOk Self.row entry_type.the_row self.entry result
            (λ after entry. (contents after ≡ set_entry (contents self.entry.now) key.now entry)
            × (serves after ≡ serves self.entry.now))
            (λ after. (contents after ≡ contents self.entry.now)
            × (serves after ≡ serves self.entry.now))) }
        ensures value { IfOk result (λ entry. entry.now ≡ entry_at (contents self.old) key.now) }
        ensures refused { OnErr result (entry_at (contents self.old) key.now ≡ Undefined) }
        ensures granted { OnErr result (IsTrue takes_memory) };

    /// Puts an entry under a key, in place of the one that is there, and leaves every other.
    ///
    /// # Errors
    ///
    /// Where memory is refused, and then nothing has changed. Only for an undefined entry is memory
    /// asked for.
    fn put(&mut self, key: &Key, entry: Entry) -> Result<(), AllocError>
        requires served { IsTrue (serves self.old key.now) }
        requires defined { entry ≢ Undefined }
        ensures ok { OnOk result
            (contents self.new ≡ map.insert (contents self.old) key.now (value_in entry)) }
        ensures err { OnErr result (contents self.new ≡ contents self.old) }
        ensures refused { OnErr result (entry_at (contents self.old) key.now ≡ Undefined) }
        ensures granted { OnErr result (IsTrue takes_memory) }
        ensures same_keys { serves self.new ≡ serves self.old }
    {
        *self.entry_mut(key)? = entry;
        Ok(())
    }

    /// Makes every entry undefined.
    fn reset(&mut self)
        ensures cleared { contents self.new ≡ map.empty }
        ensures same_keys { serves self.new ≡ serves self.old };

    /// Makes every entry undefined, and keeps the memory of their strings where entries are reset often.
    fn reset_into(&mut self, _spare: &mut Spare)
        ensures cleared { contents self.new ≡ map.empty }
        ensures same_keys { serves self.new ≡ serves self.old }
    {
        self.reset();
    }

    /// The same entries once more.
    ///
    /// # Errors
    ///
    /// Where memory is refused.
    fn copy(&self, alloc: Global) -> Result<Self, AllocError>
        ensures same { IfOk result (λ other. contents other ≡ contents self.now) }
        ensures same_keys { IfOk result (λ other. serves other ≡ serves self.now) };
}
