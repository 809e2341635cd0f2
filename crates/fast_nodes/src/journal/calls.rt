//! The calls of a journal.

ghost use Rattle.std.specs.Prelude.{◌≡◌, Option, [], IsTrue, MatchResult};
ghost use Rattle.std.specs.FinMap as finite;
ghost use Rattle.std.specs.Option.{option_copied};
ghost use Rattle.fast_value.specs.declared.scalar.Scalar.{Scalar as ScalarOf};
ghost use Rattle.fast_dictionary.specs.Dictionary.{Dictionary, entry_at};
ghost use Rattle.fast_stream.specs.Bodies.{written};
ghost use Rattle.fast_nodes.specs.Added.{CanTryPart, Changed, IsValuePut, NoValuePut, Puts, books_of, of_part};
ghost use Rattle.fast_writer.specs.Levels.{level_of};

use crate::fault::{EncodeCause, EncodeFault};
use crate::journal::{Change, Journal};
use crate::put::{put_part, refuse};
use fast_dictionary::{Entries, Entry};
use fast_template::{FieldPart, Scalar};
use fast_writer::Segment;
use std::alloc::Global;

/// Appends the best form of a part's value to a segment, none where it is absent, and makes the part's entry the one
/// afterwards; answers the entry before.
///
/// # Errors
///
/// The part's refusal, and the entries are as they were. Memory: a growth was refused.
pub fn put_value<E: Entries>(
    alloc: Global,
    entries: &mut E,
    part: &FieldPart,
    value: Option<&Scalar>,
    level: &mut Segment,
) -> Result<Entry, EncodeFault>
    requires { CanTryPart (E.serves entries.now) (E.contents entries.now) part.now }
    ensures put { MatchResult result
        (λ before. IsValuePut part.now (option_copied value.entry) (E.contents entries.old)
        (level_of level.old) before (E.contents entries.new) (level_of level.new))
        (λ f. NoValuePut part.now (option_copied value.entry) (E.contents entries.old)
        (level_of level.old) (E.contents entries.new) f) }
    ensures same_keys { E.serves entries.new ≡ E.serves entries.old }
{
    match entries.entry_mut(&part.key) {
        Err(_) => Err(refuse(EncodeCause::Memory)),
        Ok(entry) => Ok(put_part(alloc, part, entry, value, level)?),
    }
}

/// Puts the entry of a part back that was written last. Takes no memory.
#[tactic(auto, using(crate::proofs::Changes::set_back, crate::proofs::Changes::still_undefined))]
pub fn put_back<E: Entries>(entries: &mut E, part: &FieldPart, before: Entry)
    requires served { IsTrue (E.serves entries.now part.now.key) }
    ensures back { (d : Dictionary) (v : Option ScalarOf) → before ≡ entry_at d part.now.key
        → E.contents entries.old ≡ written part.now d v → E.contents entries.new ≡ d }
    ensures same_keys { E.serves entries.new ≡ E.serves entries.old }
{
    // An entry is refused only where it is undefined, and then it was so before.
    if let Ok(entry) = entries.entry_mut(&part.key) {
        *entry = before;
    }
}

impl<'a, E: Entries> Journal<'a, E> {
    /// Entries of which nothing has been changed.
    pub fn new(alloc: Global, entries: E) -> Journal<'a, E>
        ensures entries { result.entries ≡ entries }
        ensures changes { result.changes.items ≡ [] }
    {
        Journal {
            entries,
            changes: Vec::new(alloc),
        }
    }

    /// Forgets what was changed: it is kept.
    pub fn keep(&mut self)
        ensures entries { self.new.entries ≡ self.old.entries }
        ensures changes { self.new.changes.items ≡ [] }
    {
        self.changes.clear();
    }

    /// Makes every entry undefined.
    pub fn reset(&mut self)
        ensures cleared { E.contents self.new.entries ≡ finite.empty }
        ensures same_keys { E.serves self.new.entries ≡ E.serves self.old.entries }
    {
        self.entries.reset();
    }

    /// Puts back what was changed, the last first. Takes no memory.
    #[tactic(auto, using(crate::proofs::Changes::changed_last))]
    pub fn put_back(&mut self)
        requires changed { (d : Dictionary) × Changed (E.serves self.now.entries)
            self.now.changes.items d (E.contents self.now.entries) }
        ensures back { (d : Dictionary) → Changed (E.serves self.old.entries)
            self.old.changes.items d (E.contents self.old.entries)
            → E.contents self.new.entries ≡ d }
        ensures same_keys { E.serves self.new.entries ≡ E.serves self.old.entries }
    {
        'changes: while let Some(change) = self.changes.pop() {
            put_back(&mut self.entries, change.part, change.before);
        }
    }

    /// Appends the best form of a part's value to a segment, none where it is absent, and makes the part's entry the
    /// one afterwards; that is one change more.
    pub(crate) fn put(
        &mut self,
        alloc: Global,
        part: &'a FieldPart,
        value: Option<&Scalar>,
        level: &mut Segment,
    ) -> Result<(), EncodeFault>
        requires { CanTryPart (E.serves self.now.entries) (E.contents self.now.entries) part.now }
        ensures { Puts (of_part part.now (option_copied value.entry))
            (books_of E.Entries self.old) (level_of level.old)
            (books_of E.Entries self.new) (level_of level.new) result }
    {
        if self.changes.reserve(1).is_err() {
            return Err(refuse(EncodeCause::Memory));
        }
        let before = put_value(alloc, &mut self.entries, part, value, level)?;
        self.changes.push(Change { part, before }).unwrap();
        Ok(())
    }
}
