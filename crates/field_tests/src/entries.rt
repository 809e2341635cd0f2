//! Entries through the trait, over both kinds, and copies of references.

ghost use Rattle.std.specs.Prelude.{◌≡◌, Contains, IfSome, IsTrue};
ghost use Rattle.fast_template.specs.Resolved.{instruction_of, keys_of_one};
ghost use Rattle.fast_template.specs.TemplateSets.{keys_in};

use crate::base::*;
use fast_build::{Load, LoadCause, LoadFault};
use fast_dictionary::{Entries, Entry, EntryRef, MapEntries, SlotEntries, Spare};
use fast_template::{Flat, Key, Name, Part, Scalar, Scope, TemplateSet, UnicodeText};

fn key(alloc: Global, slot: u32, name: &str) -> Tried<Key> {
    Ok(Key {
        slot,
        scope: Scope::Global,
        name: Name::of(alloc, name)?,
        part: Part::Whole,
    })
}

const TEXT: &str = "é";

fn text(alloc: Global) -> Tried<Scalar> {
    let text = String::from_str(alloc, TEXT)?;
    Ok(Scalar::Unicode(UnicodeText::from_string(text)))
}

// What is wanted of an entry: that it is undefined, or empty, or has that text.
#[derive(Drop)]
enum Wanted {
    Undefined,
    Empty,
    Text,
}

fn agree(entry: EntryRef, wanted: Wanted) -> bool {
    match (entry, wanted) {
        (EntryRef::Undefined, Wanted::Undefined) | (EntryRef::Empty, Wanted::Empty) => true,
        (EntryRef::Assigned(Scalar::Unicode(text)), Wanted::Text) => text.as_str() == TEXT,
        _ => false,
    }
}

// The entry of a key is as wanted.
fn is<E: Entries>(rt: &impl Abort, entries: &E, key: &Key, wanted: Wanted)
    requires { IsTrue (E.serves entries.now key.now) }
{
    same(rt, agree(entries.get(key), wanted), true);
}

// Puts the text under a key. A refusal changes nothing, and where there is memory again, the text is put.
fn put_text<E: Entries>(rt: &impl Abort, alloc: Global, entries: &mut E, key: &Key) -> Tried
    requires { IsTrue (E.serves entries.old key.now) }
    ensures { E.serves entries.new ≡ E.serves entries.old }
{
    if entries.put(key, Entry::Assigned(text(alloc)?)).is_err() {
        is(rt, entries, key, Wanted::Undefined);
        let again = entries.put(key, Entry::Assigned(text(alloc)?));
        same(rt, again.is_ok(), true);
        is(rt, entries, key, Wanted::Text);
        return Err(AllocError);
    }
    Ok(())
}

// Puts the text under two keys, and an empty entry in place of the first.
fn fill<E: Entries>(rt: &impl Abort, alloc: Global, entries: &mut E, one: &Key, two: &Key) -> Tried
    requires one { IsTrue (E.serves entries.old one.now) }
    requires two { IsTrue (E.serves entries.old two.now) }
    ensures { E.serves entries.new ≡ E.serves entries.old }
{
    is(rt, entries, one, Wanted::Undefined);
    put_text(rt, alloc, entries, one)?;
    put_text(rt, alloc, entries, two)?;
    same(rt, entries.put(one, Entry::Empty).is_ok(), true);
    is(rt, entries, one, Wanted::Empty);
    is(rt, entries, two, Wanted::Text);
    Ok(())
}

// Changes the second entry and then resets all, beside a copy from before.
fn edit<E: Entries>(rt: &impl Abort, alloc: Global, entries: &mut E, one: &Key, two: &Key) -> Tried
    requires one { IsTrue (E.serves entries.old one.now) }
    requires two { IsTrue (E.serves entries.old two.now) }
    ensures { E.serves entries.new ≡ E.serves entries.old }
{
    let copy = entries.copy(alloc)?;
    *entries.entry_mut(two)? = Entry::Undefined;
    is(rt, entries, one, Wanted::Empty);
    is(rt, entries, two, Wanted::Undefined);
    is(rt, &copy, one, Wanted::Empty);
    is(rt, &copy, two, Wanted::Text);
    entries.reset();
    is(rt, entries, one, Wanted::Undefined);
    is(rt, &copy, two, Wanted::Text);
    Ok(())
}

// Resets a text into spare memory, and asks whether a vector is taken from it that has the text's.
fn free<E: Entries>(rt: &impl Abort, alloc: Global, entries: &mut E, key: &Key, kept: bool) -> Tried
    requires { IsTrue (E.serves entries.old key.now) }
    ensures { E.serves entries.new ≡ E.serves entries.old }
{
    let mut spare = Spare::new(alloc);
    put_text(rt, alloc, entries, key)?;
    entries.reset_into(&mut spare);
    is(rt, entries, key, Wanted::Undefined);
    let vector = spare.take();
    same(rt, vector.len(), 0);
    if kept && vector.capacity() < TEXT.len() {
        // there was no memory to keep it in
        return Err(AllocError);
    }
    same(rt, vector.capacity() > 0, kept);
    same(rt, spare.take().capacity(), 0);
    Ok(())
}

// Walks over entries: puts, copies, changes and resets those of two keys.
fn walk<E: Entries>(
    rt: &impl Abort,
    alloc: Global,
    mut entries: E,
    one: &Key,
    two: &Key,
    is_kept: bool,
) -> Tried
    requires one { IsTrue (E.serves entries one.now) }
    requires two { IsTrue (E.serves entries two.now) }
{
    fill(rt, alloc, &mut entries, one, two)?;
    edit(rt, alloc, &mut entries, one, two)?;
    free(rt, alloc, &mut entries, one, is_kept)
}

#[test]
fn entries_in_a_map(rt: HostRuntime) -> Tried {
    let first = key(rt.alloc(), 1, "A")?;
    let second = key(rt.alloc(), 2, "B")?;
    let map = MapEntries::new(rt.alloc());
    walk(&rt, rt.alloc(), map, &first, &second, false)
}

// A reference to an entry is copied to an equal one.
fn is_copied(rt: &impl Abort, alloc: Global, entry: Entry) -> Tried {
    same(rt, entry.view().copy(alloc)?, entry);
    Ok(())
}

#[test]
fn entries_of_a_reference(rt: HostRuntime) -> Tried {
    is_copied(&rt, rt.alloc(), Entry::Undefined)?;
    is_copied(&rt, rt.alloc(), Entry::Empty)?;
    is_copied(&rt, rt.alloc(), Entry::Assigned(text(rt.alloc())?))
}

// The key of an instruction that is a field.
fn key_of(flat: &Flat) -> Option<&Key>
    ensures { IfSome result (λ k. Contains (keys_of_one (instruction_of flat.now)) k.now) }
{
    match flat {
        Flat::Field { whole, .. } => Some(&whole.key),
        _ => None,
    }
}

// The key of an instruction of the template 1, where it is a field.
fn key_at(set: &TemplateSet, place: usize) -> Option<&Key>
    ensures { IfSome result (λ k. Contains (keys_in set.now) k.now) }
{
    match set.find(1) {
        Some(template) if place < template.members.len() => key_of(&template.members[place]),
        _ => None,
    }
}

// Walks over the entries of the set's own keys.
fn walk_slots(rt: &impl Abort, alloc: Global, set: &TemplateSet) -> Tried {
    match (key_at(set, 0), key_at(set, 1)) {
        (Some(first), Some(second)) => {
            let slots = SlotEntries::new(alloc, set)?;
            walk(rt, alloc, slots, first, second, true)
        }
        _ => panic!(rt; "other fields"),
    }
}

// Want of memory ends the test, and no other fault comes.
fn refused(rt: &impl Abort, fault: LoadFault) -> Tried {
    same(rt, fault.cause, LoadCause::Memory);
    Err(AllocError)
}

const TWO_FIELDS: &str = r#"{"templates":[{"name":"Two","id":1,"instructions":[
    {"kind":"string","charset":"unicode","name":"A","operator":"copy"},
    {"kind":"string","charset":"unicode","name":"B","operator":"copy"}]}]}"#;

#[test]
fn entries_in_slots(rt: HostRuntime) -> Tried {
    match TemplateSet::from_json(rt.alloc(), TWO_FIELDS.as_bytes()) {
        Ok(set) => walk_slots(&rt, rt.alloc(), &set),
        Err(fault) => refused(&rt, fault),
    }
}
