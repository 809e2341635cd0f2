//! Characters of ASCII strings that are put into the entry from the entity that spells them, and what is asked of both. No
//! string is made.

ghost use Rattle.std.specs.Prelude.{◌≡◌, ◌≤◌, ◌<◌, ◌+◌, ◌-◌, ◌++◌, true, false, length, take, Some, IfSome};
ghost use Rattle.fast_value.specs.declared.kind.Kind.TheVariants as kind_type;
ghost use Rattle.fast_value.specs.declared.kind.Operator.TheVariants as operator_type;
ghost use Rattle.fast_value.specs.declared.scalar.Scalar.TheVariants.{Ascii};
ghost use Rattle.fast_wire.specs.Entity.{IsEntity, groups};
ghost use Rattle.fast_field.specs.Bases.{next_of};
ghost use Rattle.fast_field.specs.CommonParts.{IsLongestPrefix, SharesEnd};
ghost use Rattle.fast_take.specs.Numbers.{SpellsWhole};
ghost use Rattle.fast_field.specs.Planning.{left_out_of};

use crate::copied::{FEW, copy_few_over, copy_over};
use crate::vector_units::put_bytes;
use fast_dictionary::{Entry, Spare};
use fast_field::begins_otherwise;
use fast_template::{ByteString, FieldPart, Operator, Scalar};
use fast_wire::is_text_of;
use std::alloc::Global;

/// Puts the characters of an entity behind so many characters of a text, in place of the others, where these are not as
/// many. Answers as `put_characters`.
#[inline(never)]
fn put_anew(alloc: Global, text: &mut ByteString, kept: usize, form: &[u8]) -> bool
    requires kept { kept ≤ length text.now }
    requires entity { IsEntity form.now }
    ensures put { result ≡ true → text.new ≡ take kept text.old ++ groups form.now }
    ensures unchanged { result ≡ false → text.new ≡ text.old }
{
    if !put_bytes(alloc, text, kept, form) {
        return false;
    }
    let characters = text.as_mut_slice();
    let last = characters.len() - 1;
    characters[last] %= 128;
    true
}

/// Puts the characters of an entity in the place of the last ones of a text, which are as many.
#[inline(always)]
fn put_over(text: &mut ByteString, kept: usize, form: &[u8])
    requires many { kept + length form.now ≡ length text.now }
    requires entity { IsEntity form.now }
    ensures { text.new ≡ take kept text.old ++ groups form.now }
{
    let characters = text.as_mut_slice();
    copy_over(characters, kept, form);
    let last = characters.len() - 1;
    characters[last] %= 128;
}

/// The same of few characters.
#[inline(always)]
fn put_few_over(text: &mut ByteString, kept: usize, form: &[u8])
    requires many { kept + length form.now ≡ length text.now }
    requires few { length form.now ≤ 8 }
    requires entity { IsEntity form.now }
    ensures { text.new ≡ take kept text.old ++ groups form.now }
{
    let characters = text.as_mut_slice();
    copy_few_over(characters, kept, form);
    let last = characters.len() - 1;
    characters[last] %= 128;
}

/// Puts the characters of an entity behind so many characters of a text, in place of the others; answers false, and
/// leaves the text as it was, where memory is refused.
#[inline(always)]
pub(crate) fn put_characters(alloc: Global, text: &mut ByteString, kept: usize, form: &[u8]) -> bool
    requires kept { kept ≤ length text.now }
    requires entity { IsEntity form.now }
    ensures put { result ≡ true → text.new ≡ take kept text.old ++ groups form.now }
    ensures unchanged { result ≡ false → text.new ≡ text.old }
{
    // most often as many are put there, and no memory is asked for
    if text.as_slice().len() - kept == form.len() {
        put_over(text, kept, form);
        true
    } else {
        put_anew(alloc, text, kept, form)
    }
}

/// The string that bytes spell; none where memory is refused.
#[inline(always)]
fn make_string(spare: &mut Spare, form: &[u8]) -> Option<ByteString>
    requires { IsEntity form.now }
    ensures { IfSome result (λ text. text ≡ groups form.now) }
{
    let mut text = ByteString::from_vec(spare.take());
    put_characters(spare.alloc(), &mut text, 0, form).then_some(text)
}

/// Makes an entry the one that the string leaves which bytes spell whole; answers false, and leaves it as it was,
/// where it has a value that is no string, or memory is refused.
#[inline(always)]
pub(crate) fn keep_plain(
    spare: &mut Spare,
    operator: Operator,
    entry: &mut Entry,
    form: &[u8],
) -> bool
    requires operator { SpellsWhole operator }
    requires entity { IsEntity form.now }
    ensures kept { result ≡ true → entry.new
        ≡ next_of operator entry.old (Some (Ascii (groups form.now))) }
    ensures unchanged { result ≡ false → entry.new ≡ entry.old }
{
    match operator {
        Operator::Copy | Operator::Increment => match entry {
            Entry::Assigned(Scalar::Ascii(text)) => put_characters(spare.alloc(), text, 0, form),
            Entry::Empty | Entry::Undefined => match make_string(spare, form) {
                Some(text) => {
                    *entry = Entry::Assigned(Scalar::Ascii(text));
                    true
                }
                None => false,
            },
            Entry::Assigned(_) => false,
        },
        _ => true,
    }
}

/// Puts the characters of an entity in the place of as many at the end of a text, where to remove these is the best cut: the
/// first is another one, and no fewer are kept. Answers false, and changes nothing, where they are not as many, or it may
/// not be.
#[inline(always)]
pub(crate) fn replace_end(text: &mut ByteString, removed: usize, form: &[u8]) -> bool
    requires entity { IsEntity form.now }
    ensures many { result ≡ true → (removed ≤ length text.old) × (length form.now ≡ removed) }
    ensures put { result ≡ true → text.new ≡ take (length text.old - removed) text.old ++ groups form.now }
    ensures prefix { result ≡ true → IsLongestPrefix text.old text.new (length text.old - removed) }
    ensures end { result ≡ true → SharesEnd text.old text.new (length text.old - removed) }
    ensures unchanged { result ≡ false → text.new ≡ text.old }
{
    let base = text.as_slice();
    if removed > FEW || form.len() != removed || removed > base.len() {
        return false;
    }
    let kept = base.len() - removed;
    if removed > kept || !begins_otherwise(base, kept, form) {
        return false;
    }
    put_few_over(text, kept, form);
    true
}

/// Makes an entry the string that bytes spell, in the place of another one that has as many characters; answers false, and
/// leaves it as it was, where it has none such.
#[inline(always)]
pub(crate) fn replace_string(instr: &FieldPart, entry: &mut Entry, form: &[u8]) -> bool
    requires operator { instr.now.operator ≡ operator_type.Copy }
    requires entity { IsEntity form.now }
    ensures sent { result ≡ true → left_out_of instr.now.operator instr.now entry.old
        (Some (Ascii (groups form.now))) ≡ false }
    ensures kept { result ≡ true → entry.new
        ≡ next_of instr.now.operator entry.old (Some (Ascii (groups form.now))) }
    ensures unchanged { result ≡ false → entry.new ≡ entry.old }
{
    match entry {
        Entry::Assigned(Scalar::Ascii(text)) => {
            let base = text.as_slice();
            if form.len() > FEW || base.len() != form.len() || is_text_of(base, form) {
                return false;
            }
            put_few_over(text, 0, form);
            true
        }
        _ => false,
    }
}
