//! What gaps are made of, and what fills them.

ghost use Rattle.std.specs.Prelude.{◌≡◌, ◌++◌, ℕ, IfOk, IfSome, IfNone, OnOk, OnErr};
ghost use Rattle.fast_field.specs.Deltas.{put_together};
ghost use Rattle.fast_field.specs.Removals.{length_of};
ghost use Rattle.fast_gaps.specs.Gaps.{HasRoom, IsMade, base_units, gap_text, kept_at, last_at, texts_behind, texts_in, units_text};
ghost use Rattle.fast_lines.specs.Lines.{scalar_text};
ghost use Rattle.fast_lines.specs.Written.{Writes};
ghost use Rattle.fast_lines.specs.declared.form.Form.{Form};

use crate::gap::{Gap, Units};
use crate::texts::Texts;
use fast_field::{Removal, best_cut, units};
use fast_lines::{Signs, push_quoted};
use fast_template::{FieldPart, Initial, Kind, Operator, Presence, Scalar};
use std::alloc::{AllocError, Global};

/// A text of no more units than these is written, and leaves no gap.
const FEW: usize = 16;

/// The most units of a text of a field.
const UNIT_LIMIT: usize = 65_535;

// The units of a text, and how they stand in a line; none of another value.
fn text_of(value: &Scalar) -> Option<(Units, &[u8])>
    ensures { IfSome result (λ x. (form : Form) → scalar_text form value.now ≡ units_text form x.0 x.1.now) }
{
    match value {
        Scalar::Ascii(text) => Some((Units::Characters, text.as_slice())),
        Scalar::Unicode(text) => Some((Units::Characters, text.as_bytes())),
        Scalar::Bytes(bytes) => Some((Units::Bytes, bytes.as_slice())),
        _ => None,
    }
}

// The text that was told last under the key of a slot; of no slot none.
fn last_of(texts: &Texts, slot: Option<u32>) -> &[u8]
    ensures { result.now ≡ last_at slot (texts_in texts.now) }
{
    match slot {
        Some(slot) => texts.get(slot),
        None => &[],
    }
}

// What makes a text of another: what is removed of that, and what is put there.
fn cut_of<'a>(last: &[u8], text: &'a [u8]) -> (Removal, &'a [u8])
    ensures { text.now ≡ put_together (length_of result.0) last.now result.1.now }
{
    if last == text {
        return (Removal::AtEnd(0), &[]);
    }
    if last.len() > UNIT_LIMIT || text.len() > UNIT_LIMIT {
        return (Removal::AtEnd(last.len()), text);
    }
    best_cut(Kind::Bytes, Presence::Mandatory, last, text)
}

// The same of the initial value or of the text that was told last, whichever has more in common with the text: a delta
// and a tail of a stream are of one of them, so that what is put there is about as long as what was sent.
fn shorter_cut<'a>(
    part: &FieldPart,
    last: &[u8],
    text: &'a [u8],
) -> Result<(Option<Initial>, Removal, &'a [u8]), AllocError>
    ensures { IfOk result (λ c. text.now
        ≡ put_together (length_of c.1) (base_units c.0 last.now) c.2.now) }
{
    let (removal, added) = cut_of(last, text);
    if added.is_empty() {
        return Ok((None, removal, added));
    }
    match &part.initial {
        None => Ok((None, removal, added)),
        Some(initial) => {
            let (of_initial, fewer) = cut_of(units(initial.value()), text);
            if fewer.len() >= added.len() {
                return Ok((None, removal, added));
            }
            Ok((Some(initial.copy()?), of_initial, fewer))
        }
    }
}

// Makes a text the one that was told last under the key of a slot. Refused, nothing has changed.
fn keep(alloc: Global, slot: Option<u32>, text: &[u8], texts: &mut Texts) -> Result<(), AllocError>
    ensures kept { OnOk result ((other : ℕ) → texts_in texts.new other
        ≡ kept_at slot text.now (texts_in texts.old) other) }
    ensures refused { OnErr result ((other : ℕ) → texts_in texts.new other ≡ texts_in texts.old other) }
{
    match slot {
        None => Ok(()),
        Some(slot) => {
            if texts.get(slot) == text {
                return Ok(());
            }
            let last = text.to_vec(alloc)?;
            texts.make_room(alloc, slot)?;
            texts.put(slot, last);
            Ok(())
        }
    }
}

// The gap that is left for a text.
fn cut_gap(
    alloc: Global,
    part: &FieldPart,
    units: Units,
    text: &[u8],
    texts: &mut Texts,
) -> Result<Gap, AllocError>
    ensures gap { IfOk result (λ g. ((form : Form) → gap_text form g (texts_in texts.old) ≡ units_text form units text.now)
        × ((other : ℕ) → texts_in texts.new other ≡ texts_behind g (texts_in texts.old) other)) }
    ensures refused { OnErr result ((other : ℕ) → texts_in texts.new other ≡ texts_in texts.old other) }
{
    let slot = match part.operator {
        Operator::Plain | Operator::Constant | Operator::Default => None,
        _ => Some(part.key.slot),
    };
    let (initial, removal, added) = shorter_cut(part, last_of(texts, slot), text)?;
    let part = added.to_vec(alloc)?;
    keep(alloc, slot, text, texts)?;
    Ok(Gap::Text {
        slot,
        initial,
        units,
        removal,
        part,
    })
}

/// The gap that is left for a text of more than a few units; none for other values.
pub(crate) fn text_gap(
    alloc: Global,
    part: &FieldPart,
    value: &Scalar,
    texts: &mut Texts,
) -> Result<Option<Gap>, AllocError>
    ensures gap { IfOk result (λ o. IfSome o (λ g. ((form : Form) → gap_text form g (texts_in texts.old) ≡ scalar_text form value.now)
        × ((slot : ℕ) → texts_in texts.new slot ≡ texts_behind g (texts_in texts.old) slot))) }
    ensures none { IfOk result (λ o. IfNone o ((slot : ℕ) → texts_in texts.new slot ≡ texts_in texts.old slot)) }
    ensures refused { OnErr result ((slot : ℕ) → texts_in texts.new slot ≡ texts_in texts.old slot) }
{
    match text_of(value) {
        None => Ok(None),
        Some((units, text)) => {
            if text.len() <= FEW {
                return Ok(None);
            }
            let gap = cut_gap(alloc, part, units, text, texts)?;
            Ok(Some(gap))
        }
    }
}

// What a text is a delta of.
fn base_of<'a>(initial: &'a Option<Initial>, last: &'a [u8]) -> &'a [u8]
    ensures { result.now ≡ base_units initial.now last.now }
{
    match initial {
        Some(initial) => units(initial.value()),
        None => last,
    }
}

// Makes a text of what is removed of another and what is put there.
fn put_in(last: &[u8], removal: Removal, part: &[u8], text: &mut Vec<u8>) -> Result<(), AllocError>
    ensures { OnOk result (text.new.items ≡ put_together (length_of removal) last.now part.now) }
{
    text.clear();
    match removal {
        Removal::AtEnd(count) => {
            text.extend_from_slice(&last[..last.len().saturating_sub(count)])?;
            text.extend_from_slice(part)
        }
        Removal::InFront(count) => {
            text.extend_from_slice(part)?;
            text.extend_from_slice(&last[count.min(last.len())..])
        }
    }
}

// Appends a text as its units stand in a line.
fn push_units<S: Signs>(
    signs: S,
    units: Units,
    text: &[u8],
    out: &mut Vec<u8>,
) -> Result<(), AllocError>
    ensures { Writes (units_text S.form units text.now) result out.old.items out.new.items }
{
    match units {
        Units::Characters => push_quoted(signs, text, out),
        Units::Bytes => signs.push_vector(text, out),
    }
}

/// Appends what fills a gap; of a text it makes that text, and sees that there is room for it.
pub(crate) fn fill<S: Signs>(
    signs: S,
    alloc: Global,
    gap: &Gap,
    texts: &mut Texts,
    text: &mut Vec<u8>,
    out: &mut Vec<u8>,
) -> Result<(), AllocError>
    ensures filled { OnOk result (out.new.items ≡ out.old.items ++ gap_text S.form gap.now (texts_in texts.old)) }
    ensures same { (slot : ℕ) → texts_in texts.new slot ≡ texts_in texts.old slot }
    ensures made { OnOk result (IsMade gap.now texts.new text.new.items) }
{
    match gap {
        Gap::Label(name) => signs.push_label(name.as_str(), out),
        Gap::Text {
            slot,
            initial,
            units,
            removal,
            part,
        } => {
            if let Some(slot) = slot {
                texts.make_room(alloc, *slot)?;
            }
            let base = base_of(initial, last_of(texts, *slot));
            put_in(base, *removal, part, text)?;
            push_units(signs, *units, text, out)
        }
    }
}

/// Passes a gap that is filled.
pub(crate) fn pass(gap: &Gap, texts: &mut Texts, text: Vec<u8>)
    requires { IsMade gap.now texts.now text.items }
    ensures { (slot : ℕ) → texts_in texts.new slot ≡ texts_behind gap.now (texts_in texts.old) slot }
{
    match gap {
        Gap::Label(_) | Gap::Text { slot: None, .. } => {}
        Gap::Text {
            slot: Some(slot),
            ..
        } => texts.put(*slot, text),
    }
}
