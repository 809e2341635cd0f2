//! Deltas of ASCII strings that remove few characters at the end of the text that the entry has and put others there, and
//! tails. What was sent may be longer than is needed: characters may be put back that were there.

ghost use Rattle.std.specs.Prelude.{◌≡◌, ◌≤◌, ◌<◌, ◌-◌, ◌+◌, ◌%◌, ℕ, List, length, drop, slice_range, slice_index, IfSome};
ghost use Rattle.fast_value.specs.declared.kind.Kind.TheVariants as kind_type;
ghost use Rattle.fast_template.specs.declared.resolved.FieldPart.{FieldPart as PartOf};
ghost use Rattle.fast_take.specs.Texts.{GivesCut, GivesTail};

use crate::characters::find_plain;
use crate::one_byte::read_any_removal;
use fast_template::FieldPart;
use fast_value::UNIT_LIMIT;
use fast_wire::plain_ascii_end;

/// How many characters are removed, and where those stand that are put there.
#[derive(Clone, Copy, Drop)]
pub(crate) struct Cut {
    pub(crate) removed: usize,
    pub(crate) first: usize,
    pub(crate) next: usize,
}

/// How many characters of a text and of an entity are the same, from their beginnings on.
fn count_same(text: &[u8], form: &[u8]) -> usize
    ensures text { result ≤ length text.now }
    ensures form { result ≤ length form.now }
    ensures same { (j : ℕ) → j < result
        → slice_index text.now j ≡ slice_index form.now j % 128 }
{
    for i in 0..text.len().min(form.len()) {
        if text[i] != form[i] % 128 {
            return i;
        }
    }
    text.len().min(form.len())
}

/// A cut of the same value that removes fewer characters: those that are put back at once stay.
#[inline(never)]
fn less_removed(base: &[u8], bytes: &[u8], cut: Cut) -> Cut
    requires removed { cut.removed ≤ length base.now }
    requires first { cut.first < cut.next }
    requires next { cut.next ≤ length bytes.now }
    ensures removed { result.removed ≤ length base.now }
    ensures first { result.first < result.next }
    ensures next { result.next ≡ cut.next }
    ensures same { (i : PartOf) (b : List ℕ)
        → GivesCut i base.now b cut.removed (slice_range bytes.now cut.first cut.next)
        (drop cut.next bytes.now)
        → GivesCut i base.now b result.removed (slice_range bytes.now result.first cut.next)
        (drop cut.next bytes.now) }
{
    let kept = base.len() - cut.removed;
    let more = count_same(&base[kept..], &bytes[cut.first..cut.next]);
    let first = cut.first + more;
    match plain_ascii_end(bytes, first) {
        Some(next) if next == cut.next => Cut {
            removed: cut.removed - more,
            first,
            next,
        },
        _ => cut,
    }
}

/// Reads a removal of few characters at the end of a text, and a new part. Characters that the new part begins with are
/// not removed where what is left of it stands in its shortest form.
#[inline(always)]
pub(crate) fn read_cut(instr: &FieldPart, base: &[u8], bytes: &[u8], at: usize) -> Option<Cut>
    requires at { at ≤ length bytes.now }
    requires kind { instr.now.kind ≡ kind_type.Ascii }
    ensures place { IfSome result (λ cut. (at ≤ cut.next) × (cut.first < cut.next)
        × (cut.next ≤ length bytes.now)) }
    ensures gives { IfSome result (λ cut. GivesCut instr.now base.now (drop at bytes.now) cut.removed
        (slice_range bytes.now cut.first cut.next) (drop cut.next bytes.now)) }
{
    let (removed, middle) = read_any_removal(instr.presence, bytes, at)?;
    if removed > base.len() {
        return None;
    }
    let (first, next) = find_plain(bytes, middle)?;
    let kept = base.len() - removed;
    if kept > UNIT_LIMIT || next - first > UNIT_LIMIT - kept {
        return None;
    }
    let cut = Cut {
        removed,
        first,
        next,
    };
    if kept < base.len() && base[kept] == bytes[first] % 128 {
        Some(less_removed(base, bytes, cut))
    } else {
        Some(cut)
    }
}

/// A tail of the same value that puts fewer characters: those that are there already stay. Answers where it begins.
#[inline(never)]
fn less_put(base: &[u8], bytes: &[u8], first: usize, next: usize) -> usize
    requires first { first < next }
    requires next { next ≤ length bytes.now }
    requires within { next - first ≤ length base.now }
    ensures first { (first ≤ result) × (result < next) }
    ensures same { (i : PartOf) (b : List ℕ)
        → GivesTail i base.now b (slice_range bytes.now first next) (drop next bytes.now)
        → GivesTail i base.now b (slice_range bytes.now result next) (drop next bytes.now) }
{
    let kept = base.len() - (next - first);
    let more = count_same(&base[kept..], &bytes[first..next]);
    let later = first + more;
    match plain_ascii_end(bytes, later) {
        None => first,
        Some(end) => { if end == next { later } else { first } }
    }
}

/// Reads a tail of a text; answers where it begins and ends.
#[inline(always)]
pub(crate) fn find_tail(
    instr: &FieldPart,
    base: &[u8],
    bytes: &[u8],
    at: usize,
) -> Option<(usize, usize)>
    requires at { at ≤ length bytes.now }
    requires kind { instr.now.kind ≡ kind_type.Ascii }
    requires few { length base.now ≤ 65535 }
    ensures place { IfSome result (λ x. (at ≤ x.0) × (x.0 < x.1) × (x.1 ≤ length bytes.now)) }
    ensures within { IfSome result (λ x. x.1 - x.0 ≤ length base.now) }
    ensures gives { IfSome result (λ x. GivesTail instr.now base.now (drop at bytes.now)
        (slice_range bytes.now x.0 x.1) (drop x.1 bytes.now)) }
{
    let (first, next) = find_plain(bytes, at)?;
    if next - first > base.len() {
        return None;
    }
    Some((first, next))
}

/// The same, without the characters in front that are there already, where the rest stands in its shortest form.
#[inline(always)]
pub(crate) fn read_tail(
    instr: &FieldPart,
    base: &[u8],
    bytes: &[u8],
    at: usize,
) -> Option<(usize, usize)>
    requires at { at ≤ length bytes.now }
    requires kind { instr.now.kind ≡ kind_type.Ascii }
    requires few { length base.now ≤ 65535 }
    ensures place { IfSome result (λ x. (at ≤ x.0) × (x.0 < x.1) × (x.1 ≤ length bytes.now)) }
    ensures gives { IfSome result (λ x. GivesTail instr.now base.now (drop at bytes.now)
        (slice_range bytes.now x.0 x.1) (drop x.1 bytes.now)) }
{
    let (first, next) = find_tail(instr, base, bytes, at)?;
    let kept = base.len() - (next - first);
    if base[kept] == bytes[first] % 128 {
        Some((less_put(base, bytes, first, next), next))
    } else {
        Some((first, next))
    }
}
