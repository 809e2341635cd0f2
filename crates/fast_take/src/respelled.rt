//! ASCII strings that were sent as a difference, be it with more than they had to: characters that stay where they are, a
//! preamble, or a removal in more bytes than it takes. The entry goes on, and nothing is written.

ghost use Rattle.std.specs.Prelude.{◌≡◌, ◌≤◌, length, MatchOption};
ghost use Rattle.fast_value.specs.Scalar.{IsScalar};
ghost use Rattle.fast_value.specs.declared.kind.Kind.TheVariants as kind_type;
ghost use Rattle.fast_value.specs.declared.kind.Operator.TheVariants as operator_type;
ghost use Rattle.fast_value.specs.declared.kind.Part.TheVariants as part_type;
ghost use Rattle.fast_value.specs.declared.scalar.Scalar.TheVariants.{Ascii};
ghost use Rattle.fast_dictionary.specs.declared.entry.Entry.TheVariants as entry_type;
ghost use Rattle.fast_field.specs.Within.{HoldsScalar};
ghost use Rattle.fast_take.specs.Best.{HasBest};

use crate::best::Best;
use crate::cut::read_cut;
use crate::one_byte::removal_byte;
use crate::plain::put_characters;
use fast_dictionary::Entry;
use fast_field::{agrees_no_further, is_cut_at_end};
use fast_template::{ByteString, FieldPart, Kind, Operator, Part, Scalar};
use std::alloc::Global;

/// Judges a removal of few characters at the end of the string that the entry has, and a new part.
#[inline(always)]
fn respell_delta(
    alloc: Global,
    instr: &FieldPart,
    text: &mut ByteString,
    bytes: &[u8],
    at: usize,
) -> Option<Best>
    requires place { at ≤ length bytes.now }
    requires part { instr.now.part ≡ part_type.Whole }
    requires operator { instr.now.operator ≡ operator_type.Delta }
    requires kind { instr.now.kind ≡ kind_type.Ascii }
    requires kept { IsScalar (Ascii text.now) }
    ensures { MatchOption result (text.new ≡ text.old) (λ best. HasBest instr.now
        (entry_type.Assigned (Ascii text.old)) (entry_type.Assigned (Ascii text.new)) bytes.now at best) }
{
    let base = text.as_slice();
    let cut = read_cut(instr, base, bytes, at)?;
    let form = &bytes[cut.first..cut.next];
    let kept = base.len() - cut.removed;
    if !agrees_no_further(base, kept, form)
        || !is_cut_at_end(base, kept, form)
        || !put_characters(alloc, text, kept, form)
    {
        return None;
    }
    Some(Best {
        there: true,
        bit: true,
        removal: Some(removal_byte(instr.presence, cut.removed)),
        first: cut.first,
        next: cut.next,
    })
}

/// Judges an ASCII string under bit 1 that was sent as a difference, and makes the entry the one afterwards. None: nothing
/// has changed, and the general way tells. (A call of its own, since few fields come here.)
#[inline(never)]
pub(crate) fn respell_text(
    alloc: Global,
    instr: &FieldPart,
    entry: &mut Entry,
    bytes: &[u8],
    at: usize,
) -> Option<Best>
    requires place { at ≤ length bytes.now }
    requires kept { HoldsScalar entry.now }
    ensures { MatchOption result (entry.new ≡ entry.old) (λ best. HasBest instr.now entry.old entry.new bytes.now at best) }
{
    match (instr.kind, instr.part, instr.operator, entry) {
        (Kind::Ascii, Part::Whole, Operator::Delta, Entry::Assigned(Scalar::Ascii(text))) => {
            respell_delta(alloc, instr, text, bytes, at)
        }
        _ => None,
    }
}
