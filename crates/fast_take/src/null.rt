//! NULL in its shortest form, judged as it stands: a field that is sent as absent.

ghost use Rattle.std.specs.Prelude.{◌≡◌, ◌≤◌, ◌<◌, ◌+◌, ◌∷◌, false, true, length, drop, None, IfSome, MatchOption};
ghost use Rattle.fast_field.specs.Bases.{next_of};
ghost use Rattle.fast_take.specs.Best.{HasBest};

use crate::best::Best;
use crate::given::absent_bit;
use fast_dictionary::{Entry, Spare};
use fast_template::{FieldPart, Operator, Presence};
use std::mem;

/// NULL in its shortest form, which is the same for every type.
const NULL: u8 = 0x80;

/// Whether the bytes from a place on begin with NULL in its shortest form.
#[inline(always)]
pub(crate) fn begins_with_null(bytes: &[u8], at: usize) -> bool
    requires { at ≤ length bytes.now }
    ensures within { result ≡ true → at < length bytes.now }
    ensures null { result ≡ true → drop at bytes.now ≡ 128 ∷ drop (at + 1) bytes.now }
{
    at < bytes.len() && bytes[at] == NULL
}

/// Makes an entry the one that an absent field leaves.
#[inline(always)]
fn keep_absent(spare: &mut Spare, operator: Operator, entry: &mut Entry)
    ensures { entry.new ≡ next_of operator entry.old None }
{
    match operator {
        Operator::Copy | Operator::Increment | Operator::Tail => {
            spare.keep_entry(mem::replace(entry, Entry::Empty));
        }
        Operator::Plain | Operator::Constant | Operator::Default | Operator::Delta => {}
    }
}

/// Judges NULL in its shortest form under bit 1, of a field of any type that may be absent, and makes the entry the one
/// afterwards. None: nothing has changed, and another way tells.
#[inline(always)]
pub(crate) fn judge_null(
    spare: &mut Spare,
    instr: &FieldPart,
    entry: &mut Entry,
    bytes: &[u8],
    at: usize,
) -> Option<Best>
    requires { at ≤ length bytes.now }
    ensures judged { MatchOption result (entry.new ≡ entry.old) (λ best. HasBest instr.now entry.old entry.new bytes.now at best) }
    ensures absent { IfSome result (λ best. best.there ≡ false) }
{
    if instr.presence == Presence::Mandatory || !begins_with_null(bytes, at) {
        return None;
    }
    let bit = absent_bit(instr, entry)?;
    let first = if bit {
        keep_absent(spare, instr.operator, entry);
        at
    } else {
        at + 1
    };
    Some(Best {
        there: false,
        bit,
        removal: None,
        first,
        next: at + 1,
    })
}
