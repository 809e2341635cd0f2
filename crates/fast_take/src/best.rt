//! What the best form of a field is that was read under bit 1 and is best spelled otherwise than it stands, or is NULL.

ghost use Rattle.std.specs.Prelude.{◌≡◌, ◌≤◌, length, MatchOption};
ghost use Rattle.fast_field.specs.Within.{HoldsScalar};
ghost use Rattle.fast_take.specs.Best.{HasBest};

use crate::null::judge_null;
use crate::respelled::respell_text;
use fast_dictionary::{Entry, Spare};
use fast_template::FieldPart;

/// The best form of what was read, and the place behind that: its bit, and its bytes.
#[derive(Clone, Copy, Debug, PartialEq, Eq, Drop)]
pub(crate) struct Best {
    /// Whether the value is there.
    pub there: bool,
    /// The bit of the best form.
    pub bit: bool,
    /// Its first byte, where that is another one than stands there: how many characters a difference removes.
    pub removal: Option<u8>,
    /// Where the bytes behind it begin. They end at `next`; under bit 0 there are none.
    pub first: usize,
    /// The place behind what was read.
    pub next: usize,
}

/// Judges what is read under bit 1 and is NULL, or an ASCII string that was sent as a difference, be it with more than it
/// had to, and makes the entry the one afterwards; nothing is written. None: nothing has changed, and the general way tells.
#[inline(always)]
pub(crate) fn judge_other(
    spare: &mut Spare,
    instr: &FieldPart,
    entry: &mut Entry,
    bytes: &[u8],
    at: usize,
) -> Option<Best>
    requires place { at ≤ length bytes.now }
    requires kept { HoldsScalar entry.now }
    ensures { MatchOption result (entry.new ≡ entry.old) (λ best. HasBest instr.now entry.old entry.new bytes.now at best) }
{
    if let Some(best) = judge_null(spare, instr, entry, bytes, at) {
        return Some(best);
    }
    respell_text(spare.alloc(), instr, entry, bytes, at)
}
