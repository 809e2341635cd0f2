//! The nodes that are a header's own.

ghost use Rattle.std.specs.Prelude.{◌≡◌, ◌≤◌, length, take, MatchOption};
ghost use Rattle.fast_tape.specs.Tapes.{long_node};
ghost use Rattle.fast_untape.specs.Reading.{HeadsNone};

use crate::value::is_long;
use fast_tape::TapeNode;

/// The nodes behind a header of this kind that are its own, from the front of these. None: it is no such header, or they are
/// not all there.
#[inline(always)]
pub(crate) fn own_nodes<'a>(
    kind: u32,
    header: &TapeNode,
    behind: &'a [TapeNode],
) -> Option<&'a [TapeNode]>
    ensures { MatchOption result (HeadsNone kind header.now behind.now) (λ own.
        (header.now ≡ long_node kind header.now.instruction header.now.number (length own.now))
        × (length own.now ≤ length behind.now) × (own.now ≡ take (length own.now) behind.now)) }
{
    if header.kind != kind {
        return None;
    }
    if !is_long(header) {
        return None;
    }
    let count = header.length as usize;
    if count > behind.len() {
        return None;
    }
    Some(&behind[..count])
}
