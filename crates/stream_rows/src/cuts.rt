//! Streams that are cut behind each of their bytes.

use crate::ends::End::At;
use fast_stream::Cause::{Read, Truncated};
use fast_stream::Fault;
use test_rows::rows;

/// A stream that is canonical itself, the lines of its messages, and behind each of its bytes the offset, the template
/// and the instruction of what is missing; none where a message ends.
pub struct Cut {
    pub stream: &'static [u8],
    pub lines: &'static str,
    pub missing: &'static [Option<(u64, u32, u32)>],
}

pub const CUTS: &[Cut] = rows! { Cut { stream, lines, missing }:
    b"\xF0\x81\x81\x41\xC2\xFE\x00\xE4", "1 Quote Seq=1 Sym=\"AB\" Px=100e-2 Qty=-\n",
        &[Some((1, 0, 0)), Some((2, 1, 1)), Some((3, 1, 2)), Some((3, 1, 2)), Some((5, 1, 3)), Some((5, 1, 3)),
            Some((5, 1, 3)), None];
    // string deltas
    b"\xC0\x8A\x80\x47\x45\x48\xB6\x80\x82\x4D\xB6\x80\xFD\x45\xD3",
        "10 Delta S=\"GEH6\"\n10 Delta S=\"GEM6\"\n10 Delta S=\"ESM6\"\n",
        &[Some((1, 0, 0)), Some((2, 10, 1)), Some((2, 10, 1)), Some((2, 10, 1)), Some((2, 10, 1)), Some((2, 10, 1)),
            None, Some((8, 10, 1)), Some((8, 10, 1)), Some((8, 10, 1)), None, Some((12, 10, 1)), Some((12, 10, 1)),
            Some((12, 10, 1)), None];
    // sequences
    b"\xC0\x84\x80\x80\x81\x80\x83\x85\x86", "4 Legs L=-\n4 Legs L=[]\n4 Legs L=[{P=5} {P=6}]\n",
        &[Some((1, 0, 0)), Some((2, 4, 1)), None, Some((4, 4, 1)), None, Some((6, 4, 1)), Some((7, 4, 2)),
            Some((8, 4, 2)), None];
    // groups
    b"\xF0\x8B\xC0\x85\x86\x80\xA0\x80", "11 Grp Hd={A=5} B=6\n11 Grp Hd=- B=6\n11 Grp Hd={A=5} B=6\n",
        &[Some((1, 0, 0)), Some((2, 11, 1)), Some((3, 11, 2)), Some((4, 11, 3)), None, None, Some((7, 11, 1)), None];
    // Unicode
    b"\xE0\x8C\x82\xC3\xA9\xA0\x81\xA8\xA0\x81", "12 Uni S=\"\\xc3\\xa9\"\n12 Uni S=\"\\xc3\\xa8\"\n",
        &[Some((1, 0, 0)), Some((2, 12, 1)), Some((2, 12, 1)), Some((2, 12, 1)), None, Some((6, 12, 1)),
            Some((6, 12, 1)), None, Some((9, 12, 1)), Some((9, 12, 1))];
    // a decimal in parts, and a byte vector
    b"\xE0\x8F\x00\xE4\x83\x0A\xFF\x80\x81", "15 Fixed Px=100e-2 Raw=x0aff\n15 Fixed Px=101e-2 Raw=x0aff\n",
        &[Some((1, 0, 0)), Some((2, 15, 1)), Some((2, 15, 1)), Some((4, 15, 2)), Some((4, 15, 2)), Some((4, 15, 2)),
            None, Some((8, 15, 1)), None];
};

/// What stands in front of a cut: the messages, their bytes and the bytes of their lines; and what is missing, if they do
/// not end there.
#[derive(Clone, Copy)]
pub struct Front {
    pub messages: u64,
    pub bytes: usize,
    pub line_bytes: usize,
    missing: Option<(u64, u32, u32)>,
}

// The bytes of so many lines.
fn line_bytes(lines: &str, count: u64) -> usize {
    let mut left = count;
    let mut bytes = 0usize;
    for byte in lines.as_bytes() {
        if left == 0 {
            return bytes;
        }
        bytes = bytes.saturating_add(1);
        if *byte == b'\n' {
            left = left.saturating_sub(1);
        }
    }
    bytes
}

impl Cut {
    /// What stands in front of a cut behind so many bytes.
    pub fn front(&self, count: usize) -> Front {
        let mut messages = 0u64;
        let mut bytes = 0usize;
        let mut behind = 0usize;
        let mut missing = None;
        for place in self.missing {
            if behind == count {
                break;
            }
            behind = behind.saturating_add(1);
            missing = *place;
            if place.is_none() {
                messages = messages.saturating_add(1);
                bytes = behind;
            }
        }
        Front {
            messages,
            bytes,
            line_bytes: line_bytes(self.lines, messages),
            missing,
        }
    }
}

impl Front {
    /// Why the stream ends too early there, if it does.
    pub fn truncated(self) -> Option<Fault> {
        let (offset, template, instruction) = self.missing?;
        let message = self.messages.saturating_add(1);
        At(Truncated, message, offset, template, instruction).fault()
    }

    /// Why the stream is refused where the read that is to give the next byte fails.
    pub fn unread(self) -> Option<Fault> {
        let (offset, template, instruction) = self.missing.unwrap_or((self.bytes as u64, 0, 0));
        let message = self.messages.saturating_add(1);
        At(Read, message, offset, template, instruction).fault()
    }
}
