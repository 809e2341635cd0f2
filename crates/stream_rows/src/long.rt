//! Streams at the limits of maps, strings, sequences and messages.

use crate::ends::End;
use crate::ends::End::{At, Whole};
use crate::quotes::QUOTE;
use crate::sent::Sent;
use crate::sent::Shown::{Absent, Decimal, Letters, Number, Repeated};
use fast_stream::Cause::{Limit, Truncated};
use std::alloc::Global;
use test_rows::{Tried, rows};

/// A stream of pieces, each so many times, its messages, and its end. One that ends whole is canonical itself.
pub struct Long {
    pub pieces: &'static [(&'static [u8], usize)],
    pub want: &'static [Sent],
    pub end: End,
}

const LETTERS: &[Sent] = rows! { Sent:
    1, &[Number(1), Letters(4_097), Decimal(-2, 100), Absent];
};

const MOST_LETTERS: &[Sent] = rows! { Sent:
    1, &[Number(1), Letters(65_535), Decimal(-2, 100), Absent];
};

/// Streams of maps and strings of the worked templates.
pub const LONG: &[Long] = rows! { Long { pieces, want, end }:
    // maps
    &[(b"\x00", 255)], &[], At(Truncated, 1, 0, 0, 0);
    &[(b"\x00", 256)], &[], At(Limit, 1, 0, 0, 0);
    // strings, by their groups and by their characters
    &[(b"\xF0\x81\x81", 1), (b"\x41", 65_539)], &[], At(Truncated, 1, 3, 1, 2);
    &[(b"\xF0\x81\x81", 1), (b"\x41", 65_540)], &[], At(Limit, 1, 3, 1, 2);
    &[(b"\xF0\x81\x81", 1), (b"\x41", 4_096), (b"\xC1\xFE\x00\xE4", 1)], LETTERS, Whole;
    &[(b"\xF0\x81\x81", 1), (b"\x41", 65_534), (b"\xC1\xFE\x00\xE4", 1)], MOST_LETTERS, Whole;
    &[(b"\xF0\x81\x81", 1), (b"\x41", 65_535), (b"\xC1\xFE\x00\xE4", 1)], &[], At(Limit, 1, 3, 1, 2);
};

/// Streams of sequences of the worked templates.
pub const LONG_SEQUENCES: &[Long] = rows! { Long { pieces, want, end }:
    // nodes: 65,535 of them, and an element that is number 65,537
    &[(b"\xC0\x84\x02\x00\x80", 1), (b"\x85", 32_767)], &[Sent(4, &[Repeated(32_767, &[5])])], Whole;
    &[(b"\xC0\x84\x02\x00\x81", 1), (b"\x85", 32_767)], &[], At(Limit, 1, 32_772, 4, 2);
    // elements: as many as there may be, each empty
    &[(b"\xC0\x86\x03\x7F\xFF", 1)], &[Sent(6, &[Repeated(65_535, &[])])], Whole;
};

/// Streams of a number and a sequence whose elements have no members: as many nodes as there may be, and one more.
pub const LONG_BARE: &[Long] = rows! { Long { pieces, want, end }:
    &[(b"\xC0\x81\x80\x03\x7F\xFE", 1)], &[Sent(1, &[Number(0), Repeated(65_534, &[])])], Whole;
    &[(b"\xC0\x81\x80\x03\x7F\xFF", 1)], &[], At(Limit, 1, 6, 1, 2);
};

/// A stream of pieces, each so many times.
pub fn stream_of(alloc: Global, pieces: &[(&[u8], usize)]) -> Tried<Vec<u8>> {
    let mut stream = Vec::new(alloc);
    for (piece, count) in pieces {
        for _ in 0..*count {
            stream.extend_from_slice(piece)?;
        }
    }
    Ok(stream)
}

/// The first quote, and 10,000 that bit 0 and two deltas give.
pub const MANY: &[(&[u8], usize)] = &[(QUOTE, 1), (b"\x80\x80\x81", 10_000)];
