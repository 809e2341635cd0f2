//! Streams at the strict level: what is overlong, what is just not, and which fault comes first.

use crate::base::*;
use crate::decoding::streams::{Row, all_read_in, each_read, long};
use fast_decoder::Mode;
use stream_rows::modes::STRICT;
use stream_rows::sent::Sent;
use stream_rows::sent::Shown::{Absent, Bytes, Decimal, Group, Number, Sequence, Signed, Text};
use template_tests::texts::{KINDS, WORKED};

// A stream whose first message is refused, and its fault.
struct Refused(&'static [u8], End);

// A stream whose first message is refused, and its faults at the usual level and at the strict one.
struct Judged(&'static [u8], End, End);

// A stream of a message that is refused so in a mode.
fn is_refused(rt: &impl Abort, on: &Loaded, mode: Mode, stream: &[u8], end: End) -> Tried {
    let want = Want(&[], end.fault());
    same(rt, agrees(on, mode, stream, want)?, true);
    Ok(())
}

// The first messages of streams over the templates of a text.
fn each_refused(rt: &impl Abort, on: &Loaded, refused: &[Refused], judged: &[Judged]) -> Tried {
    for Refused(stream, end) in refused {
        is_refused(rt, on, STRICT, stream, *end)?;
    }
    for Judged(stream, usual, strict) in judged {
        is_refused(rt, on, PLAIN, stream, *usual)?;
        is_refused(rt, on, STRICT, stream, *strict)?;
    }
    Ok(())
}

#[test]
fn overlong_streams(rt: HostRuntime) -> Tried {
    const REFUSED_WORKED: &[Refused] = rows! { Refused:
        // overlong entities
        // an integer, a map, a string, NULL, and the exponent of a decimal in one piece
        b"\xF0\x81\x00\x00\x81\x41\xC2\xFE\x00\xE4", At(R6, 1, 2, 1, 1);
        b"\x70\x00\x80\x81\x81\x41\xC2\xFE\x00\xE4", At(R7, 1, 0, 0, 0);
        b"\xF0\x81\x81\x00\xC1\xFE\x00\xE4", At(R9, 1, 3, 1, 2);
        b"\xF8\x81\x81\x41\xC2\xFE\x00\xE4\x00\x80", At(R6, 1, 8, 1, 4);
        b"\xF0\x81\x81\x41\xC2\x7F\xFE\x00\xE4", At(R6, 1, 5, 1, 3);
        // ten groups
        b"\xF0\x81\x00\x00\x00\x00\x00\x00\x00\x00\x00\x81", At(R6, 1, 2, 1, 1);
        // the identifier
        b"\xF0\x00\x81\x81\x41\xC2\xFE\x00\xE4", At(R6, 1, 1, 0, 0);
        // an integer's delta
        b"\xE0\x82\x81\x00\x81", At(R6, 1, 3, 2, 2);
        // an exponent and a mantissa, each a piece
        b"\xF8\x83\x00\x83\x39\x45\xA3\x85", At(R6, 1, 2, 3, 1);
        b"\xF8\x83\x83\x00\x39\x45\xA3\x85", At(R6, 1, 3, 3, 1);
        // a length of elements
        b"\xC0\x84\x00\x83\x85\x86", At(R6, 1, 2, 4, 1);
        b"\xC0\x84\x00\x80", At(R6, 1, 2, 4, 1);
        b"\xC0\x85\x00\x82\xC0\x85\x80", At(R6, 1, 2, 5, 1);
        // the map of an element and of a group
        b"\xC0\x85\x81\x40\x80\x85", At(R7, 1, 3, 5, 1);
        b"\xC0\x85\x82\xC0\x85\x00\x80", At(R7, 1, 5, 5, 1);
        b"\xF0\x8B\x40\x80\x85\x86", At(R7, 1, 2, 11, 1);
    };
    const REFUSED_KINDS: &[Refused] = rows! { Refused:
        // overlong entities of each kind
        // the length of a vector and of a Unicode string
        b"\xC0\x81\x00\x82\xC3\xA9", At(R6, 1, 2, 1, 1);
        b"\xC0\x81\x00\x80", At(R6, 1, 2, 1, 1);
        b"\xC0\x82\x00\x83\xC3\xA9", At(R6, 1, 2, 2, 1);
        b"\xC0\x82\x00\x80", At(R6, 1, 2, 2, 1);
        b"\xC0\x83\x00\x81\x41", At(R6, 1, 2, 3, 1);
        // a number of units to be removed
        b"\xC0\x84\x00\x80\x81\x41", At(R6, 1, 2, 4, 1);
        b"\xC0\x84\x7F\xFF\x81\x41", At(R6, 1, 2, 4, 1);
        b"\xC0\x85\x00\x80", At(R6, 1, 2, 5, 1);
        // a new part
        b"\xC0\x84\x80\x00\x81\x41", At(R6, 1, 2, 4, 1);
        b"\xC0\x85\x81\x00\xC1", At(R9, 1, 2, 5, 1);
        // a tail
        b"\xE0\x86\x00\xC1", At(R9, 1, 2, 6, 1);
        b"\xE0\x87\x00\xC1", At(R9, 1, 2, 7, 1);
        b"\xE0\x87\x00\x00\xC1", At(R9, 1, 2, 7, 1);
        b"\xE0\x88\x00\x83\xC3\xA9", At(R6, 1, 2, 8, 1);
        b"\xE0\x88\x00\x80", At(R6, 1, 2, 8, 1);
        // a decimal in one piece
        b"\xC0\x89\x00\x80", At(R6, 1, 2, 9, 1);
        b"\xC0\x89\x00\x83\x39\x45\xA3", At(R6, 1, 2, 9, 1);
        b"\xC0\x89\x83\x00\x39\x45\xA3", At(R6, 1, 2, 9, 1);
        // and in two
        b"\xC0\x8A\x00\x82\x81", At(R6, 1, 2, 10, 1);
        b"\xC0\x8A\x82\x00\xBF", At(R6, 1, 3, 10, 1);
        b"\xC0\x8A\x82\x7F\xC0", At(R6, 1, 3, 10, 1);
        // a signed integer
        b"\xC0\x8D\x00\xBF", At(R6, 1, 2, 13, 1);
        b"\xC0\x8D\x7F\xC0", At(R6, 1, 2, 13, 1);
        b"\xC0\x8D\x00\x80", At(R6, 1, 2, 13, 1);
    };
    const JUDGED_WORKED: &[Judged] = rows! { Judged:
        // which fault comes first
        // an integer before its range
        b"\xF0\x81\x00\x10\x00\x00\x00\x80", At(D2, 1, 2, 1, 1), At(R6, 1, 2, 1, 1);
        b"\xF0\x81\x10\x00\x00\x00\x80", At(D2, 1, 2, 1, 1), At(D2, 1, 2, 1, 1);
        b"\xC0\x00\x10\x00\x00\x00\x80", At(D2, 1, 1, 0, 0), At(R6, 1, 1, 0, 0);
        // an identifier before its template
        b"\xC0\x00\xE4", At(D9, 1, 1, 0, 0), At(R6, 1, 1, 0, 0);
        b"\xC0\x01\x80", At(D9, 1, 1, 0, 0), At(D9, 1, 1, 0, 0);
        // a map before its bits, and before the identifier
        b"\x00\x80", At(D5, 1, 2, 0, 0), At(R7, 1, 0, 0, 0);
        b"\x40\x80\xE4", At(D9, 1, 2, 0, 0), At(R7, 1, 0, 0, 0);
        b"\x40\x80\x00\xE4", At(D9, 1, 2, 0, 0), At(R7, 1, 0, 0, 0);
        b"\xF0\x8B\x00\x80\x86", At(D5, 1, 4, 11, 2), At(R7, 1, 2, 11, 1);
        // a length before its limit
        b"\xC0\x84\x00\x04\x00\x81", At(Limit, 1, 2, 4, 1), At(R6, 1, 2, 4, 1);
        b"\xC0\x84\x04\x00\x81", At(Limit, 1, 2, 4, 1), At(Limit, 1, 2, 4, 1);
        // a delta before its base
        b"\xC0\x8D\x00\x85", At(D6, 1, 2, 13, 2), At(R6, 1, 2, 13, 2);
        b"\xC0\x8D\x85", At(D6, 1, 2, 13, 2), At(D6, 1, 2, 13, 2);
        // nothing before the stop bit has come
        b"\xF0\x81\x00\x00\x00\x00\x00\x00\x00\x00\x00\x00", At(Limit, 1, 2, 1, 1), At(Limit, 1, 2, 1, 1);
        b"\xF0\x81\x00\x00\x00\x00\x00\x00\x00\x00\x00", At(Truncated, 1, 2, 1, 1), At(Truncated, 1, 2, 1, 1);
        b"\x00\x00", At(Truncated, 1, 0, 0, 0), At(Truncated, 1, 0, 0, 0);
        // the fault of a field before the bits that are left
        b"\xF1\x81\x81\x41\xC2\x00\xC0", At(R1, 1, 5, 1, 3), At(R1, 1, 5, 1, 3);
        b"\xF1\x81\x81\x41\xC2\xFE\x00", At(Truncated, 1, 5, 1, 3), At(Truncated, 1, 5, 1, 3);
        b"\xC0\x85\x82\xE0", At(Truncated, 1, 4, 5, 2), At(Truncated, 1, 4, 5, 2);
        // and the bits of a group and an element that are left before what follows
        b"\xF0\x8B\xE0\x85\x10\x00\x00\x00\x80", At(D2, 1, 4, 11, 3), At(R8, 1, 4, 11, 1);
        b"\xC0\x85\x82\xE0\x85\xC0", At(Truncated, 1, 6, 5, 2), At(R8, 1, 5, 5, 1);
    };
    const JUDGED_KINDS: &[Judged] = rows! { Judged:
        // which fault of each kind comes first
        // an integer before its range
        b"\xC0\x8A\x00\x00\xC0\x81", At(R1, 1, 2, 10, 1), At(R6, 1, 2, 10, 1);
        b"\xC0\x89\x00\x00\xC1\x81", At(R1, 1, 2, 9, 1), At(R6, 1, 2, 9, 1);
        b"\xC0\x89\x00\xC1\x81", At(R1, 1, 2, 9, 1), At(R1, 1, 2, 9, 1);
        // but the range of an exponent before the mantissa
        b"\xC0\x89\x00\xC1\x00\x81", At(R1, 1, 2, 9, 1), At(R1, 1, 2, 9, 1);
        // a number of units before they are removed
        b"\xC0\x84\x00\x00\xC0\x80", At(D7, 1, 2, 4, 1), At(R6, 1, 2, 4, 1);
        b"\xC0\x84\x00\xC0\x80", At(D7, 1, 2, 4, 1), At(D7, 1, 2, 4, 1);
        b"\xC0\x84\x7F\xBF\x80", At(D7, 1, 2, 4, 1), At(D7, 1, 2, 4, 1);
        // but that before the new part
        b"\xC0\x84\x81\x00\x81\x41", At(D7, 1, 2, 4, 1), At(D7, 1, 2, 4, 1);
        b"\xC0\x85\x82\x00\xC1", At(D7, 1, 2, 5, 1), At(D7, 1, 2, 5, 1);
        // a length before its limit, its bytes and their text
        b"\xC0\x81\x00\x04\x00\x80", At(Limit, 1, 2, 1, 1), At(R6, 1, 2, 1, 1);
        b"\xC0\x81\x00\x82", At(Truncated, 1, 2, 1, 1), At(R6, 1, 2, 1, 1);
        b"\xC0\x81\x01\x80", At(Truncated, 1, 2, 1, 1), At(Truncated, 1, 2, 1, 1);
        b"\xC0\x83\x00\x81\xFF", At(R2, 1, 2, 3, 1), At(R6, 1, 2, 3, 1);
        // a tail before the type of its base
        b"\xF0\x8B\x85\x00\xC1", At(D4, 1, 3, 11, 2), At(R9, 1, 3, 11, 2);
        b"\xF0\x8B\x85\xC1", At(D4, 1, 3, 11, 2), At(D4, 1, 3, 11, 2);
        // a field without a value before the bits that are left
        b"\x7F\xA0\x8C\x81\x82\x83\x84\x85\x86", At(D5, 1, 9, 12, 7), At(D5, 1, 9, 12, 7);
    };
    let on = loaded(&rt, rt.alloc(), WORKED)?;
    each_refused(&rt, &on, REFUSED_WORKED, JUDGED_WORKED)?;
    let on = loaded(&rt, rt.alloc(), KINDS)?;
    each_refused(&rt, &on, REFUSED_KINDS, JUDGED_KINDS)
}

#[test]
fn streams_that_are_just_not_overlong(rt: HostRuntime) -> Tried {
    const READ_STRICT: &[Row] = rows! { Row { stream, want, end }:
        // entities that are just not
        b"\xF8\x83\x83\x39\x45\xA3\x85", &[Sent(3, &[Decimal(2, 942_755), Number(5)])], Whole;
        b"\xE0\x82\x81\x00\xC0", &[Sent(2, &[Number(1), Number(64)])], Whole;
        b"\xF0\x8B\xC0\x85\x86", &[Sent(11, &[Group(&[5]), Number(6)])], Whole;
        b"\xC0\x85\x82\xC0\x85\x80", &[Sent(5, &[Sequence(&[&[5], &[5]])])], Whole;
        b"\xC0\x84\x80\x80\x81\x80\x83\x85\x86",
            &[Sent(4, &[Absent]), Sent(4, &[Sequence(&[])]), Sent(4, &[Sequence(&[&[5], &[6]])])], Whole;
        b"\xF0\x81\x81\x41\xC2\xFE\x00\xE4\x80\x80\x00\x81",
            &[Sent(1, &[Number(1), Text(b"AB"), Decimal(-2, 100), Absent])], At(R6, 2, 9, 1, 3);
        // bits that are left
        b"\xF1\x81\x81\x41\xC2\xFE\x00\xE4", &[], At(R8, 1, 8, 1, 0);
        // bits are asked for by this very message
        b"\xF8\x83\x80\x85", &[], At(R8, 1, 4, 3, 0);
        b"\xF0\x8B\xE0\x85\x86", &[], At(R8, 1, 4, 11, 1);
        b"\xC0\x85\x82\xE0\x85\x80", &[], At(R8, 1, 5, 5, 1);
        b"\xC0\x85\x82\xC0\x85\xA0", &[], At(R8, 1, 6, 5, 1);
        b"\xF0\x81\x81\x41\xC2\xFE\x00\xE4\x81\x80\x81",
            &[Sent(1, &[Number(1), Text(b"AB"), Decimal(-2, 100), Absent])], At(R8, 2, 11, 1, 0);
    };
    const KINDS_READ: &[Row] = rows! { Row { stream, want, end }:
        // entities of each kind that are just not
        b"\xC0\x81\x80", &[Sent(1, &[Bytes(b"")])], Whole;
        b"\xC0\x82\x80", &[Sent(2, &[Absent])], Whole;
        b"\xC0\x82\x81", &[Sent(2, &[Bytes(b"")])], Whole;
        b"\xC0\x85\x80", &[Sent(5, &[Absent])], Whole;
        // a new part has the form without NULL
        b"\xC0\x85\x81\x00\x80", &[Sent(5, &[Text(b"\0")])], Whole;
        b"\xC0\x85\x81\x00\x00\xC1", &[Sent(5, &[Text(b"\0A")])], Whole;
        b"\xE0\x86\x00\x80", &[Sent(6, &[Text(b"\0")])], Whole;
        b"\xE0\x86\x00\x00\xC1", &[Sent(6, &[Text(b"\0A")])], Whole;
        // and the tail of an optional field the one with NULL
        b"\xE0\x87\x80", &[Sent(7, &[Absent])], Whole;
        b"\xE0\x87\x00\x80", &[Sent(7, &[Text(b"")])], Whole;
        b"\xE0\x87\x00\x00\x80", &[Sent(7, &[Text(b"\0")])], Whole;
        b"\xE0\x87\x00\x00\x00\xC1", &[Sent(7, &[Text(b"\0A")])], Whole;
        b"\xE0\x88\x83\xC3\xA9", &[Sent(8, &[Bytes(b"\xC3\xA9")])], Whole;
        // a group of zeros or ones in front that the sign needs
        b"\xC0\x89\x83\x00\x40\x81", &[Sent(9, &[Decimal(2, 8193)])], Whole;
        b"\xC0\x89\x83\x7F\x3F\xFF", &[Sent(9, &[Decimal(2, -8193)])], Whole;
        b"\xC0\x8A\x82\x00\xC0", &[Sent(10, &[Decimal(2, 64)])], Whole;
        b"\xC0\x8A\x82\x7F\xBF", &[Sent(10, &[Decimal(2, -65)])], Whole;
        b"\xC0\x8D\x00\xC0", &[Sent(13, &[Signed(63)])], Whole;
        b"\xC0\x8D\x7F\xBF", &[Sent(13, &[Signed(-65)])], Whole;
        // a map of two groups
        b"\x7F\xC0\x8C\x81\x82\x83\x84\x85\x86\x87",
            &[Sent(12, &[Number(1), Number(2), Number(3), Number(4), Number(5), Number(6), Number(7)])], Whole;
        // bits that are left
        b"\x7F\xE0\x8C\x81\x82\x83\x84\x85\x86\x87", &[], At(R8, 1, 10, 12, 0);
        b"\xE0\x81\x80", &[], At(R8, 1, 3, 1, 0);
    };
    const READ_PLAIN: &[Row] = rows! { Row { stream, want, end }:
        // usual entities
        // A preamble before a character other than NUL is nothing at the usual level.
        b"\xF0\x81\x81\x00\xC1\xFE\x00\xE4", &[Sent(1, &[Number(1), Text(b"A"), Decimal(-2, 100), Absent])], Whole;
        b"\xF1\x81\x81\x41\xC2\xFE\x00\xE4", &[Sent(1, &[Number(1), Text(b"AB"), Decimal(-2, 100), Absent])], Whole;
        b"\xF8\x81\x81\x41\xC2\xFE\x00\xE4\x00\x80", &[Sent(1, &[Number(1), Text(b"AB"), Decimal(-2, 100), Absent])],
            Whole;
        b"\xF8\x83\x80\x85", &[Sent(3, &[Absent, Number(5)])], Whole;
        b"\xC0\x84\x00\x80", &[Sent(4, &[Absent])], Whole;
        b"\xF0\x8B\x40\x80\x85\x86", &[Sent(11, &[Group(&[5]), Number(6)])], Whole;
        b"\xC0\x85\x82\xE0\x85\xA0", &[Sent(5, &[Sequence(&[&[5], &[5]])])], Whole;
    };
    all_read_in(&rt, rt.alloc(), STRICT, READ_STRICT)?;
    let on = loaded(&rt, rt.alloc(), KINDS)?;
    each_read(&rt, &on, STRICT, KINDS_READ)?;
    all_read_in(&rt, rt.alloc(), PLAIN, READ_PLAIN)
}

// A preamble is judged before the characters are counted.
#[test]
fn long_strings(rt: HostRuntime) -> Tried {
    long(&rt, rt.alloc(), STRICT, 0, 65_534, None)?;
    let overlong = At(R9, 1, 3, 1, 2).fault();
    long(&rt, rt.alloc(), STRICT, 1, 65_535, overlong)?;
    let limit = At(Limit, 1, 3, 1, 2).fault();
    long(&rt, rt.alloc(), STRICT, 0, 65_535, limit)?;
    long(&rt, rt.alloc(), STRICT, 0, 65_540, limit)
}
