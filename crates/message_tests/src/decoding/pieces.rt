//! Pieces of many bytes that come in few at a time, over both kinds of entries.

use crate::base::*;
use crate::decoding::long::{Coming, all_read};
use crate::decoding::streams::Row;
use stream_rows::long::{LONG, Long};
use stream_rows::modes::{BLOCKS, STRICT_BLOCKS};
use stream_rows::sent::{Sent, Shown};

// A string or a vector of each form, and a number behind it.
const STRINGS: &str =
    r#"{"templates":[{"name":"Text","id":1,"instructions":[{"kind":"string","name":"S"},
 {"kind":"uInt32","name":"N"}]},{"name":"MaybeText","id":2,"instructions":[
 {"kind":"string","name":"S","presence":"optional"},{"kind":"uInt32","name":"N"}]},
 {"name":"Copied","id":3,"instructions":[{"kind":"string","name":"S","operator":"copy"},{"kind":"uInt32","name":"N"}]},
 {"name":"Ended","id":4,"instructions":[{"kind":"string","name":"S","operator":"tail"},{"kind":"uInt32","name":"N"}]},
 {"name":"Bytes","id":5,"instructions":[{"kind":"byteVector","name":"B"},{"kind":"uInt32","name":"N"}]},
 {"name":"MaybeBytes","id":6,"instructions":[
 {"kind":"byteVector","name":"B","presence":"optional","operator":"default"},{"kind":"uInt32","name":"N"}]},
 {"name":"Unicode","id":7,"instructions":[{"kind":"string","charset":"unicode","name":"S"},
 {"kind":"uInt32","name":"N"}]},{"name":"Changed","id":8,"instructions":[
 {"kind":"string","name":"S","operator":"delta"},{"kind":"uInt32","name":"N"}]},
 {"name":"ChangedUnicode","id":9,"instructions":[{"kind":"string","charset":"unicode","name":"S","operator":"delta"},
 {"kind":"uInt32","name":"N"}]},{"name":"ChangedBytes","id":10,"instructions":[
 {"kind":"byteVector","name":"B","presence":"optional","operator":"delta"},{"kind":"uInt32","name":"N"}]},
 {"name":"Price","id":11,"instructions":[{"kind":"decimal","name":"P"},{"kind":"decimal","name":"D","operator":"delta"},
 {"kind":"decimal","name":"E","exponent":{"operator":"copy"},"mantissa":{"operator":"delta"}},
 {"kind":"uInt32","name":"N"}]}]}"#;

const LETTERS: &[Shown] = &[Shown::Letters(40), Shown::Number(5)];

// Bytes that would each be a stop bit in a text.
const RAW: &[u8] =
    b"\xC1\xC1\xC1\xC1\xC1\xC1\xC1\xC1\xC1\xC1\xC1\xC1\xC1\xC1\xC1\xC1\xC1\xC1\xC1\xC1";

const VECTOR: &[Shown] = &[Shown::Bytes(RAW), Shown::Number(5)];

const PRICES: &[Shown] = &[
    Shown::Decimal(-2, 1_048_576),
    Shown::Decimal(-2, 1_048_576),
    Shown::Decimal(-2, 1_048_576),
    Shown::Number(5),
];

const UNICODE: &[Shown] = &[Shown::Unicode("ééééé ééééé ééééé!"), Shown::Number(5)];

// Streams of one message each.
const WHOLE: &[Long] = rows! { Long { pieces, want, end }:
    &[(b"\xC0\x81", 1), (b"\x41", 39), (b"\xC1\x85", 1)], &[Sent(1, LETTERS)], Whole;
    &[(b"\xC0\x82", 1), (b"\x41", 39), (b"\xC1\x85", 1)], &[Sent(2, LETTERS)], Whole;
    &[(b"\xE0\x83", 1), (b"\x41", 39), (b"\xC1\x85", 1)], &[Sent(3, LETTERS)], Whole;
    &[(b"\xE0\x84", 1), (b"\x41", 39), (b"\xC1\x85", 1)], &[Sent(4, LETTERS)], Whole;
    &[(b"\xC0\x85\x94", 1), (b"\xC1", 20), (b"\x85", 1)], &[Sent(5, VECTOR)], Whole;
    &[(b"\xE0\x86\x95", 1), (b"\xC1", 20), (b"\x85", 1)], &[Sent(6, VECTOR)], Whole;
    &[(b"\xC0\x87\xA1", 1), (b"\xC3\xA9", 5), (b" ", 1), (b"\xC3\xA9", 5), (b" ", 1), (b"\xC3\xA9", 5), (b"!\x85", 1)],
        &[Sent(7, UNICODE)], Whole;
    &[(b"\xC0\x88\x80", 1), (b"\x41", 39), (b"\xC1\x85", 1)], &[Sent(8, LETTERS)], Whole;
    &[(b"\xC0\x89\x80\xA1", 1), (b"\xC3\xA9", 5), (b" ", 1), (b"\xC3\xA9", 5), (b" ", 1), (b"\xC3\xA9", 5),
        (b"!\x85", 1)], &[Sent(9, UNICODE)], Whole;
    &[(b"\xC0\x8A\x81\x94", 1), (b"\xC1", 20), (b"\x85", 1)], &[Sent(10, VECTOR)], Whole;
    // (the mantissa of each decimal is 2 ^ 20)
    &[(b"\xE0\x8B", 1), (b"\xFE\x00\x40\x00\x80", 3), (b"\x85", 1)], &[Sent(11, PRICES)], Whole;
};

// Streams that end one byte early.
const EARLY: &[Long] = rows! { Long { pieces, want, end }:
    &[(b"\xC0\x81", 1), (b"\x41", 39)], &[], At(Truncated, 1, 2, 1, 1);
    &[(b"\xE0\x84", 1), (b"\x41", 39)], &[], At(Truncated, 1, 2, 4, 1);
    &[(b"\xC0\x85\x94", 1), (b"\xC1", 19)], &[], At(Truncated, 1, 2, 5, 1);
    &[(b"\xE0\x86\x95", 1), (b"\xC1", 19)], &[], At(Truncated, 1, 2, 6, 1);
    &[(b"\xC0\x87\xA1", 1), (b"\xC3\xA9", 16)], &[], At(Truncated, 1, 2, 7, 1);
    &[(b"\xC0\x88\x80", 1), (b"\x41", 39)], &[], At(Truncated, 1, 2, 8, 1);
    &[(b"\xC0\x89\x80\xA1", 1), (b"\xC3\xA9", 16)], &[], At(Truncated, 1, 2, 9, 1);
    &[(b"\xC0\x8A\x81\x94", 1), (b"\xC1", 19)], &[], At(Truncated, 1, 2, 10, 1);
    &[(b"\xE0\x8B\xFE\x00\x40\x00", 1)], &[], At(Truncated, 1, 2, 11, 1);
    // a removal from a base that has nothing is refused before its new part has come
    &[(b"\xC0\x88\x81", 1), (b"\x41", 39)], &[], At(D7, 1, 2, 8, 1);
    &[(b"\xC0\x89\x81\xA1", 1), (b"\xC3\xA9", 16)], &[], At(D7, 1, 2, 9, 1);
};

// The streams of these tables however their bytes come.
fn all_come(rt: &impl Abort, alloc: Global, tables: &[&[Long]]) -> Tried {
    let on = loaded(rt, alloc, STRINGS)?;
    for rows in tables {
        all_read(rt, &on, Coming::EachWay, rows)?;
    }
    Ok(())
}

#[test]
fn long_pieces_in_few_bytes(rt: HostRuntime) -> Tried {
    all_come(&rt, rt.alloc(), &[WHOLE, EARLY])
}

// Blocks that end inside a text and inside a vector: no byte more is waited for.
const CUT_OFF: &[Row] = rows! { Row { stream, want, end }:
    b"\x8C\xC0\x81AAAAAAAAAA", &[], At(BlockEnd, 1, 3, 1, 1);
    b"\x8C\xC0\x85\x94AAAAAAAAA", &[], At(BlockEnd, 1, 3, 5, 1);
};

#[test]
fn long_pieces_in_short_blocks(rt: HostRuntime) -> Tried {
    let on = loaded(&rt, rt.alloc(), STRINGS)?;
    for row in CUT_OFF {
        let want = Want(&[], row.end.fault());
        same(&rt, agrees(&on, BLOCKS, row.stream, want)?, true);
        same(&rt, agrees(&on, STRICT_BLOCKS, row.stream, want)?, true);
    }
    Ok(())
}

// Streams of 65,535 characters and more.
#[test]
fn longest_pieces_byte_by_byte(rt: HostRuntime) -> Tried {
    let on = worked(&rt, rt.alloc())?;
    all_read(&rt, &on, Coming::ByteByByte, LONG)
}
