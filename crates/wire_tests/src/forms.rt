//! The vectors of every form, read, written and sized, and calls at their limits. A test is a table of rows, and what is
//! done with a row stands in a function of its own: each value that lies at a `?` makes a proof longer.

use crate::same::{Wired, same};
use fast_wire::*;
use std::alloc::Global;
use std::process::Abort;
use test_rows::{list, rows};

#[test]
fn forms_are_written_and_read(rt: HostRuntime) -> Wired {
    const ROWS: &[(Form, &[u8])] = rows! {
        // unsigned integers
        Form::Unsigned(942_755), b"\x39\x45\xa3";
        Form::Unsigned(4_294_967_295), b"\x0f\x7f\x7f\x7f\xff";
        Form::Unsigned(0), b"\x80";
        Form::Unsigned((1 << 70) - 1), b"\x7f\x7f\x7f\x7f\x7f\x7f\x7f\x7f\x7f\xff";
        // signed integers
        Form::Signed(942_755), b"\x39\x45\xa3";
        Form::Signed(-942_755), b"\x46\x3a\xdd";
        Form::Signed(-7_942_755), b"\x7c\x1b\x1b\x9d";
        Form::Signed(8193), b"\x00\x40\x81";
        Form::Signed(-8193), b"\x7f\x3f\xff";
        Form::Signed(2), b"\x82";
        Form::Signed((1 << 69) - 1), b"\x3f\x7f\x7f\x7f\x7f\x7f\x7f\x7f\x7f\xff";
        // unsigned integers or NULL
        Form::UnsignedNullable(Nullable::Null), b"\x80";
        Form::UnsignedNullable(Nullable::Value(0)), b"\x81";
        Form::UnsignedNullable(Nullable::Value((1 << 64) - 1)), b"\x02\x00\x00\x00\x00\x00\x00\x00\x00\x80";
        Form::UnsignedNullable(Nullable::Value((1 << 70) - 2)), b"\x7f\x7f\x7f\x7f\x7f\x7f\x7f\x7f\x7f\xff";
        // signed integers or NULL
        Form::SignedNullable(Nullable::Value(942_755)), b"\x39\x45\xa4";
        Form::SignedNullable(Nullable::Value(-942_755)), b"\x46\x3a\xdd";
        Form::SignedNullable(Nullable::Null), b"\x80";
        Form::SignedNullable(Nullable::Value(0)), b"\x81";
        Form::SignedNullable(Nullable::Value(63)), b"\x00\xc0";
        Form::SignedNullable(Nullable::Value(-64)), b"\xc0";
        // ASCII strings or NULL
        Form::AsciiNullable(Nullable::Null), b"\x80";
        Form::AsciiNullable(Nullable::Value(b"")), b"\x00\x80";
        Form::AsciiNullable(Nullable::Value(b"\0")), b"\x00\x00\x80";
        Form::AsciiNullable(Nullable::Value(b"\0A")), b"\x00\x00\x00\xc1";
        Form::AsciiNullable(Nullable::Value(b"A")), b"\xc1";
        // ASCII strings
        Form::Ascii(b""), b"\x80";
        Form::Ascii(b"\0"), b"\x00\x80";
        Form::Ascii(b"\0A"), b"\x00\x00\xc1";
        Form::Ascii(b"A"), b"\xc1";
        // vectors
        Form::Vector(b"\xc3\xa9"), b"\x82\xc3\xa9";
        Form::Vector(b""), b"\x80";
        // vectors or NULL
        Form::VectorNullable(Nullable::Value(b"\xc3\xa9")), b"\x83\xc3\xa9";
        Form::VectorNullable(Nullable::Value(b"")), b"\x81";
        Form::VectorNullable(Nullable::Null), b"\x80";
        // maps
        Form::Map(&[true, true, true, false]), b"\xf0";
        Form::Map(&[]), b"\x80";
        Form::Map(&[false, false, false, false, false, false, false, true]), b"\x00\xc0";
        Form::Map(&[false; 20]), b"\x80";
    };
    for (form, bytes) in ROWS {
        agrees(&rt, rt.alloc(), *form, bytes)?;
    }
    Ok(())
}

#[test]
fn forms_are_refused(rt: HostRuntime) {
    const ROWS: &[(Form, WireFault)] = rows! {
        Form::Unsigned(1 << 70), WireFault::Range;
        Form::Signed(1 << 69), WireFault::Range;
        Form::Signed(-(1 << 69) - 1), WireFault::Range;
        Form::UnsignedNullable(Nullable::Value((1 << 70) - 1)), WireFault::Range;
        Form::UnsignedNullable(Nullable::Value(u128::MAX)), WireFault::Range;
        Form::SignedNullable(Nullable::Value((1 << 69) - 1)), WireFault::Range;
        Form::SignedNullable(Nullable::Value(i128::MAX)), WireFault::Range;
        Form::SignedNullable(Nullable::Value(i128::MIN)), WireFault::Range;
        Form::Ascii(b"\x80"), WireFault::Range;
    };
    all_refused(&rt, rt.alloc(), ROWS);
}

#[test]
fn long_forms_are_refused(rt: HostRuntime) {
    const ROWS: &[(Form, WireFault)] = rows! {
        Form::Ascii(&[0x41; 65_536]), WireFault::TooLong;
        Form::AsciiNullable(Nullable::Value(&[0x41; 65_536])), WireFault::TooLong;
        Form::Vector(&[0x41; 65_536]), WireFault::TooLong;
        Form::Map(&[true; 1793]), WireFault::TooLong;
    };
    all_refused(&rt, rt.alloc(), ROWS);
}

/// A character beyond ASCII comes before a text that is too long.
#[test]
fn wide_forms_are_refused(rt: HostRuntime) {
    let mut wide = [0x41; 65_536];
    wide[65_535] = 0x80;
    is_refused(&rt, rt.alloc(), Form::Ascii(&wide), WireFault::Range);
    let wide = Nullable::Value(wide.as_slice());
    is_refused(&rt, rt.alloc(), Form::AsciiNullable(wide), WireFault::Range);
}

/// Integers that are longer than they need be, that are cut or have no end, and behind others. The readers in 64 bits
/// answer what the others do, at one byte, at nine, and beyond.
#[test]
fn integers_are_read(rt: HostRuntime) {
    const ROWS: &[(&[u8], usize, Read)] = rows! {
        // unsigned integers
        b"\x00\x00\x81", 0, Read::Unsigned(Ok((1, 3)));
        b"\xff\x81", 1, Read::Unsigned(Ok((1, 2)));
        &[0x00; 9], 0, Read::Unsigned(Err(WireFault::NeedMore));
        &[0x00; 10], 0, Read::Unsigned(Err(WireFault::TooLong));
        b"\x80", 1, Read::Unsigned(Err(WireFault::NeedMore));
        // signed integers
        &[0x00; 10], 0, Read::Signed(Err(WireFault::TooLong));
        &[0x00; 9], 0, Read::Signed(Err(WireFault::NeedMore));
        // a decimal is two of them, the exponent and then the mantissa
        b"\x82\x39\x45\xa3", 0, Read::Signed(Ok((2, 1)));
        b"\x82\x39\x45\xa3", 1, Read::Signed(Ok((942_755, 4)));
        // unsigned integers or NULL
        b"\x00\x80", 0, Read::UnsignedNullable(Ok((Nullable::Null, 2)));
        &[0x00; 10], 0, Read::UnsignedNullable(Err(WireFault::TooLong));
        // signed integers or NULL
        b"\x00\x80", 0, Read::SignedNullable(Ok((Nullable::Null, 2)));
        b"\x7f", 0, Read::SignedNullable(Err(WireFault::NeedMore));
        // unsigned integers in 64 bits
        b"\x80", 0, Read::U64(Ok((0, 1)));
        b"\x39\x45\xa3", 0, Read::U64(Ok((942_755, 3)));
        b"\x7f\x7f\x7f\x7f\x7f\x7f\x7f\x7f\xff", 0, Read::U64(Ok(((1 << 63) - 1, 9)));
        b"\x01\x7f\x7f\x7f\x7f\x7f\x7f\x7f\x7f\xff", 0, Read::U64(Ok((u64::MAX, 10)));
        b"\x02\x00\x00\x00\x00\x00\x00\x00\x00\x81", 0, Read::U64(Err(WireFault::Range));
        &[0x00; 9], 0, Read::U64(Err(WireFault::NeedMore));
        // signed integers in 64 bits
        b"\x82", 0, Read::I64(Ok((2, 1)));
        b"\xff", 0, Read::I64(Ok((-1, 1)));
        b"\x46\x3a\xdd", 0, Read::I64(Ok((-942_755, 3)));
        b"\x3f\x7f\x7f\x7f\x7f\x7f\x7f\x7f\xff", 0, Read::I64(Ok(((1 << 62) - 1, 9)));
        b"\x40\x00\x00\x00\x00\x00\x00\x00\x80", 0, Read::I64(Ok((-(1 << 62), 9)));
        b"\x7f\x00\x00\x00\x00\x00\x00\x00\x00\x80", 0, Read::I64(Ok((i64::MIN, 10)));
        b"\x01\x7f\x7f\x7f\x7f\x7f\x7f\x7f\x7f\xff", 0, Read::I64(Err(WireFault::Range));
        &[0x00; 10], 0, Read::I64(Err(WireFault::TooLong));
        // unsigned integers in 64 bits or NULL
        b"\x80", 0, Read::U64Nullable(Ok((Nullable::Null, 1)));
        b"\x00\x80", 0, Read::U64Nullable(Ok((Nullable::Null, 2)));
        b"\x02\x00\x00\x00\x00\x00\x00\x00\x00\x80", 0, Read::U64Nullable(Ok((Nullable::Value(u64::MAX), 10)));
        b"\x02\x00\x00\x00\x00\x00\x00\x00\x00\x81", 0, Read::U64Nullable(Err(WireFault::Range));
        &[], 0, Read::U64Nullable(Err(WireFault::NeedMore));
        // signed integers in 64 bits or NULL
        b"\x80", 0, Read::I64Nullable(Ok((Nullable::Null, 1)));
        b"\xc0", 0, Read::I64Nullable(Ok((Nullable::Value(-64), 1)));
        b"\x00\xc0", 0, Read::I64Nullable(Ok((Nullable::Value(63), 2)));
        b"\x01\x7f\x7f\x7f\x7f\x7f\x7f\x7f\x7f\xff", 0, Read::I64Nullable(Err(WireFault::Range));
        b"\x7f", 0, Read::I64Nullable(Err(WireFault::NeedMore));
    };
    all_read(&rt, ROWS);
}

/// Where texts and vectors stand, and what is UTF-8.
#[test]
fn places_are_read(rt: HostRuntime) {
    const LETTER: Nullable<Span> = Nullable::Value(Span { start: 1, end: 2 });
    const ROWS: &[(&[u8], usize, Read)] = rows! {
        b"\x80", 0, Read::Text(Ok((Span { start: 1, end: 1 }, 1)));
        b"\x00\xc1", 0, Read::Text(Ok((Span { start: 1, end: 2 }, 2)));
        b"\x48\x65\xf9\x80", 0, Read::Text(Ok((Span { start: 0, end: 3 }, 3)));
        b"Hey", 0, Read::Text(Err(WireFault::NeedMore));
        b"\x82\xc3\xa9", 0, Read::Vector(Ok((Span { start: 1, end: 3 }, 3)));
        b"\x83\xc3", 0, Read::Vector(Err(WireFault::NeedMore));
        b"\x80", 0, Read::TextNullable(Ok((Nullable::Null, 1)));
        b"\x00\xc1", 0, Read::TextNullable(Ok((LETTER, 2)));
        b"\x80", 0, Read::VectorNullable(Ok((Nullable::Null, 1)));
        b"\x82\x41", 0, Read::VectorNullable(Ok((LETTER, 2)));
        b"\xc3\xa9", 0, Read::Utf8(Ok(()));
        b"\xc3\x41", 0, Read::Utf8(Err(WireFault::NotUtf8));
    };
    all_read(&rt, ROWS);
}

/// What a reader answers that copies nothing: a value and the place after it.
#[derive(Clone, Copy)]
enum Read {
    Unsigned(Wired<(u128, usize)>),
    Signed(Wired<(i128, usize)>),
    UnsignedNullable(Wired<(Nullable<u128>, usize)>),
    SignedNullable(Wired<(Nullable<i128>, usize)>),
    U64(Wired<(u64, usize)>),
    I64(Wired<(i64, usize)>),
    U64Nullable(Wired<(Nullable<u64>, usize)>),
    I64Nullable(Wired<(Nullable<i64>, usize)>),
    Text(Wired<(Span, usize)>),
    Vector(Wired<(Span, usize)>),
    TextNullable(Wired<(Nullable<Span>, usize)>),
    VectorNullable(Wired<(Nullable<Span>, usize)>),
    Utf8(Wired),
}

// This is answered of bytes, from a place on.
fn answers(rt: &impl Abort, bytes: &[u8], at: usize, wanted: Read) {
    let at = at.min(bytes.len());
    match wanted {
        Read::Unsigned(wanted) => same(rt, read_unsigned(bytes, at), wanted),
        Read::Signed(wanted) => same(rt, read_signed(bytes, at), wanted),
        Read::UnsignedNullable(wanted) => same(rt, read_unsigned_nullable(bytes, at), wanted),
        Read::SignedNullable(wanted) => same(rt, read_signed_nullable(bytes, at), wanted),
        Read::U64(wanted) => same(rt, read_u64(bytes, at), wanted),
        Read::I64(wanted) => same(rt, read_i64(bytes, at), wanted),
        Read::U64Nullable(wanted) => same(rt, read_u64_nullable(bytes, at), wanted),
        Read::I64Nullable(wanted) => same(rt, read_i64_nullable(bytes, at), wanted),
        Read::Text(wanted) => same(rt, find_ascii(bytes, at), wanted),
        Read::Vector(wanted) => same(rt, find_vector(bytes, at), wanted),
        Read::TextNullable(wanted) => same(rt, find_ascii_nullable(bytes, at), wanted),
        Read::VectorNullable(wanted) => same(rt, find_vector_nullable(bytes, at), wanted),
        Read::Utf8(wanted) => same(rt, check_text(bytes), wanted),
    }
}

fn all_read(rt: &impl Abort, rows: &[(&[u8], usize, Read)]) {
    for (bytes, at, wanted) in rows {
        answers(rt, bytes, *at, *wanted);
    }
}

/// The writers in 64 bits append what the others do.
#[test]
fn short_forms(rt: HostRuntime) -> Wired {
    const U64S: &[u64] = &[0, 127, 128, 942_755, u64::MAX];
    const I64S: &[i64] = &[0, 62, 63, 64, -1, -64, -65, -942_755, i64::MAX, i64::MIN];
    for value in U64S {
        let (short, wide) = (*value, u128::from(*value));
        are_alike(&rt, rt.alloc(), &Form::U64(short), Form::Unsigned(wide))?;
        let short = Form::U64Nullable(Nullable::Value(short));
        let wide = Form::UnsignedNullable(Nullable::Value(wide));
        are_alike(&rt, rt.alloc(), &short, wide)?;
    }
    for value in I64S {
        let (short, wide) = (*value, i128::from(*value));
        are_alike(&rt, rt.alloc(), &Form::I64(short), Form::Signed(wide))?;
        let short = Form::I64Nullable(Nullable::Value(short));
        let wide = Form::SignedNullable(Nullable::Value(wide));
        are_alike(&rt, rt.alloc(), &short, wide)?;
    }
    Ok(())
}

// The bits of a map are these.
fn bits_are(rt: &impl Abort, bits: &mut Bits, wanted: &[bool]) {
    for bit in wanted {
        if *bit {
            same(rt, bits.left_set(), true);
        }
        same(rt, bits.first(), *bit);
        same(rt, bits.take(), *bit);
    }
    same(rt, bits.left_set(), false);
    same(rt, bits.first(), false);
    same(rt, bits.take(), false);
}

fn map_is_read(rt: &impl Abort, alloc: Global, bits: &[bool], bytes: &[u8]) -> Wired {
    let (mut read, next) = read_map(alloc, bytes, 0)?;
    same(rt, next, bytes.len());
    bits_are(rt, &mut read, bits);
    Ok(())
}

// The seven bits of each byte.
fn groups_are_read(rt: &impl Abort, alloc: Global, bytes: &[u8]) -> Wired {
    let mut bits = [false; 70];
    for (i, bit) in bits.iter_mut().enumerate() {
        let byte = bytes.get(i / 7).copied().unwrap_or(0);
        *bit = (byte << (i % 7)) & 64 != 0;
    }
    map_is_read(rt, alloc, &bits, bytes)
}

/// A map that is longer than it need be, one of nine bytes, whose bits stand in one word, and one of ten.
#[test]
fn maps_are_read(rt: HostRuntime) -> Wired {
    map_is_read(&rt, rt.alloc(), &[true, true, true], &[0x70, 0x00, 0x80])?;
    let nine = &[0x41, 0x00, 0x7f, 0x02, 0x00, 0x00, 0x00, 0x01, 0xa0];
    groups_are_read(&rt, rt.alloc(), nine)?;
    let ten = &[0x41, 0x00, 0x7f, 0x02, 0x00, 0x00, 0x00, 0x01, 0x20, 0xc1];
    groups_are_read(&rt, rt.alloc(), ten)
}

/// A vector that is filled again.
#[test]
fn tails(rt: HostRuntime) -> Wired {
    const TAILS: &[(&[u8], &[u8])] = rows! {
        &[0x48, 0x65, 0xf9], b"Hey";
        &[0xc1], b"A";
        &[], b"";
        &[0x48, 0xe9], b"Hi";
    };
    let mut text = Vec::new(rt.alloc());
    for (tail, characters) in TAILS {
        fill_characters(tail, &mut text)?;
        same(&rt, text.as_slice(), *characters);
    }
    Ok(())
}

// How bytes are read: as characters or as they stand, with NULL or without.
#[derive(Clone, Copy)]
enum Reader {
    Ascii,
    AsciiNullable,
    Vector,
    VectorNullable,
}

// The value that a reader without NULL gives.
fn given(read: Wired<(Vec<u8>, usize)>) -> Wired<(Nullable<Vec<u8>>, usize)> {
    match read {
        Ok((bytes, next)) => Ok((Nullable::Value(bytes), next)),
        Err(fault) => Err(fault),
    }
}

impl Reader {
    fn read(self, alloc: Global, bytes: &[u8]) -> Wired<(Nullable<Vec<u8>>, usize)> {
        match self {
            Reader::Ascii => given(read_ascii(alloc, bytes, 0)),
            Reader::AsciiNullable => read_ascii_nullable(alloc, bytes, 0),
            Reader::Vector => given(read_vector(alloc, bytes, 0)),
            Reader::VectorNullable => read_vector_nullable(alloc, bytes, 0),
        }
    }

    fn fault(self, alloc: Global, bytes: &[u8]) -> Option<WireFault> {
        self.read(alloc, bytes).err()
    }
}

// The bytes of a value that was read, where there is one.
fn shown(value: &Nullable<Vec<u8>>) -> Nullable<&[u8]> {
    match value {
        Nullable::Null => Nullable::Null,
        Nullable::Value(bytes) => Nullable::Value(bytes.as_slice()),
    }
}

// This value was read, up to this place.
fn is_value(rt: &impl Abort, read: (Nullable<Vec<u8>>, usize), wanted: (Nullable<&[u8]>, usize)) {
    same(rt, shown(&read.0), wanted.0);
    same(rt, read.1, wanted.1);
}

// Bytes are read as this value, up to this place. Where memory was refused, the same call reads it, and the test ends.
fn is_read_to(
    rt: &impl Abort,
    alloc: Global,
    reader: Reader,
    wanted: (Nullable<&[u8]>, usize),
    bytes: &[u8],
) -> Wired {
    match reader.read(alloc, bytes) {
        Ok(read) => {
            is_value(rt, read, wanted);
            Ok(())
        }
        Err(fault) => {
            same(rt, fault, WireFault::Memory);
            is_value(rt, reader.read(alloc, bytes)?, wanted);
            Err(fault)
        }
    }
}

/// A refused copy is Memory, and the same call then gives the row's answer. Some are longer than they need be.
#[test]
fn copies_are_read(rt: HostRuntime) -> Wired {
    const LETTER: Nullable<&[u8]> = Nullable::Value(b"A");
    const ACCENT: Nullable<&[u8]> = Nullable::Value(&[0xc3, 0xa9]);
    const ROWS: &[(Reader, Nullable<&[u8]>, &[u8])] = rows! {
        Reader::Ascii, LETTER, b"\xc1";
        Reader::Vector, ACCENT, b"\x82\xc3\xa9";
        Reader::AsciiNullable, LETTER, b"\xc1";
        Reader::VectorNullable, LETTER, b"\x82\x41";
        Reader::Ascii, LETTER, b"\x00\xc1";
        Reader::AsciiNullable, LETTER, b"\x00\xc1";
        Reader::AsciiNullable, LETTER, b"\x00\x00\xc1";
    };
    for (reader, value, bytes) in ROWS {
        is_read_to(&rt, rt.alloc(), *reader, (*value, bytes.len()), bytes)?;
    }
    map_is_read(&rt, rt.alloc(), &[true, true, true], &[0xf0])
}

/// As many zeros as a text may have, behind a preamble of two.
#[test]
fn the_longest_text_of_zeros(rt: HostRuntime) -> Wired {
    let mut groups = [0x00; 65_540];
    groups[65_536] = 0x80;
    let (alloc, zeros) = (rt.alloc(), Nullable::Value(&groups[..65_535]));
    is_read_to(&rt, alloc, Reader::AsciiNullable, (zeros, 65_537), &groups)
}

/// Where no value stands no memory is asked for: the answer is the same, whichever allocation is refused.
#[test]
fn no_memory_for_no_value(rt: HostRuntime) {
    const ROWS: &[(Reader, &[u8], WireFault)] = rows! {
        Reader::Ascii, b"Hey", WireFault::NeedMore;
        Reader::Ascii, &[0x00; 65_539], WireFault::NeedMore;
        Reader::Ascii, &[0x00; 65_540], WireFault::TooLong;
        Reader::AsciiNullable, b"Hey", WireFault::NeedMore;
        Reader::Vector, b"\x83\x41\x42", WireFault::NeedMore;
        Reader::Vector, b"\x82\xc3", WireFault::NeedMore;
        Reader::Vector, b"\x04", WireFault::NeedMore;
        Reader::Vector, b"\x04\x00\x80", WireFault::TooLong;
        Reader::VectorNullable, b"\x84\x41", WireFault::NeedMore;
        Reader::VectorNullable, b"\x04\x00\x81", WireFault::TooLong;
    };
    for (reader, bytes, fault) in ROWS {
        same(&rt, reader.fault(rt.alloc(), bytes), Some(*fault));
    }
    let mut closed = [0x00; 65_540];
    closed[65_536] = 0x80;
    let fault = Reader::Ascii.fault(rt.alloc(), &closed);
    same(&rt, fault, Some(WireFault::TooLong));
}

#[test]
fn maps_are_refused(rt: HostRuntime) {
    const ROWS: &[(&[u8], WireFault)] = rows! {
        b"\x40", WireFault::NeedMore;
        &[0x00; 255], WireFault::NeedMore;
        &[0x00; 256], WireFault::TooLong;
    };
    for (bytes, fault) in ROWS {
        same(&rt, read_map(rt.alloc(), bytes, 0).err(), Some(*fault));
    }
    bits_are(&rt, &mut Bits::none(rt.alloc()), &[]);
}

#[test]
fn the_longest_map(rt: HostRuntime) -> Wired {
    let ones = [true; 1792];
    let mut out = Vec::new(rt.alloc());
    write_map(&ones, &mut out)?;
    same(&rt, out.len(), 256);
    Ok(())
}

/// Every length up to 64: with no stop bit, and with the first at each index and the bytes after it all one
/// byte without it, or with it.
#[test]
fn stop_bits(rt: HostRuntime) {
    for length in 0..=64 {
        let mut bytes = [0x7f; 64];
        same(&rt, find_stop(&bytes[..length]), None);
        for stop in 0..length {
            for after in [0x00, 0xff] {
                bytes[stop..].fill(after);
                bytes[stop] = 0x80;
                same(&rt, find_stop(&bytes[..length]), Some(stop));
            }
            bytes.fill(0x7f);
        }
    }
}

/// A value and the form that it is written in.
#[derive(Clone, Copy)]
pub(crate) enum Form<'a> {
    Unsigned(u128),
    Signed(i128),
    UnsignedNullable(Nullable<u128>),
    SignedNullable(Nullable<i128>),
    U64(u64),
    I64(i64),
    U64Nullable(Nullable<u64>),
    I64Nullable(Nullable<i64>),
    Ascii(&'a [u8]),
    AsciiNullable(Nullable<&'a [u8]>),
    Vector(&'a [u8]),
    VectorNullable(Nullable<&'a [u8]>),
    Map(&'a [bool]),
}

/// What has one form.
pub(crate) trait Written {
    fn append(&self, out: &mut Vec<u8>) -> Wired;
}

impl Written for MapBuilder {
    fn append(&self, out: &mut Vec<u8>) -> Wired {
        self.write(out)
    }
}

impl Written for Form<'_> {
    fn append(&self, out: &mut Vec<u8>) -> Wired {
        match *self {
            Form::Unsigned(value) => write_unsigned(value, out),
            Form::Signed(value) => write_signed(value, out),
            Form::UnsignedNullable(value) => write_unsigned_nullable(value, out),
            Form::SignedNullable(value) => write_signed_nullable(value, out),
            Form::U64(value) => write_u64(value, out),
            Form::I64(value) => write_i64(value, out),
            Form::U64Nullable(value) => write_u64_nullable(value, out),
            Form::I64Nullable(value) => write_i64_nullable(value, out),
            Form::Ascii(text) => write_ascii(text, out),
            Form::AsciiNullable(value) => write_ascii_nullable(value, out),
            Form::Vector(items) => write_vector(items, out),
            Form::VectorNullable(value) => write_vector_nullable(value, out),
            Form::Map(bits) => write_map(bits, out),
        }
    }
}

// A value without such a form is refused, and nothing is appended.
fn is_refused(rt: &impl Abort, alloc: Global, form: Form, fault: WireFault) {
    let mut out = Vec::new(alloc);
    same(rt, form.append(&mut out), Err(fault));
    same(rt, out.len(), 0);
}

fn all_refused(rt: &impl Abort, alloc: Global, rows: &[(Form, WireFault)]) {
    for (form, fault) in rows {
        is_refused(rt, alloc, *form, *fault);
    }
}

// The size of a form; none of a number, a text or a vector that has no form, nor of the forms that have no call for it.
fn form_size(form: Form) -> Option<usize> {
    match form {
        Form::Unsigned(value) if value < 1 << 70 => Some(size_unsigned(value)),
        Form::Signed(value) if -(1 << 69) <= value && value < 1 << 69 => Some(size_signed(value)),
        Form::UnsignedNullable(Nullable::Null) => Some(size_unsigned_nullable(Nullable::Null)),
        Form::UnsignedNullable(Nullable::Value(value)) if value < (1 << 70) - 1 => Some(
            size_unsigned_nullable(Nullable::Value(value)),
        ),
        Form::SignedNullable(Nullable::Null) => Some(size_signed_nullable(Nullable::Null)),
        Form::SignedNullable(Nullable::Value(value))
            if -(1 << 69) <= value && value < (1 << 69) - 1 => Some(size_signed_nullable(
            Nullable::Value(value),
        )),
        Form::Ascii(text) if text.len() <= 65_535 && text.is_ascii() => Some(size_ascii(text)),
        Form::AsciiNullable(Nullable::Null) => Some(size_ascii_nullable(Nullable::Null)),
        Form::AsciiNullable(Nullable::Value(text)) if text.len() <= 65_535 && text.is_ascii() =>
            Some(size_ascii_nullable(Nullable::Value(text))),
        Form::Vector(items) if items.len() <= 65_535 => Some(size_vector(items)),
        Form::VectorNullable(Nullable::Null) => Some(size_vector_nullable(Nullable::Null)),
        Form::VectorNullable(Nullable::Value(items)) if items.len() <= 65_535 => Some(
            size_vector_nullable(Nullable::Value(items)),
        ),
        _ => None,
    }
}

// Writes behind bytes that are there. Where memory was refused, nothing was appended, and the same call writes; that it
// was refused is answered.
fn appended(rt: &impl Abort, front: &[u8], form: &impl Written, out: &mut Vec<u8>) -> Wired {
    let first = form.append(out);
    if first.is_err() {
        same(rt, first, Err(WireFault::Memory));
        same(rt, out.as_slice(), front);
        form.append(out)?;
    }
    first
}

/// A form is written behind bytes that are there as these.
pub(crate) fn is_written(
    rt: &impl Abort,
    alloc: Global,
    front: &[u8],
    form: &impl Written,
    bytes: &[u8],
) -> Wired {
    let mut out = front.to_vec(alloc)?;
    let first = appended(rt, front, form, &mut out);
    same(rt, out.get(..front.len()), Some(front));
    same(rt, out.get(front.len()..), Some(bytes));
    first
}

/// Two forms are written as the same bytes.
pub(crate) fn are_alike(rt: &impl Abort, alloc: Global, form: &impl Written, other: Form) -> Wired {
    let mut bytes = Vec::new(alloc);
    other.append(&mut bytes)?;
    is_written(rt, alloc, b"", form, &bytes)
}

// A form is read from these bytes, and they are so many.
fn is_read(rt: &impl Abort, alloc: Global, form: Form, bytes: &[u8]) -> Wired {
    let next = bytes.len();
    let wanted = match form {
        Form::Unsigned(value) => Read::Unsigned(Ok((value, next))),
        Form::Signed(value) => Read::Signed(Ok((value, next))),
        Form::UnsignedNullable(value) => Read::UnsignedNullable(Ok((value, next))),
        Form::SignedNullable(value) => Read::SignedNullable(Ok((value, next))),
        Form::Ascii(text) => {
            let text = (Nullable::Value(text), next);
            return is_read_to(rt, alloc, Reader::Ascii, text, bytes);
        }
        Form::AsciiNullable(text) => {
            return is_read_to(rt, alloc, Reader::AsciiNullable, (text, next), bytes);
        }
        Form::Vector(items) => {
            let items = (Nullable::Value(items), next);
            return is_read_to(rt, alloc, Reader::Vector, items, bytes);
        }
        Form::VectorNullable(items) => {
            return is_read_to(rt, alloc, Reader::VectorNullable, (items, next), bytes);
        }
        Form::Map(bits) => return map_is_read(rt, alloc, bits, bytes),
        // the readers in 64 bits have a table of their own
        _ => return Ok(()),
    };
    answers(rt, bytes, 0, wanted);
    Ok(())
}

// A form is written as these bytes, of which its size is the number, and read from them.
fn agrees(rt: &impl Abort, alloc: Global, form: Form, bytes: &[u8]) -> Wired {
    is_written(rt, alloc, b"", &form, bytes)?;
    let size = match form {
        Form::Map(_) => None,
        _ => Some(bytes.len()),
    };
    same(rt, form_size(form), size);
    is_read(rt, alloc, form, bytes)
}

/// A refused growth appends nothing, and the same call then gives the row's answer: run with the first, the
/// second and each later allocation refused, until a run meets no refusal.
#[test]
fn refused_growths(rt: HostRuntime) -> Wired {
    const ROWS: &[(Form, &[u8])] = rows! {
        // integers
        Form::Unsigned(942_755), b"\x39\x45\xa3";
        Form::Signed(942_755), b"\x39\x45\xa3";
        Form::UnsignedNullable(Nullable::Value(2)), b"\x83";
        Form::SignedNullable(Nullable::Value(-2)), b"\xfe";
        // integers in 64 bits
        Form::U64(2), b"\x82";
        Form::I64(-2), b"\xfe";
        Form::I64(-1), b"\xff";
        Form::U64Nullable(Nullable::Value(2)), b"\x83";
        Form::U64Nullable(Nullable::Value(126)), b"\xff";
        Form::U64Nullable(Nullable::Null), b"\x80";
        Form::I64Nullable(Nullable::Value(62)), b"\xbf";
        Form::I64Nullable(Nullable::Null), b"\x80";
        // strings
        Form::Ascii(b"Hey"), b"\x48\x65\xf9";
        Form::Ascii(b"\0A"), b"\x00\x00\xc1";
        Form::AsciiNullable(Nullable::Value(b"")), b"\x00\x80";
        Form::AsciiNullable(Nullable::Null), b"\x80";
        // vectors
        Form::Vector(b"\xc3\xa9"), b"\x82\xc3\xa9";
        Form::VectorNullable(Nullable::Value(b"\xc3\xa9")), b"\x83\xc3\xa9";
        Form::VectorNullable(Nullable::Null), b"\x80";
        // maps
        Form::Map(&[false, false, false, false, false, false, false, true]), b"\x00\xc0";
        Form::Map(&[true, true, true]), b"\xf0";
    };
    for (form, bytes) in ROWS {
        is_written(&rt, rt.alloc(), &[0xd5, 0x00, 0x80], form, bytes)?;
    }
    Ok(())
}

// A text of so many letters is written, sized and read, with NULL and without.
fn long_text_agrees(rt: &impl Abort, alloc: Global, count: usize) -> Wired {
    let text = vec![in alloc; 0x41; count]?;
    let mut entity = text.as_slice().to_vec(alloc)?;
    if let Some(last) = entity.last_mut() {
        *last = 0xc1;
    }
    agrees(rt, alloc, Form::Ascii(&text), &entity)?;
    let text = Form::AsciiNullable(Nullable::Value(&text));
    agrees(rt, alloc, text, &entity)
}

// The same of a vector of so many letters behind a length of two or three bytes, with NULL or without.
fn long_vector_agrees(
    rt: &impl Abort,
    alloc: Global,
    count: usize,
    front: &[u8],
    is_nullable: bool,
) -> Wired {
    let items = vec![in alloc; 0x41; count]?;
    let mut vector = front.to_vec(alloc)?;
    vector.extend_from_slice(&items)?;
    if is_nullable {
        let items = Nullable::Value(items.as_slice());
        return agrees(rt, alloc, Form::VectorNullable(items), &vector);
    }
    agrees(rt, alloc, Form::Vector(&items), &vector)
}

/// Longer than a page of memory, and as long as may be.
#[test]
fn long_forms(rt: HostRuntime) -> Wired {
    const VECTORS: &[(usize, &[u8], bool)] = rows! {
        4_097, &[0x20, 0x81], false;
        4_097, &[0x20, 0x82], true;
        65_535, &[0x03, 0x7f, 0xff], false;
        65_535, &[0x04, 0x00, 0x80], true;
    };
    for (count, front, is_nullable) in VECTORS {
        long_text_agrees(&rt, rt.alloc(), *count)?;
        long_vector_agrees(&rt, rt.alloc(), *count, front, *is_nullable)?;
    }
    Ok(())
}

// Forms that are written one behind the other into room that is there.
fn fit(rt: &impl Abort, forms: &[Form], bytes: &[u8], out: &mut Vec<u8>) -> Wired {
    out.reserve(64)?;
    for form in forms {
        form.append(out)?;
    }
    same(rt, out.as_slice(), bytes);
    Ok(())
}

/// A form that fits the room that is there asks for no memory.
#[test]
fn no_memory_where_it_fits(rt: HostRuntime) -> Wired {
    // a decimal (the exponent and then the mantissa), and others
    const FORMS: &[Form] = list! {
        Form::Signed(2), Form::Signed(942_755), Form::Unsigned(942_755), Form::Signed(-942_755), Form::Ascii(b"Hey"),
        Form::AsciiNullable(Nullable::Value(b"")), Form::Vector(&[0xc3, 0xa9]),
        Form::VectorNullable(Nullable::Null), Form::Map(&[true])
    };
    const WANTED: &[u8] =
        b"\x82\x39\x45\xa3\x39\x45\xa3\x46\x3a\xdd\x48\x65\xf9\x00\x80\x82\xc3\xa9\x80\xc0";
    fit(&rt, FORMS, WANTED, &mut Vec::new(rt.alloc()))
}
