//! Whether bytes are UTF-8, as those of a Unicode string are. The texts of a feed are mostly short, of ASCII with some
//! letters of two bytes, or of letters of three: to step over these costs less than the call, which is made for what stands
//! behind them, and for long texts.

ghost use Rattle.std.specs.Prelude.{◌+◌, ◌<◌, ◌≤◌, ◌↔◌, length, drop, take, slice_index, IsTrue, IsUtf8};
ghost use Rattle.std.specs.Int.{IsInRange};
ghost use Rattle.std.specs.Str.{IsAscii};
ghost use Rattle.fast_take.specs.Skips.{Skips};

use fast_wire::check_text;

/// The high bit of each byte of a word, which no byte of ASCII has.
const HIGH_BITS: u64 = 0x8080_8080_8080_8080;

/// How many bytes a word has.
const WORD: usize = 8;

/// From how many bytes on the call costs less, whatever the letters are.
const LONG: usize = 256;

/// Whether eight bytes are ASCII, looked at as one word.
#[inline(always)]
fn are_ascii(word: [u8; 8]) -> bool
    ensures { IsTrue result ↔ IsAscii word }
{
    u64::from_le_bytes(word) & HIGH_BITS == 0
}

/// Whether a word of ASCII begins at a place.
#[inline(always)]
fn is_ascii_word(units: &[u8], at: usize) -> bool
    requires { at ≤ length units.now }
    ensures { IsTrue result
        ↔ ((at + 8 ≤ length units.now) × IsAscii (take 8 (drop at units.now))) }
{
    match units[at..].first_chunk::<WORD>() {
        Some(word) => are_ascii(*word),
        None => false,
    }
}

/// Whether a letter of two bytes begins at a place.
#[inline(always)]
fn is_pair(units: &[u8], at: usize) -> bool
    requires { at ≤ length units.now }
    ensures { IsTrue result ↔ ((at + 1 < length units.now)
        × IsInRange 0xc2 0xdf (slice_index units.now at)
        × IsInRange 0x80 0xbf (slice_index units.now (at + 1))) }
{
    units.len() - at > 1
        && (0xc2..=0xdf).contains(&units[at])
        && (0x80..=0xbf).contains(&units[at + 1])
}

/// Whether a letter of three bytes begins at a place, one of those whose second byte is free.
#[inline(always)]
fn is_triple(units: &[u8], at: usize) -> bool
    requires { at ≤ length units.now }
    ensures { IsTrue result ↔ ((at + 2 < length units.now)
        × IsInRange 0xe1 0xec (slice_index units.now at)
        × IsInRange 0x80 0xbf (slice_index units.now (at + 1))
        × IsInRange 0x80 0xbf (slice_index units.now (at + 2))) }
{
    units.len() - at > 2
        && (0xe1..=0xec).contains(&units[at])
        && (0x80..=0xbf).contains(&units[at + 1])
        && (0x80..=0xbf).contains(&units[at + 2])
}

/// The place behind the words of ASCII that begin at a place.
#[inline(always)]
fn skip_words(units: &[u8], at: usize) -> usize
    requires { at ≤ length units.now }
    ensures { Skips units.now at result }
{
    let mut next = at;
    while is_ascii_word(units, next) {
        next += WORD;
    }
    next
}

/// The place behind the bytes of ASCII that begin at a place, one byte at a time.
#[inline(always)]
fn skip_ascii(units: &[u8], at: usize) -> usize
    requires { at ≤ length units.now }
    ensures { Skips units.now at result }
{
    let mut next = at;
    while next < units.len() && units[next] < 128 {
        next += 1;
    }
    next
}

/// The place behind the letters of two bytes that begin at a place.
#[inline(always)]
fn skip_pairs(units: &[u8], at: usize) -> usize
    requires { at ≤ length units.now }
    ensures { Skips units.now at result }
{
    let mut next = at;
    while is_pair(units, next) {
        next += 2;
    }
    next
}

/// The place behind the letters of three bytes that begin at a place.
#[inline(always)]
fn skip_triples(units: &[u8], at: usize) -> usize
    requires { at ≤ length units.now }
    ensures { Skips units.now at result }
{
    let mut next = at;
    while is_triple(units, next) {
        next += 3;
    }
    next
}

/// A place behind ASCII and letters of two and three bytes that begin at a place; the place itself where none do.
#[inline(always)]
fn skip_short(units: &[u8], at: usize) -> usize
    requires { at ≤ length units.now }
    ensures { Skips units.now at result }
{
    skip_triples(
        units,
        skip_pairs(units, skip_ascii(units, skip_words(units, at))),
    )
}

/// Whether bytes are UTF-8, found out by a call.
#[inline(never)]
fn is_utf8_by_call(units: &[u8]) -> bool
    ensures { IsTrue result ↔ IsUtf8 units.now }
{
    check_text(units).is_ok()
}

/// Whether bytes are UTF-8. It takes no memory.
pub(crate) fn is_utf8(units: &[u8]) -> bool
    ensures { IsTrue result ↔ IsUtf8 units.now }
{
    if units.len() >= LONG {
        return is_utf8_by_call(units);
    }
    let mut at = 0;
    while at < units.len() {
        let next = skip_short(units, at);
        if next == at {
            return is_utf8_by_call(&units[at..]);
        }
        at = next;
    }
    true
}
