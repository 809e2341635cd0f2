//! A segment in the output: where its map stands, and how it ends.

ghost use Rattle.std.specs.Prelude.{◌≡◌, ◌≤◌, ◌<◌, ◌*◌, ◌+◌, ◌-◌, ◌/◌, ◌%◌, ◌^◌, ◌++◌, ◌∷◌, [], length, map, take, drop, slice_index_or, slice_range, true, OnOk, OnErr, vec_len, vec_capacity};
ghost use Rattle.fast_draft.specs.Standing.{ClearedNext, ClearedThere, CutThere, EndsThere, Stands, level_of, nearer, new_at};

use crate::map::{STOP, clear_bit, cut_map};
use std::alloc::AllocError;

/// How many bytes are appended at once.
const CHUNK: usize = 16;

/// Where the map of a segment stands, how long it is, and how many of its bits were passed.
#[derive(Clone, Copy)]
pub(crate) struct Level {
    pub(crate) place: usize,
    pub(crate) size: usize,
    pub(crate) asked: usize,
}

impl Level {
    /// A segment with no map of its own.
    #[inline(always)]
    pub(crate) fn at(place: usize) -> Level
        ensures { result ≡ new_at place 0 }
    {
        Level {
            place,
            size: 0,
            asked: 0,
        }
    }
}

/// Moves segments so many places nearer to the front.
pub(crate) fn move_nearer(levels: &mut [Level], count: usize)
    ensures { levels.new ≡ map (nearer count) levels.old }
{
    for level in levels.iter_mut() {
        *level = Level {
            place: level.place.saturating_sub(count),
            size: level.size,
            asked: level.asked,
        };
    }
}

/// Begins a segment behind all that was written, whose map this is, or none. Where the one growth is refused, it has none.
#[inline(always)]
pub(crate) fn start(out: &mut Vec<u8>, inner: &mut Level, map: &[u8]) -> Result<(), AllocError>
    ensures map { OnOk result (out.new.items ≡ out.old.items ++ map.now) }
    ensures started { OnOk result (inner.new ≡ new_at (length out.old.items) (length map.now)) }
    ensures unchanged { OnErr result (out.new.items ≡ out.old.items) }
    ensures bare { OnErr result (inner.new ≡ new_at (length out.old.items) 0) }
    ensures room { OnErr result (vec_capacity out.old < vec_len out.old + length map.now) }
    ensures capacity { vec_capacity out.old ≤ vec_capacity out.new }
{
    *inner = Level::at(out.len());
    append_map(out, map)?;
    inner.size = map.len();
    Ok(())
}

/// Clears the next bit of a map and passes it, if one is left.
#[inline(always)]
pub(crate) fn clear_next(out: &mut Vec<u8>, level: &mut Level)
    requires { Stands out.now.items level.now (length out.now.items) }
    ensures cleared { ClearedNext level.old level.new out.old.items out.new.items }
    ensures len { vec_len out.new ≡ vec_len out.old }
    ensures capacity { vec_capacity out.new ≡ vec_capacity out.old }
{
    // nearly all are bits of the first byte, of maps of any size
    if level.asked < 7 && level.size > 0 {
        out[level.place] &= !(64 >> level.asked);
        level.asked += 1;
        return;
    }
    clear_far(out, level);
}

/// The same of any bit. (A call of its own: it is seldom wanted.)
#[inline(never)]
fn clear_far(out: &mut Vec<u8>, level: &mut Level)
    requires { Stands out.now.items level.now (length out.now.items) }
    ensures cleared { ClearedNext level.old level.new out.old.items out.new.items }
    ensures len { vec_len out.new ≡ vec_len out.old }
    ensures capacity { vec_capacity out.new ≡ vec_capacity out.old }
{
    if level.asked < 7 * level.size {
        clear_there(out, *level);
        level.asked += 1;
    }
}

/// Clears the next bit of a map.
fn clear_there(out: &mut Vec<u8>, level: Level)
    requires within { level.place + level.size ≤ length out.now.items }
    requires left { level.asked < 7 * level.size }
    ensures cleared { ClearedThere level out.old.items out.new.items }
    ensures len { vec_len out.new ≡ vec_len out.old }
    ensures capacity { vec_capacity out.new ≡ vec_capacity out.old }
{
    let end = level.place + level.size;
    clear_bit(&mut out.as_mut_slice()[level.place..end], level.asked);
}

/// Ends the segment that ends where the output does: its map becomes the shortest of the bits that were passed.
#[inline(always)]
pub(crate) fn end(out: &mut Vec<u8>, level: Level)
    requires { Stands out.now.items level (length out.now.items) }
    ensures ends { EndsThere level out.old.items out.new.items }
    ensures len { vec_len out.new ≤ vec_len out.old }
    ensures capacity { vec_capacity out.new ≡ vec_capacity out.old }
{
    // nearly all maps are one byte, which is the shortest without the bits that were not asked for
    if level.size == 1 {
        out[level.place] &= !(127 >> level.asked);
        return;
    }
    if level.size == 0 {
        return;
    }
    cut(out, level.place, level.size, level.asked);
}

/// The same of a map of any size but none, which may have groups to leave out. (What tells where it stands comes apart, so that it
/// lies in registers.)
#[inline(never)]
fn cut(out: &mut Vec<u8>, place: usize, size: usize, asked: usize)
    requires stands { Stands out.now.items (level_of place size asked) (length out.now.items) }
    requires some { 0 < size }
    ensures ends { EndsThere (level_of place size asked) out.old.items out.new.items }
    ensures len { vec_len out.new ≤ vec_len out.old }
    ensures capacity { vec_capacity out.new ≡ vec_capacity out.old }
{
    // nearly all are the shortest as they stand
    if is_shortest(out.as_slice(), Level { place, size, asked }) {
        return;
    }
    // most of the others are a group too long
    if size == 2 && usize::from(out[place + 1] % STOP) >> (14 - asked) == 0 {
        cut_second(out, place, asked);
        return;
    }
    cut_groups(out, place, size, asked);
}

/// The same of a map of two bytes, in whose second group none of the bits that were passed is 1: the first group is all.
#[inline(never)]
fn cut_second(out: &mut Vec<u8>, place: usize, asked: usize)
    requires stands { Stands out.now.items (level_of place 2 asked) (length out.now.items) }
    requires none { slice_index_or out.now.items (place + 1) 0 % 128 / 2 ^ (14 - asked) ≡ 0 }
    ensures ends { EndsThere (level_of place 2 asked) out.old.items out.new.items }
    ensures len { vec_len out.new ≤ vec_len out.old }
    ensures capacity { vec_capacity out.new ≡ vec_capacity out.old }
{
    out[place] = (out[place] + STOP) & !(127 >> asked.min(7));
    remove(out, place + 1, place + 2);
}

/// The same where the map is changed. (A call of its own, so that the other way saves no registers.)
#[inline(never)]
fn cut_groups(out: &mut Vec<u8>, place: usize, size: usize, asked: usize)
    requires stands { Stands out.now.items (level_of place size asked) (length out.now.items) }
    requires some { 0 < size }
    ensures ends { EndsThere (level_of place size asked) out.old.items out.new.items }
    ensures len { vec_len out.new ≤ vec_len out.old }
    ensures capacity { vec_capacity out.new ≡ vec_capacity out.old }
{
    let used = cut_there(out, Level { place, size, asked });
    remove(out, place + used, place + size);
}

/// Whether the map is the shortest of the bits that were passed as it stands: none behind those is 1, and its last group is not 0.
#[inline(always)]
fn is_shortest(out: &[u8], level: Level) -> bool
    requires stands { Stands out.now level (length out.now) }
    requires some { 0 < level.size }
    ensures { result ≡ true → EndsThere level out.now out.now }
{
    let behind = 7 * level.size - level.asked;
    let last = out[level.place + level.size - 1];
    behind < 7 && last > STOP && last % (1 << behind) == 0
}

/// Makes the front of a map that stands there the shortest of the bits that were passed, and answers how many bytes that has.
fn cut_there(out: &mut Vec<u8>, level: Level) -> usize
    requires stands { Stands out.now.items level (length out.now.items) }
    requires some { 0 < level.size }
    ensures cut { CutThere level out.old.items out.new.items result }
    ensures len { vec_len out.new ≡ vec_len out.old }
    ensures capacity { vec_capacity out.new ≡ vec_capacity out.old }
{
    let behind = level.place + level.size;
    cut_map(&mut out.as_mut_slice()[level.place..behind], level.asked)
}

/// Takes away the bytes from one place to another. (Those behind move once.)
#[inline(always)]
pub(crate) fn remove(out: &mut Vec<u8>, start: usize, end: usize)
    requires start { start ≤ end }
    requires end { end ≤ length out.now.items }
    ensures items { out.new.items ≡ take start out.old.items ++ drop end out.old.items }
    ensures len { vec_len out.new ≤ vec_len out.old }
    ensures capacity { vec_capacity out.new ≡ vec_capacity out.old }
{
    if start == end {
        return;
    }
    let all = out.len();
    out.copy_within(end..all, start);
    out.truncate(all - (end - start));
}

/// Appends a map, which is one byte nearly always.
#[inline(always)]
fn append_map(out: &mut Vec<u8>, map: &[u8]) -> Result<(), AllocError>
    ensures ok { OnOk result (out.new.items ≡ out.old.items ++ map.now) }
    ensures err { OnErr result (out.new.items ≡ out.old.items) }
    ensures room { OnErr result (vec_capacity out.old < vec_len out.old + length map.now) }
    ensures capacity { vec_capacity out.old ≤ vec_capacity out.new }
{
    if map.len() == 1 {
        return append_byte(out, map[0]);
    }
    append_other(out, map)
}

/// The same of a map that is not one byte: those of two and three are put there with no loop. (A call of its own: it is seldom
/// wanted.)
#[inline(never)]
fn append_other(out: &mut Vec<u8>, map: &[u8]) -> Result<(), AllocError>
    ensures ok { OnOk result (out.new.items ≡ out.old.items ++ map.now) }
    ensures err { OnErr result (out.new.items ≡ out.old.items) }
    ensures room { OnErr result (vec_capacity out.old < vec_len out.old + length map.now) }
    ensures capacity { vec_capacity out.old ≤ vec_capacity out.new }
{
    // where there is room no call is left, and no register is saved
    if out.capacity() - out.len() < 3 {
        return append_bytes(out, map);
    }
    match map {
        [first, second] => out.extend_from_slice(&[*first, *second]),
        [first, second, third] => out.extend_from_slice(&[*first, *second, *third]),
        _ => append_bytes(out, map),
    }
}

/// Appends a byte.
#[inline(always)]
pub(crate) fn append_byte(out: &mut Vec<u8>, byte: u8) -> Result<(), AllocError>
    ensures ok { OnOk result (out.new.items ≡ out.old.items ++ byte ∷ []) }
    ensures err { OnErr result (out.new.items ≡ out.old.items) }
    ensures room { OnErr result (vec_capacity out.old < vec_len out.old + 1) }
    ensures capacity { vec_capacity out.old ≤ vec_capacity out.new }
{
    // nearly always there is room, and no call is left
    if out.len() < out.capacity() {
        out.push_reserved(byte);
        return Ok(());
    }
    append_bytes(out, &[byte])
}

/// Appends the bytes from one place to another.
#[inline(always)]
pub(crate) fn append_range(
    out: &mut Vec<u8>,
    bytes: &[u8],
    from: usize,
    to: usize,
) -> Result<(), AllocError>
    requires start { from ≤ to }
    requires end { to ≤ length bytes.now }
    ensures ok { OnOk result (out.new.items ≡ out.old.items ++ slice_range bytes.now from to) }
    ensures err { OnErr result (out.new.items ≡ out.old.items) }
    ensures room { OnErr result (vec_capacity out.old < vec_len out.old + (to - from)) }
    ensures capacity { vec_capacity out.old ≤ vec_capacity out.new }
{
    // a whole chunk must fit, since memory may be refused only for the bytes that are wanted
    if to - from <= CHUNK && out.capacity() - out.len() >= CHUNK {
        if let Some((chunk, _)) = bytes[from..].split_first_chunk::<CHUNK>() {
            return append_chunk(out, *chunk, to - from);
        }
    }
    append_bytes(out, &bytes[from..to])
}

/// Appends so many of a chunk's bytes: all are put there in one store, and those behind the wanted ones are taken away.
#[inline(always)]
fn append_chunk(out: &mut Vec<u8>, chunk: [u8; CHUNK], count: usize) -> Result<(), AllocError>
    requires count { count ≤ 16 }
    requires room { vec_len out.now + 16 ≤ vec_capacity out.now }
    ensures ok { OnOk result (out.new.items ≡ out.old.items ++ take count chunk) }
    ensures err { OnErr result (out.new.items ≡ out.old.items) }
    ensures room { OnErr result (vec_capacity out.old < vec_len out.old + count) }
    ensures capacity { vec_capacity out.old ≤ vec_capacity out.new }
{
    let end = out.len() + count;
    out.extend_from_slice(&chunk)?;
    out.truncate(end);
    Ok(())
}

/// Appends bytes. (A call of its own: it is seldom wanted.)
#[inline(never)]
pub(crate) fn append_bytes(out: &mut Vec<u8>, bytes: &[u8]) -> Result<(), AllocError>
    ensures ok { OnOk result (out.new.items ≡ out.old.items ++ bytes.now) }
    ensures err { OnErr result (out.new.items ≡ out.old.items) }
    ensures room { OnErr result (vec_capacity out.old < vec_len out.old + length bytes.now) }
    ensures capacity { vec_capacity out.old ≤ vec_capacity out.new }
{
    out.extend_from_slice(bytes)
}
