//! Presence maps: FAST 1.1, Transfer Encoding, Presence Map.

ghost use Rattle.std.specs.Prelude.{◌≡◌, ◌≢◌, ◌≤◌, ◌<◌, ◌+◌, ◌*◌, ◌/◌, ◌%◌, ◌↔◌, ◌⊎◌, ◌-◌, ◌++◌, ℕ, Bool, true, false, List, [], length, drop, slice_range, slice_get, IsTrue, IfOk, MatchResult, IfErr, OnOk, OnErr, IsErrOf};
ghost use Rattle.fast_wire.specs.Sizes.{CanBeMap};
ghost use Rattle.fast_wire.specs.KeptBits.{bits_behind};
ghost use Rattle.fast_wire.specs.Entity.{groups};
ghost use Rattle.fast_wire.specs.Reading.{EntityFault, GivesAt, OrMemory, Reads, map_at, IsReadAt};
ghost use Rattle.fast_wire.specs.Writing.{Writes, TooManyBits};
ghost use Rattle.fast_wire.specs.PresenceMap.{bits_of, bit_at, next_bit, later_bits, IsMap, HasSetBit, IsWholeMap};
ghost use Rattle.fast_wire.specs.Spellings.{bit_number, group_from, map_of, IsUsed, IsMapSize, Appends};

use crate::bits::{LongBits, ShortBits, refill};
use crate::fault::WireFault;
use crate::short_integer::{append_byte, short_unsigned};
use crate::stop_bit::{STOP_BIT, entity_end};
use std::alloc::Global;
use std::marker::Model;

/// The most bytes of a presence map.
const MAP_LIMIT: usize = 256;

/// The bits of a group.
const GROUP_BITS: usize = 7;

/// The bits of a presence map that are not yet taken, the most significant of a group first. Past their end
/// every bit is 0. Those of a map of at most nine bytes stand in one word, those of a longer one in a copy, and the next of
/// them in the word.
#[derive(Drop)]
pub struct Bits {
    short: ShortBits,
    long: Option<Box<LongBits>>,
}

impl Model for Bits {
    ghost Value = { List Bool };

    ghost view = { λ b. b.short ++ bits_behind b.long };

    ghost invariant = { λ b. b.short ≡ [] → bits_behind b.long ≡ [] };
}

impl Bits {
    /// No bits: each that is taken is 0. It takes no memory.
    pub fn none(alloc: Global) -> Bits
        ensures { result ≡ [] }
    {
        Bits {
            short: ShortBits::new(0, 0),
            long: None,
        }
    }

    /// The next bit, or false past the end; it stays the next. It takes no memory.
    #[inline(always)]
    pub fn first(&self) -> bool
        ensures { result ≡ next_bit self.now }
    {
        self.short.first()
    }

    /// The next bit, or false past the end. It takes no memory.
    #[inline(always)]
    pub fn take(&mut self) -> bool
        ensures bit { result ≡ next_bit self.old }
        ensures rest { self.new ≡ later_bits self.old }
    {
        let bit = self.short.take();
        if self.short.is_empty() {
            if let Some(long) = &mut self.long {
                refill(&mut self.short, long);
            }
        }
        bit
    }

    /// Whether a bit that is not yet taken is 1. It takes no memory.
    pub fn left_set(&self) -> bool
        ensures { IsTrue result ↔ HasSetBit self.now }
    {
        self.short.left_set() || behind_set(&self.long)
    }
}

/// Whether a bit behind those of a word is 1.
fn behind_set(long: &Option<Box<LongBits>>) -> bool
    ensures { IsTrue result ↔ HasSetBit (bits_behind long.now) }
{
    match long {
        Some(long) => long.left_set(),
        None => false,
    }
}

/// Reads a presence map of at most 256 bytes that begins at `at`, and answers its bits with the place after
/// it. NeedMore: the bytes end, fewer than 256, with no stop bit. TooLong: the first 256 have none. Memory:
/// the copy of a map of more than nine bytes was refused.
#[inline(always)]
pub fn read_map(alloc: Global, bytes: &[u8], at: usize) -> Result<(Bits, usize), WireFault>
    requires { at ≤ length bytes.now }
    ensures { IsReadAt OrMemory map_at IsWholeMap CanBeMap
        (EntityFault 256) (λ v. v) bytes.now at result }
{
    map_from(alloc, bytes, at)
}

/// The map that stands at `at`, and the place after it.
#[inline(always)]
fn map_from(alloc: Global, bytes: &[u8], at: usize) -> Result<(Bits, usize), WireFault>
    requires { at ≤ length bytes.now }
    ensures place { IfOk result (λ x. (at < x.1) × (x.1 ≤ length bytes.now)) }
    ensures gives { GivesAt OrMemory map_at (λ v. v) bytes.now at result }
{
    if let Some((word, next)) = short_unsigned(bytes, at) {
        let bits = Bits {
            short: ShortBits::new(word, 7 * (next - at)),
            long: None,
        };
        return Ok((bits, next));
    }
    let next = entity_end(bytes, at, MAP_LIMIT)?;
    let groups = Vec::from_slice(alloc, &bytes[at..next])?;
    let mut short = ShortBits::new(0, 0);
    let Ok(mut long) = Box::new(alloc, LongBits::new(groups)) else {
        return Err(WireFault::Memory);
    };
    refill(&mut short, &mut long);
    Ok((
        Bits {
            short,
            long: Some(long),
        },
        next,
    ))
}

/// One more than the index of the last 1, or 0.
fn used_bits(bits: &[bool]) -> usize
    ensures within { result ≤ length bits.now }
    ensures used { IsUsed bits.now result }
{
    for i in (0..bits.len()).rev() {
        if bits[i] {
            return i + 1;
        }
    }
    0
}

/// Bit `i` as a number, and 0 past the end.
#[inline(always)]
fn bit_or_0(bits: &[bool], i: usize) -> u8
    ensures value { result ≡ bit_number (bit_at bits.now i) }
    ensures small { result ≤ 1 }
{
    if i < bits.len() && bits[i] { 1 } else { 0 }
}

/// The group of the seven bits from `from` on.
fn group_at(bits: &[bool], from: usize) -> u8
    requires { from ≤ length bits.now }
    ensures value { result ≡ group_from bits.now from }
    ensures small { result < 128 }
{
    64 * bit_or_0(bits, from)
        + 32 * bit_or_0(bits, from + 1)
        + 16 * bit_or_0(bits, from + 2)
        + 8 * bit_or_0(bits, from + 3)
        + 4 * bit_or_0(bits, from + 4)
        + 2 * bit_or_0(bits, from + 5)
        + bit_or_0(bits, from + 6)
}

/// Appends the shortest map with these bits, the fewest groups that reach the last 1 and at least one, or
/// answers and appends nothing. TooLong: they do not fit 256 bytes. Memory: the one growth was refused.
pub fn write_map(bits: &[bool], out: &mut Vec<u8>) -> Result<(), WireFault>
    ensures { Writes IsMap TooManyBits out.old out.new bits.now result }
{
    // most maps are one group, and need no look for the last 1
    if bits.len() <= GROUP_BITS {
        return append_byte(group_at(bits, 0), out);
    }
    let used = used_bits(bits);
    if used > 7 * MAP_LIMIT {
        return Err(WireFault::TooLong);
    }
    append_map(bits, map_size(used), out)
}

/// How many groups a map needs that has a last 1.
fn map_size(used: usize) -> usize
    requires { used ≤ 1792 }
    ensures { IsMapSize used result }
{
    if used == 0 { 1 } else { used.div_ceil(7) }
}

/// Appends `size` groups of the bits, and the stop bit.
fn append_map(bits: &[bool], size: usize, out: &mut Vec<u8>) -> Result<(), WireFault>
    requires some { 0 < size }
    requires few { size ≤ 256 }
    requires within { 7 * (size - 1) ≤ length bits.now }
    ensures { Appends (map_of size bits.now 0) out.old out.new result }
{
    out.reserve(size)?;
    for i in 0..size - 1 {
        out.push(group_at(bits, 7 * i)).unwrap();
    }
    out.push(group_at(bits, 7 * (size - 1)) + STOP_BIT).unwrap();
    Ok(())
}
