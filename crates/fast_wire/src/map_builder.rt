//! The bits of a presence map that is being written.

ghost use Rattle.std.specs.Prelude.{◌≡◌, ◌+◌, ◌≢◌, ◌≤◌, ◌<◌, ◌^◌, ◌/◌, ◌%◌, ◌++◌, [], ◌∷◌, OnOk, OnErr};
ghost use Rattle.fast_wire.specs.KeptBits.{kept_bits};
ghost use Rattle.fast_wire.specs.KeptBits as kept;
ghost use Rattle.fast_wire.specs.PresenceMap.{IsMap, word_bits};
ghost use Rattle.fast_wire.specs.Writing.{TooManyBits, Writes};

use crate::fault::WireFault;
use crate::integer::append_short_entity;
use crate::presence_map::write_map;
use crate::short_integer::append_byte;
use std::alloc::{AllocError, Global};
use std::marker::Model;

/// The most bits that are kept in the word: nine whole groups.
const WORD_BITS: usize = 63;

/// The least word that is full: its mark is its first bit.
const FULL: u64 = 1 << WORD_BITS;

/// What the first of nine groups stands for.
const FIRST_GROUP: u64 = 1 << 56;

/// The bits of a presence map that is being written, in their order. Up to 63 stand in one word, behind
/// a mark, its first 1, and the bits of a longer map in a list, all of them, since its form is made of a slice.
#[derive(Drop)]
pub struct MapBuilder {
    word: u64,
    long: Vec<bool>,
}

impl Model for MapBuilder {
    ghost use Rattle.std.specs.Prelude.{List, Bool, [], ◌≡◌, ◌<◌, ◌^◌};
    ghost use Rattle.fast_wire.specs.KeptBits.{kept_bits};

    ghost Value = { List Bool };

    ghost view = { λ b. kept_bits b.long.items b.word };

    ghost invariant = { λ b. (0 < b.word) × (b.word < 2 ^ 63 → b.long.items ≡ []) };
}

impl MapBuilder {
    /// No bits. It takes no memory.
    #[inline(always)]
    pub fn new(alloc: Global) -> MapBuilder
        ensures { result ≡ [] }
    {
        MapBuilder {
            word: 1,
            long: Vec::new(alloc),
        }
    }

    /// Begins anew, in the same memory.
    #[inline(always)]
    pub fn clear(&mut self)
        ensures { self.new ≡ [] }
    {
        self.word = 1;
        self.long.clear();
    }

    /// One bit more, at the end. The first 63 take no memory.
    #[inline(always)]
    pub fn push(&mut self, bit: bool) -> Result<(), AllocError>
        ensures pushed { OnOk result (self.new ≡ self.old ++ bit ∷ []) }
        ensures unchanged { OnErr result (self.new ≡ self.old) }
    {
        if self.word < FULL {
            self.word = 2 * self.word + u64::from(bit);
            return Ok(());
        }
        self.push_long(bit)
    }

    /// The same by the list. (A call of its own, that takes no more than it must: few maps have so many bits.)
    #[inline(never)]
    fn push_long(&mut self, bit: bool) -> Result<(), AllocError>
        ensures pushed { OnOk result (self.new ≡ self.old ++ bit ∷ []) }
        ensures unchanged { OnErr result (self.new ≡ self.old) }
    {
        push_behind(&mut self.long, self.word, bit)?;
        self.word = FULL;
        Ok(())
    }

    /// Appends the shortest map with these bits, the fewest groups that reach the last 1 and at least one, or
    /// answers and appends nothing. TooLong: they do not fit 256 bytes. Memory: the one growth was refused.
    #[inline(always)]
    pub fn write(&self, out: &mut Vec<u8>) -> Result<(), WireFault>
        ensures { Writes IsMap TooManyBits out.old out.new self.now result }
    {
        if !self.long.is_empty() {
            return write_map(&self.long, out);
        }
        let count = marked_count(self.word);
        // nine groups behind the mark, the first bit at their front; in most maps only the first has a 1
        let groups = (self.word << (WORD_BITS - count)) - FULL;
        if groups % FIRST_GROUP == 0 {
            return append_byte((groups / FIRST_GROUP) as u8, out);
        }
        append_word(self.word - (1 << count), count, out)
    }
}

/// How many bits stand behind a word's mark.
#[inline(always)]
fn marked_count(word: u64) -> usize
    requires { 0 < word }
    ensures count { result ≡ kept.marked_count word }
    ensures few { result ≤ 63 }
    ensures mark { 2 ^ result ≤ word }
    ensures bits { word < 2 ^ result + 2 ^ result }
{
    WORD_BITS - word.leading_zeros() as usize
}

/// One bit more behind those of a word, or behind a list that is not empty.
fn push_behind(long: &mut Vec<bool>, word: u64, bit: bool) -> Result<(), AllocError>
    requires { 0 < word }
    ensures pushed { OnOk result (long.new.items ≡ kept_bits long.old.items word ++ bit ∷ []) }
    ensures unchanged { OnErr result (long.new.items ≡ long.old.items) }
{
    if long.is_empty() {
        let count = marked_count(word);
        long.reserve(count + 1)?;
        for left in (0..count).rev() {
            long.push((word >> left) % 2 == 1).unwrap();
        }
    }
    long.push(bit)?;
    Ok(())
}

/// How many groups at the end are 0, of nine of which one is not.
#[inline]
fn zero_groups(groups: u64) -> usize
    requires some { 0 < groups }
    requires nine { groups < 2 ^ 63 }
    ensures few { result ≤ 8 }
    ensures zeros { groups % 128 ^ result ≡ 0 }
    ensures last { groups / 128 ^ result % 128 ≢ 0 }
{
    groups.trailing_zeros() as usize / 7
}

/// Appends the shortest map with the last bits of a word, one of which is 1, or answers and appends nothing.
fn append_word(word: u64, count: usize, out: &mut Vec<u8>) -> Result<(), WireFault>
    requires few { count ≤ 63 }
    requires fits { word < 2 ^ count }
    requires some { 0 < word }
    ensures { Writes IsMap TooManyBits out.old out.new (word_bits count word) result }
{
    // nine groups, the first bit at their front
    let groups = word << (WORD_BITS - count);
    let zeros = zero_groups(groups);
    append_short_entity(groups >> (7 * zeros), 9 - zeros, out)
}
