//! The bits of a presence map, in one word or in a copy of its groups.

ghost use Rattle.std.specs.Prelude.{◌≡◌, ◌≤◌, ◌<◌, ◌*◌, ◌++◌, ◌↔◌, Bool, List, [], length, drop, IsTrue};
ghost use Rattle.fast_wire.specs.Entity.{groups};
ghost use Rattle.fast_wire.specs.PresenceMap.{bits_of, bit_at, next_bit, later_bits, word_bits, bits_under, IsMask, HasSetBit};

use std::marker::Model;

/// The last bits of a word, the most significant first: that of the mask, a power of two, and those below it; none where the
/// mask is 0. (A bit is then seen and taken by one instruction each.)
#[derive(Drop)]
pub(crate) struct ShortBits {
    word: u64,
    mask: u64,
}

impl Model for ShortBits {
    ghost Value = { List Bool };

    ghost view = { λ b. bits_under 64 b.mask b.word };

    ghost invariant = { λ b. IsMask b.mask };
}

impl ShortBits {
    /// The last `left` bits of a word.
    #[inline(always)]
    pub(crate) fn new(word: u64, left: usize) -> ShortBits
        requires { left ≤ 63 }
        ensures { result ≡ word_bits left word }
    {
        ShortBits {
            word,
            mask: (1 << left) >> 1,
        }
    }

    /// Whether no bit is left.
    #[inline(always)]
    pub(crate) fn is_empty(&self) -> bool
        ensures { IsTrue result ↔ (self.now ≡ []) }
    {
        self.mask == 0
    }

    /// The next bit, or false past the end.
    #[inline(always)]
    pub(crate) fn first(&self) -> bool
        ensures { result ≡ next_bit self.now }
    {
        self.word & self.mask != 0
    }

    /// The next bit, or false past the end, which is taken.
    #[inline(always)]
    pub(crate) fn take(&mut self) -> bool
        ensures bit { result ≡ next_bit self.old }
        ensures rest { self.new ≡ later_bits self.old }
    {
        let bit = self.first();
        self.mask >>= 1;
        bit
    }

    /// Whether a bit that is left is 1.
    #[inline(always)]
    pub(crate) fn left_set(&self) -> bool
        ensures { IsTrue result ↔ HasSetBit self.now }
    {
        if self.is_empty() {
            return false;
        }
        self.word % (2 * self.mask) != 0
    }
}

/// The bits of groups from a place on.
#[derive(Drop)]
pub(crate) struct LongBits {
    bytes: Vec<u8>,
    place: usize,
}

impl Model for LongBits {
    ghost Value = { List Bool };

    ghost view = { λ b. drop b.place (bits_of (groups b.bytes.items)) };

    ghost invariant = { λ b. (length b.bytes.items ≤ 256) × (b.place ≤ 7 * length b.bytes.items) };
}

/// Bit `i` of the groups of these bytes.
#[inline(always)]
fn group_bit(bytes: &[u8], i: usize) -> bool
    requires { i < 7 * length bytes.now }
    ensures { result ≡ bit_at (bits_of (groups bytes.now)) i }
{
    let group = bytes[i / 7] % 128;
    (group >> (6 - i % 7)) % 2 == 1
}

impl LongBits {
    /// All bits of these groups.
    #[inline(always)]
    pub(crate) fn new(bytes: Vec<u8>) -> LongBits
        requires { length bytes.items ≤ 256 }
        ensures { result ≡ bits_of (groups bytes.items) }
    {
        LongBits { bytes, place: 0 }
    }

    /// Whether no bit is left.
    #[inline(always)]
    pub(crate) fn is_empty(&self) -> bool
        ensures { IsTrue result ↔ (self.now ≡ []) }
    {
        self.place == 7 * self.bytes.len()
    }

    /// The next bit, or false past the end; it stays the next.
    #[inline(always)]
    pub(crate) fn first(&self) -> bool
        ensures { result ≡ next_bit self.now }
    {
        if self.place == 7 * self.bytes.len() {
            return false;
        }
        group_bit(&self.bytes, self.place)
    }

    /// The next bit, or false past the end.
    #[inline(always)]
    pub(crate) fn take(&mut self) -> bool
        ensures bit { result ≡ next_bit self.old }
        ensures rest { self.new ≡ later_bits self.old }
    {
        let bit = self.first();
        if self.place < 7 * self.bytes.len() {
            self.place += 1;
        }
        bit
    }

    /// Whether a bit that is not yet taken is 1.
    #[inline(always)]
    pub(crate) fn left_set(&self) -> bool
        ensures { IsTrue result ↔ HasSetBit self.now }
    {
        for i in self.place..7 * self.bytes.len() {
            if group_bit(&self.bytes, i) {
                return true;
            }
        }
        false
    }
}

/// Moves the next bit of groups into a word that has none. (A call of its own: few maps have more bits than a word.)
#[inline(never)]
pub(crate) fn refill(short: &mut ShortBits, long: &mut LongBits)
    requires { short.now ≡ [] }
    ensures bits { short.new ++ long.new ≡ long.old }
    ensures some { short.new ≡ [] → long.new ≡ [] }
{
    if !long.is_empty() {
        *short = ShortBits::new(u64::from(long.take()), 1);
    }
}
