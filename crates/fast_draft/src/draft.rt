//! The message that is open, behind those that ended.

ghost use Rattle.std.specs.Prelude.{◌≡◌, ◌≢◌, ◌⊎◌, ◌≤◌, ◌-◌, ◌∷◌, ◌++◌, [], Bool, List, length, slice_range, if◌then◌else◌, is_ok, OnOk, OnErr};
ghost use Rattle.fast_wire.specs.Entity.{IsEntity};
ghost use Rattle.fast_wire.specs.PresenceMap.{IsWholeMap};
ghost use Rattle.fast_draft.specs.Segments.{ClearsNext, EndsBehind, GoesOn, IsMapOrNone, Leaves, NoLevelFor, NoRoomFor, Takes, ahead, emptied, fresh, with_more, with_segments};

use crate::level::{
    Level, append_byte, append_bytes, append_range, clear_next, end, move_nearer, remove, start,
};
use std::alloc::{AllocError, Global};
use std::marker::Model;

/// The messages that ended, and behind them the segments of the one that is open, each map at its place and behind it what was
/// written. Memory is refused only for what does not fit. Where it is, a call may have done a part of its work, if it says nothing
/// else.
#[derive(Drop)]
pub struct Draft {
    out: Vec<u8>,
    around: Vec<Level>,
    inner: Level,
}

impl Model for Draft {
    ghost use Rattle.std.specs.Prelude.{vec_len, vec_capacity};
    ghost use Rattle.fast_draft.specs.Segments.{Segments};
    ghost use Rattle.fast_draft.specs.Standing.{IsSound, memory_of, segments};

    ghost Value = { Segments };

    ghost view = { λ d. segments d.out.items d.around.items d.inner (memory_of (vec_capacity d.out) (vec_len d.out) (vec_capacity d.around)) };

    ghost invariant = { λ d. IsSound d.out.items d.around.items d.inner };
}

impl Draft {
    /// Of nothing. Takes no memory.
    pub fn new(alloc: Global) -> Draft
        ensures ended { result.around.ended ≡ [] }
        ensures segments { result.around.segments ≡ [] }
        ensures inner { result.inner ≡ fresh [] }
    {
        Draft {
            out: Vec::new(alloc),
            around: Vec::new(alloc),
            inner: Level::at(0),
        }
    }

    // Where the messages that ended end: the first segment begins there.
    #[inline(always)]
    fn first_place(&self) -> usize
        ensures { result ≡ length self.now.around.ended }
    {
        match self.around.first() {
            None => self.inner.place,
            Some(level) => level.place,
        }
    }

    /// What is true of the map of the innermost segment; it does nothing.
    #[inline(always)]
    pub fn is_sound(&self)
        ensures { (self.now.inner.map ≡ []) ⊎ (IsEntity self.now.inner.map × (length self.now.inner.map ≤ 256)) }
    {
        let _size = self.inner.size;
    }

    /// Forgets what was open, and begins a message, whose map this is.
    ///
    /// # Errors
    ///
    /// The one growth was refused: the map has more bytes than fit behind the messages that ended.
    #[inline(always)]
    pub fn begin(&mut self, map: &[u8]) -> Result<(), AllocError>
        requires { (bits : List Bool) × IsWholeMap map.now bits }
        ensures around { self.new.around ≡ with_segments self.old.around [] }
        ensures inner { OnOk result (self.new.inner ≡ fresh map.now) }
        ensures room { OnErr result (NoRoomFor (length map.now) (emptied self.old)) }
        ensures memory { Takes (length map.now) (emptied self.old) self.new.memory }
    {
        let place = self.first_place();
        self.out.truncate(place);
        self.around.clear();
        start(&mut self.out, &mut self.inner, map)?;
        Ok(())
    }

    /// Begins a segment inside the innermost, whose map this is, or none where it has none of its own.
    ///
    /// # Errors
    ///
    /// A growth was refused: for the segment around, or for the map.
    #[inline(always)]
    pub fn enter(&mut self, map: &[u8]) -> Result<(), AllocError>
        requires { IsMapOrNone map.now }
        ensures ended { self.new.around.ended ≡ self.old.around.ended }
        ensures segments { OnOk result (self.new.around.segments ≡ self.old.around.segments ++ self.old.inner ∷ []) }
        ensures inner { OnOk result (self.new.inner ≡ fresh map.now) }
        ensures room { OnErr result (NoLevelFor self.old ⊎ NoRoomFor (length map.now) self.old.memory) }
        ensures memory { Takes (length map.now) self.old.memory self.new.memory }
    {
        self.around.push(self.inner)?;
        start(&mut self.out, &mut self.inner, map)?;
        Ok(())
    }

    /// Ends the innermost in the last around it, which goes on.
    #[inline(always)]
    pub fn leave(&mut self)
        requires { self.now.around.segments ≢ [] }
        ensures left { Leaves self.old self.new }
        ensures memory { Takes 0 self.old.memory self.new.memory }
    {
        end(&mut self.out, self.inner);
        match self.around.pop() {
            Some(level) => self.inner = level,
            None => unreachable!(),
        }
    }

    /// Ends the innermost in the last around it, and begins another there, as `enter` does.
    ///
    /// # Errors
    ///
    /// The one growth was refused, for the map.
    #[inline(always)]
    pub fn go_on(&mut self, map: &[u8]) -> Result<(), AllocError>
        requires some { self.now.around.segments ≢ [] }
        requires map { IsMapOrNone map.now }
        ensures ended { self.new.around.ended ≡ self.old.around.ended }
        ensures gone { OnOk result (GoesOn map.now self.old self.new) }
        ensures room { OnErr result (NoRoomFor (length map.now) self.old.memory) }
        ensures memory { Takes (length map.now) self.old.memory self.new.memory }
    {
        let out = &mut self.out;
        end(out, self.inner);
        start(out, &mut self.inner, map)?;
        Ok(())
    }

    /// Ends the message's own segment, and with it the message.
    #[inline(always)]
    pub fn finish(&mut self)
        requires { self.now.around.segments ≡ [] }
        ensures ended { EndsBehind self.old.inner self.old.around.ended self.new.around.ended }
        ensures segments { self.new.around.segments ≡ [] }
        ensures memory { Takes 0 self.old.memory self.new.memory }
    {
        end(&mut self.out, self.inner);
        self.inner = Level::at(self.out.len());
    }

    /// The bytes of the messages that ended.
    #[inline(always)]
    pub fn ended(&self) -> &[u8]
        ensures { result.now ≡ self.now.around.ended }
    {
        &self.out[..self.first_place()]
    }

    /// Forgets the bytes of the messages that ended: what is open moves to the front.
    pub fn forget_ended(&mut self)
        ensures ended { self.new.around.ended ≡ [] }
        ensures segments { self.new.around.segments ≡ self.old.around.segments }
        ensures inner { self.new.inner ≡ self.old.inner }
        ensures memory { Takes 0 self.old.memory self.new.memory }
    {
        let count = self.first_place();
        remove(&mut self.out, 0, count);
        move_nearer(&mut self.around, count);
        self.inner.place -= count;
    }

    /// Lets so many bits of the innermost's map stand, as far as there are any.
    #[inline(always)]
    pub fn pass(&mut self, count: usize)
        ensures around { self.new.around ≡ self.old.around }
        ensures inner { self.new.inner ≡ ahead count self.old.inner }
        ensures memory { self.new.memory ≡ self.old.memory }
    {
        let left = 7 * self.inner.size - self.inner.asked;
        self.inner.asked += count.min(left);
    }

    /// Makes the next bit of the innermost's map 0, if one is left.
    #[inline(always)]
    pub fn clear(&mut self)
        ensures around { self.new.around ≡ self.old.around }
        ensures inner { ClearsNext self.old.inner self.new.inner }
        ensures memory { self.new.memory ≡ self.old.memory }
    {
        clear_next(&mut self.out, &mut self.inner);
    }

    /// Appends a byte to the innermost.
    ///
    /// # Errors
    ///
    /// The one growth was refused, and nothing has changed.
    #[inline(always)]
    pub fn push(&mut self, byte: u8) -> Result<(), AllocError>
        ensures around { self.new.around ≡ self.old.around }
        ensures inner { OnOk result (self.new.inner ≡ with_more self.old.inner (byte ∷ [])) }
        ensures unchanged { OnErr result (self.new.inner ≡ self.old.inner) }
        ensures room { OnErr result (NoRoomFor 1 self.old.memory) }
        ensures memory { Takes (if is_ok result then 1 else 0) self.old.memory self.new.memory }
    {
        append_byte(&mut self.out, byte)?;
        Ok(())
    }

    /// Appends the bytes from one place to another to the innermost.
    ///
    /// # Errors
    ///
    /// The one growth was refused, and nothing has changed.
    #[inline(always)]
    pub fn append(&mut self, bytes: &[u8], from: usize, to: usize) -> Result<(), AllocError>
        requires start { from ≤ to }
        requires end { to ≤ length bytes.now }
        ensures around { self.new.around ≡ self.old.around }
        ensures inner { OnOk result (self.new.inner ≡ with_more self.old.inner (slice_range bytes.now from to)) }
        ensures unchanged { OnErr result (self.new.inner ≡ self.old.inner) }
        ensures room { OnErr result (NoRoomFor (to - from) self.old.memory) }
        ensures memory { Takes (if is_ok result then to - from else 0) self.old.memory self.new.memory }
    {
        append_range(&mut self.out, bytes, from, to)?;
        Ok(())
    }

    /// Appends bytes to the innermost. It is for those that are seldom wanted, or few; `append` is for those in front of a longer
    /// input.
    ///
    /// # Errors
    ///
    /// The one growth was refused, and nothing has changed.
    #[inline(always)]
    pub fn append_slice(&mut self, bytes: &[u8]) -> Result<(), AllocError>
        ensures around { self.new.around ≡ self.old.around }
        ensures inner { OnOk result (self.new.inner ≡ with_more self.old.inner bytes.now) }
        ensures unchanged { OnErr result (self.new.inner ≡ self.old.inner) }
        ensures room { OnErr result (NoRoomFor (length bytes.now) self.old.memory) }
        ensures memory { Takes (if is_ok result then length bytes.now else 0) self.old.memory self.new.memory }
    {
        append_bytes(&mut self.out, bytes)?;
        Ok(())
    }
}
