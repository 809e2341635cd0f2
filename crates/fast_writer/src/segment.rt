//! A segment that is being written.

ghost use Rattle.std.specs.Prelude.{◌≡◌, ◌⊎◌, ◌&&◌, true, false, drop, IfErr, OnOk, OnErr};
ghost use Rattle.fast_wire.specs.declared.fault.WireFault.TheVariants as fault;
ghost use Rattle.fast_writer.specs.Written.{Asked, Ended, IsEmpty, has_set};
ghost use Rattle.fast_writer.specs.Levels.{level_of};

use fast_wire::{MapBuilder, WireFault};
use std::alloc::{AllocError, Global};

/// A segment: the bits asked for in their order, whether they stand in a map of its own, and the bytes behind that.
#[derive(Drop)]
pub struct Segment {
    /// The bits that its instructions asked for, in their order.
    pub bits: MapBuilder,
    /// Whether they stand in a map of its own.
    pub own: bool,
    /// What stands behind the map.
    pub bytes: Vec<u8>,
}

impl Segment {
    /// Of nothing. Takes no memory.
    #[inline(always)]
    pub fn new(alloc: Global, own: bool) -> Segment
        ensures { IsEmpty own (level_of result) }
    {
        Segment {
            bits: MapBuilder::new(alloc),
            own,
            bytes: Vec::new(alloc),
        }
    }

    /// Begins anew, in the same memory.
    #[inline(always)]
    pub fn begin(&mut self, own: bool)
        ensures { IsEmpty own (level_of self.new) }
    {
        self.bits.clear();
        self.own = own;
        self.bytes.clear();
    }

    /// One bit more, where one is needed.
    #[inline(always)]
    pub fn ask(&mut self, needed: bool, bit: bool) -> Result<(), AllocError>
        ensures asked { OnOk result (Asked needed bit (level_of self.old) (level_of self.new)) }
        ensures run { OnOk result (self.new.bytes ≡ self.old.bytes) }
    {
        if needed {
            self.bits.push(bit)?;
        }
        Ok(())
    }

    /// Appends the segment behind its map, or nothing.
    ///
    /// # Errors
    ///
    /// A growth was refused.
    #[inline(always)]
    pub fn end(&self, out: &mut Vec<u8>) -> Result<(), AllocError>
        requires room { (self.now.own && has_set (drop 1792 self.now.bits)) ≡ false }
        ensures ended { OnOk result (Ended (level_of self.now) out.old.items out.new.items) }
        ensures unchanged { OnErr result (out.new.items ≡ out.old.items) }
    {
        match self.seal(out) {
            Err(WireFault::Memory) => Err(AllocError),
            Err(_) => unreachable!(),
            Ok(()) => Ok(()),
        }
    }

    /// The same, and tells a growth that was refused from a map without room.
    ///
    /// # Errors
    ///
    /// TooLong: a bit is 1 for which the map has no room. Memory: a growth was refused.
    #[inline(always)]
    pub fn seal(&self, out: &mut Vec<u8>) -> Result<(), WireFault>
        ensures ended { OnOk result (Ended (level_of self.now) out.old.items out.new.items) }
        ensures room { OnOk result
            ((self.now.own && has_set (drop 1792 self.now.bits)) ≡ false) }
        ensures refused { IfErr result (λ f. (f ≡ fault.Memory) ⊎ ((f ≡ fault.TooLong)
            × ((self.now.own && has_set (drop 1792 self.now.bits)) ≡ true))) }
        ensures unchanged { OnErr result (out.new.items ≡ out.old.items) }
    {
        let start = out.len();
        if self.own {
            match self.bits.write(out) {
                Err(WireFault::TooLong) => return Err(WireFault::TooLong),
                Err(_) => return Err(WireFault::Memory),
                Ok(()) => {}
            }
        }
        match out.extend_from_slice(&self.bytes) {
            Err(_) => {
                out.truncate(start);
                Err(WireFault::Memory)
            }
            Ok(()) => Ok(()),
        }
    }
}
