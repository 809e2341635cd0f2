//! The bits of a segment's map, as pieces take them.

ghost use Rattle.std.specs.Prelude.{◌≡◌, ◌≢◌, ◌≤◌, ◌<◌, ◌++◌, ℕ, Bool, List, Ok, true, false, IfOk, IfErr, IsTrue, length, drop, slice_range};
ghost use Rattle.fast_dictionary.specs.Dictionary.{Dictionary};
ghost use Rattle.fast_stream.specs.Bits.{after_bit, bit_for};
ghost use Rattle.fast_walk.specs.OpenSegments.{cursor};
ghost use Rattle.fast_walk.specs.ShortMaps.{BeginsOneGroup, BeginsShortMap};
ghost use Rattle.fast_stream.specs.Faults.{cause_of_wire};
ghost use Rattle.fast_stream.specs.Reading.{own_map_at, stopped};
ghost use Rattle.fast_wire.specs.Level.{judge, overlong_map as overlong_map_of};
ghost use Rattle.fast_field.specs.Calls.{Answers};
ghost use Rattle.fast_walk.specs.Awaited.{IsOwnMap};

use crate::halt::{Halt, wire_cause};
use fast_stream::Cause;
use fast_wire::{Bits, Level, entity_end, overlong_map, read_map};
use std::alloc::Global;

/// The next bit where one is needed, or else 1; it stays the next.
#[inline(always)]
pub fn first_for(bits: &Bits, needed: bool) -> bool
    ensures { result ≡ bit_for needed bits.now }
{
    if needed { bits.first() } else { true }
}

/// Takes the next bit where one is needed.
#[inline(always)]
pub fn take_for(bits: &mut Bits, needed: bool)
    ensures { bits.new ≡ after_bit needed bits.old }
{
    if needed {
        bits.take();
    }
}

/// The most bytes of a presence map.
const MAP_LIMIT: usize = 256;

/// Whether a map of one group or two stands here that reaches no further than its last 1. False says nothing.
#[inline(always)]
fn is_short_map(bytes: &[u8], at: usize) -> bool
    requires { at ≤ length bytes.now }
    ensures { result ≡ true → BeginsShortMap (drop at bytes.now) }
{
    if at == bytes.len() {
        return false;
    }
    bytes[at] >= 128 || (bytes.len() - at > 1 && bytes[at + 1] > 128)
}

/// Whether a map of one group stands here, as most are.
#[inline(always)]
pub(crate) fn is_one_group(bytes: &[u8], at: usize) -> bool
    requires { at ≤ length bytes.now }
    ensures { result ≡ true → BeginsOneGroup (drop at bytes.now) }
{
    at < bytes.len() && bytes[at] >= 128
}

/// Judges the map that begins at `at`, at the strict level: whether it is there and has no more groups than reach its
/// last 1.
#[inline(always)]
fn judge_map(level: Level, bytes: &[u8], at: usize) -> Result<(), Cause>
    requires { at ≤ length bytes.now }
    ensures { Answers (λ x. x) result
        (judge level 256 overlong_map_of cause_of_wire Cause.R7 (drop at bytes.now)) }
{
    match level {
        Level::Usual => Ok(()),
        // as most are
        Level::Strict if is_short_map(bytes, at) => Ok(()),
        Level::Strict => match entity_end(bytes, at, MAP_LIMIT) {
            Err(fault) => Err(wire_cause(fault)),
            Ok(next) => {
                if overlong_map(&bytes[at..next]) {
                    Err(Cause::R7)
                } else {
                    Ok(())
                }
            }
        },
    }
}

/// Reads a segment's own map that begins at `at`, or none where it has none, and answers its bits and the place
/// after it. `number` is the segment's, for a fault.
#[inline(always)]
pub(crate) fn read_own_map(
    alloc: Global,
    number: u32,
    own_map: bool,
    level: Level,
    bytes: &[u8],
    at: usize,
) -> Result<(Bits, usize), Halt>
    requires { at ≤ length bytes.now }
    ensures place { IfOk result (λ x. (at ≤ x.1) × (x.1 ≤ length bytes.now)) }
    ensures took { IfOk result (λ x. IsTrue own_map → at < x.1) }
    ensures map { IfOk result (λ x. IsOwnMap own_map (slice_range bytes.now at x.1) x.0) }
    ensures goes { IfOk result (λ x. (d : Dictionary) (bits : List Bool) (spare : ℕ) (more : List ℕ)
        → own_map_at level number own_map (cursor d bits spare (drop at bytes.now ++ more))
        ≡ Ok (cursor d x.0 spare (drop x.1 bytes.now ++ more))) }
    ensures stops { IfErr result (λ h. h.cause ≢ Cause.Memory
        → (d : Dictionary) (bits : List Bool) (spare : ℕ)
        → own_map_at level number own_map (cursor d bits spare (drop at bytes.now))
        ≡ stopped h.number (drop at bytes.now) h.cause) }
{
    if own_map {
        match judge_map(level, bytes, at) {
            Err(cause) => Err(Halt::new(cause, number)),
            Ok(()) => match read_map(alloc, bytes, at) {
                Ok(x) => Ok(x),
                Err(fault) => Err(Halt::new(wire_cause(fault), number)),
            },
        }
    } else {
        Ok((Bits::none(alloc), at))
    }
}
