//! Stop-bit entities: FAST 1.1, Transfer Encoding, Stop Bit Encoded Entities.

ghost use Rattle.std.specs.Prelude.{◌≡◌, ℕ, ◌+◌, ◌<◌, ◌≤◌, length, drop, slice_index, slice_range, MatchOption, MatchResult};
ghost use Rattle.fast_wire.specs.Entity.{HasNoStop, IsEntity, IsFirstStop, IsRun};
ghost use Rattle.fast_wire.specs.Reading.{EntityFault, Gives, NothingElse, entity_at};

use crate::fault::WireFault;
use std::simd::prelude::*;

/// The bit that is set in the last byte of an entity, and in no other.
pub(crate) const STOP_BIT: u8 = 0x80;

/// How many bytes `stop_free_run` looks at.
pub const LANES: usize = 16;

/// How many of the 16 bytes from `at` on come before the first that has its stop bit set. It takes no memory.
#[inline(always)]
pub fn stop_free_run(bytes: &[u8], at: usize) -> usize
    requires { at + 16 ≤ length bytes.now }
    ensures { IsRun bytes.now at result }
{
    let lanes = u8x16::from_slice(&bytes[at..]);
    let stops = lanes.simd_ge(u8x16::splat(STOP_BIT)).to_bitmask();
    if stops == 0 {
        LANES
    } else {
        stops.trailing_zeros() as usize
    }
}

/// The first index from `at` on whose byte has its stop bit set, one byte at a time.
fn find_stop_by_byte(bytes: &[u8], at: usize) -> Option<usize>
    requires within { at ≤ length bytes.now }
    requires before { (k : ℕ) → k < at → slice_index bytes.now k < 128 }
    ensures { MatchOption result (HasNoStop bytes.now) (IsFirstStop bytes.now) }
{
    for i in at..bytes.len() {
        if bytes[i] >= STOP_BIT {
            return Some(i);
        }
    }
    None
}

/// The first index whose byte has its high bit, the stop bit, set. It takes no memory.
pub fn find_stop(bytes: &[u8]) -> Option<usize>
    ensures { MatchOption result (HasNoStop bytes.now) (IsFirstStop bytes.now) }
{
    let mut at = 0;
    while bytes.len() - at >= LANES {
        let run = stop_free_run(bytes, at);
        if run < LANES {
            return Some(at + run);
        }
        at += LANES;
    }
    find_stop_by_byte(bytes, at)
}

/// The place after the entity that begins at `at`, of at most `limit` bytes. An entity is judged only once
/// its stop bit has come or the limit is passed.
pub fn entity_end(bytes: &[u8], at: usize, limit: usize) -> Result<usize, WireFault>
    requires place { at ≤ length bytes.now }
    requires some { 0 < limit }
    ensures answer { MatchResult result
        (λ next. (at < next) × (next ≤ length bytes.now) × (next ≤ at + limit)
        × IsEntity (slice_range bytes.now at next))
        (EntityFault limit bytes.now at) }
    ensures gives { Gives NothingElse
        (λ next. (slice_range bytes.now at next, drop next bytes.now)) result
        (entity_at limit (drop at bytes.now)) }
{
    let rest = &bytes[at..];
    let missing = if rest.len() < limit {
        WireFault::NeedMore
    } else {
        WireFault::TooLong
    };
    let window = &rest[..limit.min(rest.len())];
    match find_stop(window) {
        Some(i) => Ok(at + i + 1),
        None => Err(missing),
    }
}
