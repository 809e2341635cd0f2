//! Sizes of packets.

ghost use Rattle.std.specs.Prelude.{◌≡◌, ◌≤◌, ◌<◌, ◌⊎◌, ℕ, List, Ok, Err, IfOk, IfErr, length, drop};
ghost use Rattle.fast_wire.specs.Level.{judge, overlong_unsigned as overlong_unsigned_of};
ghost use Rattle.fast_field.specs.Calls.{Answers};
ghost use Rattle.fast_stream.specs.Blocks.{size_at};
ghost use Rattle.fast_stream.specs.Faults.{cause_of_wire};
ghost use Rattle.fast_packets.specs.Recordings.{packet_limit};
ghost use Rattle.fast_recording.specs.Sizes.{IsNoSize};

use fast_stream::Cause;
use fast_walk::wire_cause;
use fast_wire::{Level, entity_end, overlong_unsigned, read_unsigned};

/// The most bytes of a size.
const SIZE_LIMIT: usize = 10;

/// The most bytes of a packet.
const PACKET_LIMIT: u128 = 65_535;

// Judges the size with which the bytes begin, at the strict level: whether it is there and has no more groups than it
// needs.
fn judge_size(level: Level, bytes: &[u8]) -> Result<(), Cause>
    ensures judged { Answers (λ x. x) result
        (judge level 10 overlong_unsigned_of cause_of_wire Cause.R6 bytes.now) }
{
    match level {
        Level::Usual => Ok(()),
        Level::Strict => match entity_end(bytes, 0, SIZE_LIMIT) {
            Err(fault) => Err(wire_cause(fault)),
            Ok(next) => {
                if overlong_unsigned(&bytes[..next]) {
                    Err(Cause::R6)
                } else {
                    Ok(())
                }
            }
        },
    }
}

// Reads the number that is a size, which has up to ten groups and is not 0, and answers it with the place behind it.
fn read_number(level: Level, bytes: &[u8]) -> Result<(u128, usize), Cause>
    ensures place { IfOk result (λ x. x.1 ≤ length bytes.now) }
    ensures some { IfOk result (λ x. 0 < x.0) }
    ensures goes { IfOk result (λ x. size_at level bytes.now ≡ Ok (x.0, drop x.1 bytes.now)) }
    ensures stops { IfErr result (λ c. size_at level bytes.now ≡ Err c) }
{
    judge_size(level, bytes)?;
    match read_unsigned(bytes, 0) {
        Err(fault) => Err(wire_cause(fault)),
        Ok((0, _)) => Err(Cause::D12),
        Ok(size) => Ok(size),
    }
}

/// Reads the size of the packet that the bytes begin with, and answers it with the place behind it.
///
/// # Errors
///
/// What is the matter with the bytes as a size: `Truncated` where they end inside it, `R6` at the strict level where it has
/// more groups than it needs, `D12` for 0, `Limit` for more than ten groups and for more than 65,535.
pub fn read_packet_size(level: Level, bytes: &[u8]) -> Result<(usize, usize), Cause>
    ensures place { IfOk result (λ x. x.1 ≤ length bytes.now) }
    ensures some { IfOk result (λ x. 0 < x.0) }
    ensures few { IfOk result (λ x. x.0 ≤ packet_limit) }
    ensures goes { IfOk result (λ x. size_at level bytes.now ≡ Ok (x.0, drop x.1 bytes.now)) }
    ensures stops { IfErr result (IsNoSize level bytes.now) }
{
    let (size, next) = read_number(level, bytes)?;
    if size > PACKET_LIMIT {
        return Err(Cause::Limit);
    }
    Ok((size as usize, next))
}
