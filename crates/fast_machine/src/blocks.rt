//! Blocks: a size, and as many bytes of whole messages.

ghost use Rattle.std.specs.Prelude.{◌≡◌, ◌≤◌, ◌<◌, ◌⊎◌, Ok, Err, IfOk, IfErr, length, drop};
ghost use Rattle.fast_wire.specs.Level.{judge, overlong_unsigned as overlong_unsigned_of};
ghost use Rattle.fast_field.specs.Calls.{Answers};
ghost use Rattle.fast_stream.specs.Blocks.{size_at};
ghost use Rattle.fast_stream.specs.Faults.{cause_of_wire};

use fast_stream::Cause;
use fast_walk::wire_cause;
use fast_wire::{Level, entity_end, overlong_unsigned, read_unsigned};

/// The most bytes of a size.
const SIZE_LIMIT: usize = 10;

// Judges the size with which the bytes begin, at the strict level: whether it is there and has no more groups than it
// needs.
fn judge_size(level: Level, bytes: &[u8]) -> Result<(), Cause>
    ensures judged { Answers (λ x. x) result
        (judge level 10 overlong_unsigned_of cause_of_wire Cause.R6 bytes.now) }
    ensures few { IfErr result (λ c. c ≡ Cause.Truncated → length bytes.now ≤ 9) }
{
    match level {
        Level::Usual => Ok(()),
        Level::Strict => match entity_end(bytes, 0, SIZE_LIMIT) {
            Err(fault) => Err(wire_cause(fault)),
            Ok(next) => {
                if overlong_unsigned(&bytes[..next]) {
                    Err(Cause::R6)
                } else {
                    Ok(())
                }
            }
        },
    }
}

// Reads the size of the block that the bytes begin with, and answers it with the place behind it. It has up to ten
// groups.
fn read_size(level: Level, bytes: &[u8]) -> Result<(u128, usize), Cause>
    ensures place { IfOk result (λ x. x.1 ≤ length bytes.now) }
    ensures some { IfOk result (λ x. 0 < x.0) }
    ensures goes { IfOk result (λ x. size_at level bytes.now ≡ Ok (x.0, drop x.1 bytes.now)) }
    ensures stops { IfErr result (λ c. size_at level bytes.now ≡ Err c) }
    // few bytes are there where more are wanted
    ensures few { IfErr result (λ c. c ≡ Cause.Truncated → length bytes.now ≤ 9) }
{
    judge_size(level, bytes)?;
    match read_unsigned(bytes, 0) {
        Err(fault) => Err(wire_cause(fault)),
        Ok((0, _)) => Err(Cause::D12),
        Ok(size) => Ok(size),
    }
}

/// How many bytes are left of the block that the bytes go on with, and the place from which they are: behind a size
/// where none were left.
pub(crate) fn open_block(level: Level, left: u128, bytes: &[u8]) -> Result<(u128, usize), Cause>
    ensures place { IfOk result (λ x. x.1 ≤ length bytes.now) }
    ensures some { IfOk result (λ x. 0 < x.0) }
    ensures same { IfOk result (λ x. 0 < left → (x.0 ≡ left) × (x.1 ≡ 0)) }
    ensures goes { IfOk result (λ x. left ≡ 0 → size_at level bytes.now ≡ Ok (x.0, drop x.1 bytes.now)) }
    ensures stops { IfErr result (λ c. (left ≡ 0) × (size_at level bytes.now ≡ Err c)) }
    ensures few { IfErr result (λ c. c ≡ Cause.Truncated → length bytes.now ≤ 9) }
{
    if left > 0 {
        return Ok((left, 0));
    }
    read_size(level, bytes)
}

/// How many of so many bytes belong to a block of which so many are left.
pub(crate) fn within(left: u128, count: usize) -> usize
    ensures left { result ≤ left }
    ensures count { result ≤ count }
    ensures least { (result ≡ left) ⊎ (result ≡ count) }
{
    match usize::try_from(left) {
        Ok(left) if left < count => left,
        _ => count,
    }
}
