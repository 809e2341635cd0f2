//! Writing bytes whole.

ghost use Rattle.std.specs.Prelude.{◌≡◌, ◌⊎◌, ℕ, List, OnErr, OnOk};
ghost use Rattle.std.specs.Io.KnownBytes.{Appends};
ghost use Rattle.fast_io.specs.Counts.{counted};
ghost use Rattle.fast_io.specs.Traffic.{CountsError, Taken};

use crate::input::Failed;
use crate::output::ByteOutput;

/// Pushes all the bytes. It fails only where a push did.
pub fn push_all<W: ByteOutput>(writer: &mut W, bytes: &[u8]) -> Result<(), Failed>
    ensures written { OnOk result (Appends (W.taken writer.old) (W.taken writer.new) bytes.now) }
    ensures part { OnErr result ((rest : List ℕ)
        × Taken (W.taken writer.old) (W.taken writer.new) bytes.now rest) }
    ensures failed { CountsError result (W.errors writer.old) (W.errors writer.new) }
    ensures flushes { W.flushes writer.new ≡ W.flushes writer.old }
{
    let mut rest = bytes;
    while !rest.is_empty() {
        match writer.push(rest) {
            Err(failed) => return Err(failed),
            Ok(count) => rest = &rest[count..],
        }
    }
    Ok(())
}

/// Pushes all the bytes, and then flushes once. It fails only where one of these calls did.
pub fn write_all<W: ByteOutput>(writer: &mut W, bytes: &[u8]) -> Result<(), Failed>
    ensures written { OnOk result (Appends (W.taken writer.old) (W.taken writer.new) bytes.now) }
    ensures part { OnErr result ((rest : List ℕ)
        × Taken (W.taken writer.old) (W.taken writer.new) bytes.now rest) }
    ensures failed { CountsError result (W.errors writer.old) (W.errors writer.new) }
    ensures flushed { OnOk result (W.flushes writer.new ≡ counted (W.flushes writer.old)) }
    // a push failed and there was no flush, or all was pushed and the flush failed
    ensures unflushed { OnErr result ((W.flushes writer.new ≡ W.flushes writer.old)
        ⊎ ((W.flushes writer.new ≡ counted (W.flushes writer.old))
        × Appends (W.taken writer.old) (W.taken writer.new) bytes.now)) }
{
    match push_all(writer, bytes) {
        Err(failed) => Err(failed),
        Ok(()) => match writer.flush() {
            Err(failed) => Err(failed),
            Ok(()) => Ok(()),
        },
    }
}
