//! Streams in canonical form.

ghost use Rattle.std.specs.Prelude.{◌≡◌, ◌≢◌, ◌≤◌, ◌^◌, ℕ, List, Err};
ghost use Rattle.fast_template.specs.TemplateSets.{IsSound, templates_in};
ghost use Rattle.fast_machine.specs.Inputs.{Reads, told_by};
ghost use Rattle.fast_pass.specs.Passed.{FlushesOnce, IsCausedBy, errors_after};
ghost use Rattle.fast_canon.specs.Canonicalised.{Canonicalises, Checks};

use crate::nowhere::Nowhere;
use fast_io::{ByteInput, ByteOutput};
use fast_pass::{CanonFault, Summary, pass_through};
use fast_stream::Mode;
use fast_template::TemplateSet;
use fast_writer::Writer;
use std::alloc::Global;

/// Reads a stream of messages of a template set to its end, from undefined entries, and writes the canonical bytes of
/// its messages: of all legal spellings the one that comes first.
///
/// It makes at most `turns` reads of at most 4,096 bytes, of which there may be up to 2^40, and writes what the
/// messages that ended have after each, and in between wherever 65,536 bytes or more wait at the end of a message. What
/// is held is one chunk, the bytes of the message that is open, what waits and the entries. The writer is flushed once
/// before Ok or Stream is answered.
///
/// # Errors
///
/// Stream: the bytes read are refused, the reader failed, the reads are used up, or memory was refused that reading
/// asked for; the canonical bytes of the messages before are written. Write: the writer failed. Memory: the entries or
/// the canonical bytes were refused memory. After these two a front is written of the canonical bytes of messages that
/// were read.
pub fn canonicalise<R: ByteInput, W: ByteOutput>(
    alloc: Global,
    set: &TemplateSet,
    mode: Mode,
    reader: &mut R,
    writer: &mut W,
    turns: u64,
) -> Result<Summary, CanonFault>
    requires turns { turns ≤ 2 ^ 40 }
    // at most `turns` reads, what they gave, what was written, and what is answered
    ensures answer { (count : ℕ) × (input : List ℕ)
        × Reads (told_by R.ByteInput reader.old) (told_by R.ByteInput reader.new) count input
        × (count ≤ turns)
        × Canonicalises mode (templates_in set.now) turns (R.left reader.new) (W.taken writer.old)
        (W.taken writer.new) input result
        × IsCausedBy result (count ≡ turns)
        (told_by R.ByteInput reader.old) (told_by R.ByteInput reader.new) }
    ensures write { W.errors writer.new ≡ errors_after result (W.errors writer.old) }
    ensures flush { FlushesOnce result (W.flushes writer.old) (W.flushes writer.new) }
    // the set is one that the laws of streams speak of
    ensures sound { result ≢ Err CanonFault.Memory → IsSound set.now }
{
    pass_through(alloc, set, mode, Writer::new(alloc), reader, writer, turns)
}

/// Reads a stream as `canonicalise` does, and writes nothing: it answers what that would count.
///
/// # Errors
///
/// Stream and Memory, as `canonicalise` has them.
pub fn check<R: ByteInput>(
    alloc: Global,
    set: &TemplateSet,
    mode: Mode,
    reader: &mut R,
    turns: u64,
) -> Result<Summary, CanonFault>
    requires turns { turns ≤ 2 ^ 40 }
    ensures answer { (count : ℕ) × (input : List ℕ)
        × Reads (told_by R.ByteInput reader.old) (told_by R.ByteInput reader.new) count input
        × (count ≤ turns)
        × Checks mode (templates_in set.now) turns (R.left reader.new) input result
        × IsCausedBy result (count ≡ turns)
        (told_by R.ByteInput reader.old) (told_by R.ByteInput reader.new) }
    ensures sound { result ≢ Err CanonFault.Memory → IsSound set.now }
{
    let mut nowhere = Nowhere {
        calls: 0,
        flushes: 0,
    };
    canonicalise(alloc, set, mode, reader, &mut nowhere, turns)
}
