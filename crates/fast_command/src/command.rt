//! What is done with a stream, and doing it.

ghost use Rattle.std.specs.Prelude.{◌≡◌, ◌≢◌, ◌≤◌, ◌^◌, ℕ, List, Err};
ghost use Rattle.fast_template.specs.TemplateSets.{IsSound};
ghost use Rattle.fast_machine.specs.Inputs.{Reads, reader_by};
ghost use Rattle.fast_pass.specs.Passed.{FlushesOnce, IsCausedBy, errors_after};
ghost use Rattle.fast_command.specs.Run.{Runs};

use crate::shown::show;
use crate::told::tell;
use fast_canon::{CanonFault, Summary, canonicalise};
use fast_io::{ByteInput, ByteOutput};
use fast_lines::Form;
use fast_stream::Mode;
use fast_template::TemplateSet;
use std::alloc::Global;

/// What is done with a stream.
#[derive(Clone, Copy, Debug, PartialEq, Eq)]
pub enum Command {
    /// Writes a line for each message, in a form.
    Show,
    /// Writes how many messages and bytes there are, and how many canonical bytes.
    Check,
    /// Writes the canonical bytes.
    Canon,
}

/// Reads a stream of messages of a template set to its end, from undefined entries, and writes what the command makes
/// of it: a line for each message in the form, what a check counts, or the canonical bytes.
///
/// It makes at most `turns` reads of at most 4,096 bytes, of which there may be up to 2^40, and writes what the
/// messages that ended have after each, and in between wherever 65,536 bytes or more wait at the end of a message. The
/// writer is flushed once before Ok or Stream is answered.
///
/// # Errors
///
/// Stream: the bytes read are refused, the reader failed, the reads are used up, or memory was refused that reading
/// asked for; what the command makes of the messages before is written. Write: the writer failed. Memory: another
/// allocation was refused. After these two a front is written of what the command makes of messages that were read.
pub fn run<R: ByteInput, W: ByteOutput>(
    alloc: Global,
    command: Command,
    set: &TemplateSet,
    mode: Mode,
    form: Form,
    reader: &mut R,
    writer: &mut W,
    turns: u64,
) -> Result<Summary, CanonFault>
    requires turns { turns ≤ 2 ^ 40 }
    // at most `turns` reads, what they gave, what was written, and what is answered
    ensures answer { (count : ℕ) × (input : List ℕ)
        × Reads (reader_by R.left R.calls R.errors R.ends reader.old)
        (reader_by R.left R.calls R.errors R.ends reader.new) count input
        × (count ≤ turns)
        × Runs command mode form set.now turns (R.left reader.new) (W.taken writer.old)
        (W.taken writer.new) input result
        × IsCausedBy result (count ≡ turns)
        (reader_by R.left R.calls R.errors R.ends reader.old)
        (reader_by R.left R.calls R.errors R.ends reader.new) }
    // a failed write is answered exactly where a call of the writer failed
    ensures write { W.errors writer.new ≡ errors_after result (W.errors writer.old) }
    ensures flush { FlushesOnce result (W.flushes writer.old) (W.flushes writer.new) }
    // the set is one that the laws of streams speak of
    ensures sound { result ≢ Err CanonFault.Memory → IsSound set.now }
{
    match command {
        Command::Show => show(alloc, set, mode, form, reader, writer, turns),
        Command::Check => tell(alloc, set, mode, reader, writer, turns),
        Command::Canon => canonicalise(alloc, set, mode, reader, writer, turns),
    }
}
