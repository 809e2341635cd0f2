//! What a check says of a stream.

ghost use Rattle.std.specs.Prelude.{◌≡◌, ◌≢◌, ◌≤◌, ◌^◌, ℕ, List, Err};
ghost use Rattle.fast_template.specs.TemplateSets.{IsSound};
ghost use Rattle.fast_machine.specs.Inputs.{Reads, reader_by};
ghost use Rattle.fast_pass.specs.Passed.{FlushesOnce, IsCausedBy, errors_after};
ghost use Rattle.fast_command.specs.Run.{Tells};

use fast_canon::{CanonFault, Summary, check};
use fast_io::{ByteInput, ByteOutput, write_all};
use fast_lines::push_ok_line;
use fast_stream::Mode;
use fast_template::TemplateSet;
use std::alloc::Global;

/// Reads a stream to its end, and says what it counted: the messages, the bytes read and the canonical bytes. Of a
/// stream that is refused it says nothing.
pub(crate) fn tell<R: ByteInput, W: ByteOutput>(
    alloc: Global,
    set: &TemplateSet,
    mode: Mode,
    reader: &mut R,
    writer: &mut W,
    turns: u64,
) -> Result<Summary, CanonFault>
    requires turns { turns ≤ 2 ^ 40 }
    ensures answer { (count : ℕ) × (input : List ℕ)
        × Reads (reader_by R.left R.calls R.errors R.ends reader.old)
        (reader_by R.left R.calls R.errors R.ends reader.new) count input
        × (count ≤ turns)
        × Tells mode set.now turns (R.left reader.new) (W.taken writer.old)
        (W.taken writer.new) input result
        × IsCausedBy result (count ≡ turns)
        (reader_by R.left R.calls R.errors R.ends reader.old)
        (reader_by R.left R.calls R.errors R.ends reader.new) }
    ensures write { W.errors writer.new ≡ errors_after result (W.errors writer.old) }
    ensures flush { FlushesOnce result (W.flushes writer.old) (W.flushes writer.new) }
    ensures sound { result ≢ Err CanonFault.Memory → IsSound set.now }
{
    match check(alloc, set, mode, reader, turns) {
        Err(CanonFault::Stream(fault)) => match writer.flush() {
            Err(_) => Err(CanonFault::Write),
            Ok(()) => Err(CanonFault::Stream(fault)),
        },
        // a check writes nothing, so it is memory that was refused
        Err(CanonFault::Write | CanonFault::Memory) => Err(CanonFault::Memory),
        Ok(summary) => {
            let mut line = Vec::new(alloc);
            match push_ok_line(summary.messages, summary.read, summary.written, &mut line) {
                Err(_) => Err(CanonFault::Memory),
                Ok(()) => match write_all(writer, &line) {
                    Err(_) => Err(CanonFault::Write),
                    Ok(()) => Ok(summary),
                },
            }
        }
    }
}
