//! Streams as lines.

ghost use Rattle.std.specs.Prelude.{◌≡◌, ◌≢◌, ◌≤◌, ◌^◌, ℕ, List, Err};
ghost use Rattle.fast_template.specs.TemplateSets.{IsSound};
ghost use Rattle.fast_machine.specs.Inputs.{Reads, reader_by};
ghost use Rattle.fast_pass.specs.Passed.{FlushesOnce, IsCausedBy, errors_after};
ghost use Rattle.fast_command.specs.Run.{Shows};

use fast_canon::{CanonFault, Summary, pass_through};
use fast_io::{ByteInput, ByteOutput};
use fast_lines::{Form, JsonSigns, Signs, TextSigns};
use fast_show::LineWriter;
use fast_stream::Mode;
use fast_template::TemplateSet;
use std::alloc::Global;

// Reads a stream to its end, and writes the line of each message by the signs of a form.
fn show_by<S: Signs, R: ByteInput, W: ByteOutput>(
    alloc: Global,
    set: &TemplateSet,
    mode: Mode,
    signs: S,
    reader: &mut R,
    writer: &mut W,
    turns: u64,
) -> Result<Summary, CanonFault>
    requires turns { turns ≤ 2 ^ 40 }
    ensures answer { (count : ℕ) × (input : List ℕ)
        × Reads (reader_by R.left R.calls R.errors R.ends reader.old)
        (reader_by R.left R.calls R.errors R.ends reader.new) count input
        × (count ≤ turns)
        × Shows mode S.form set.now turns (R.left reader.new) (W.taken writer.old)
        (W.taken writer.new) input result
        × IsCausedBy result (count ≡ turns)
        (reader_by R.left R.calls R.errors R.ends reader.old)
        (reader_by R.left R.calls R.errors R.ends reader.new) }
    ensures write { W.errors writer.new ≡ errors_after result (W.errors writer.old) }
    ensures flush { FlushesOnce result (W.flushes writer.old) (W.flushes writer.new) }
    ensures sound { result ≢ Err CanonFault.Memory → IsSound set.now }
{
    pass_through(
        alloc,
        set,
        mode,
        LineWriter::new(alloc, signs, set),
        reader,
        writer,
        turns,
    )
}

/// Reads a stream to its end, and writes the line of each message in a form.
pub(crate) fn show<R: ByteInput, W: ByteOutput>(
    alloc: Global,
    set: &TemplateSet,
    mode: Mode,
    form: Form,
    reader: &mut R,
    writer: &mut W,
    turns: u64,
) -> Result<Summary, CanonFault>
    requires turns { turns ≤ 2 ^ 40 }
    ensures answer { (count : ℕ) × (input : List ℕ)
        × Reads (reader_by R.left R.calls R.errors R.ends reader.old)
        (reader_by R.left R.calls R.errors R.ends reader.new) count input
        × (count ≤ turns)
        × Shows mode form set.now turns (R.left reader.new) (W.taken writer.old)
        (W.taken writer.new) input result
        × IsCausedBy result (count ≡ turns)
        (reader_by R.left R.calls R.errors R.ends reader.old)
        (reader_by R.left R.calls R.errors R.ends reader.new) }
    ensures write { W.errors writer.new ≡ errors_after result (W.errors writer.old) }
    ensures flush { FlushesOnce result (W.flushes writer.old) (W.flushes writer.new) }
    ensures sound { result ≢ Err CanonFault.Memory → IsSound set.now }
{
    match form {
        Form::Text => show_by(alloc, set, mode, TextSigns, reader, writer, turns),
        Form::Json => show_by(alloc, set, mode, JsonSigns, reader, writer, turns),
    }
}
