//! What is done with a recording.

ghost use Rattle.std.specs.Prelude.{◌≡◌, ◌≢◌, ◌≤◌, ◌^◌, Err, IfOk};
ghost use Rattle.fast_machine.specs.Inputs.{told_by};
ghost use Rattle.fast_template.specs.TemplateSets.{templates_in};
ghost use Rattle.fast_recording.specs.Calls.{CanonicalisesPackets, ChecksPackets, ShowsPackets, WritesLines, is_numbered};
ghost use Rattle.fast_recording.specs.Recorded.{FlushesOnce, RecordsBy, outputs, tells_failed, writes_failed};

use crate::fault::RecordingFault;
use crate::mode::PacketMode;
use crate::nowhere::Nowhere;
use crate::relay::{Manner, pass_packets};
use crate::summary::RecordingSummary;
use fast_io::{ByteInput, ByteOutput};
use fast_lines::{Form, JsonSigns, Signs, TextSigns};
use fast_show::LineWriter;
use fast_template::TemplateSet;
use fast_wire::Level;
use fast_writer::Writer;
use std::alloc::Global;

/// Reads a recording of packets to its end, each packet from undefined entries, and writes the canonical recording: of each
/// packet the canonical bytes of its messages behind their shortest size. It stops at a packet that is refused, of which
/// nothing is written.
///
/// It makes at most `turns` reads of at most 4,096 bytes, of which there may be up to 2^40. What is held is a packet that is
/// not whole with its size, at most 65,544 bytes, and what one read gave. The writer is flushed once before Ok or Packet is
/// answered.
///
/// # Errors
///
/// Packet: a packet is refused, the reader failed, or the reads are used up; the packets before are written. Write: the writer
/// failed. Memory: an allocation was refused. After these two a front is written of what is made of the packets that were
/// read.
pub fn canonicalise_packets<R: ByteInput, W: ByteOutput>(
    alloc: Global,
    set: &TemplateSet,
    level: Level,
    reader: &mut R,
    writer: &mut W,
    turns: u64,
) -> Result<RecordingSummary, RecordingFault>
    requires turns { turns ≤ 2 ^ 40 }
    // at most `turns` reads, what they gave, what was written, and what is answered
    ensures answer { CanonicalisesPackets level set.now turns (told_by R.ByteInput reader.old)
        (told_by R.ByteInput reader.new) (W.taken writer.old) (W.taken writer.new) result }
    ensures write { W.errors writer.new ≡ writes_failed result (W.errors writer.old) }
    ensures flush { FlushesOnce result (W.flushes writer.old) (W.flushes writer.new) }
{
    let mut teller = Nowhere {
        calls: 0,
        flushes: 0,
    };
    let manner = Manner {
        level,
        keep_going: false,
        numbered: false,
    };
    pass_packets(
        alloc,
        set,
        manner,
        Writer::new(alloc),
        reader,
        writer,
        &mut teller,
        turns,
    )
}

/// Reads a recording as `canonicalise_packets` does, and writes nothing: it answers what that would count. Where it keeps
/// going, a packet that is refused is told by a line on the writer of refusals, which is flushed behind it, and the next packet
/// is read; a size that is refused, and a recording that ends inside a packet, are told too, and end the run.
///
/// # Errors
///
/// Packet and Memory, as `canonicalise_packets` has them; where it keeps going, Packet is the reader's failure, or that the
/// reads are used up. Tell: the writer of refusals failed.
pub fn check_packets<R: ByteInput, T: ByteOutput>(
    alloc: Global,
    set: &TemplateSet,
    mode: PacketMode,
    reader: &mut R,
    teller: &mut T,
    turns: u64,
) -> Result<RecordingSummary, RecordingFault>
    requires turns { turns ≤ 2 ^ 40 }
    ensures answer { ChecksPackets mode set.now turns (told_by R.ByteInput reader.old)
        (told_by R.ByteInput reader.new) (T.taken teller.old) (T.taken teller.new) result }
    ensures writes { result ≢ Err RecordingFault.Write }
    ensures tell { T.errors teller.new ≡ tells_failed result (T.errors teller.old) }
    // where no packet is refused the teller is not called
    ensures untold { IfOk result (λ s. s.refused ≡ 0 → teller.new ≡ teller.old) }
{
    let mut nowhere = Nowhere {
        calls: 0,
        flushes: 0,
    };
    let manner = Manner {
        level: mode.level,
        keep_going: mode.keep_going,
        numbered: false,
    };
    pass_packets(
        alloc,
        set,
        manner,
        Writer::new(alloc),
        reader,
        &mut nowhere,
        teller,
        turns,
    )
}

// Shows a recording by the signs of a form.
fn show_by<S: Signs, R: ByteInput, W: ByteOutput, T: ByteOutput>(
    alloc: Global,
    set: &TemplateSet,
    manner: Manner,
    signs: S,
    reader: &mut R,
    writer: &mut W,
    teller: &mut T,
    turns: u64,
) -> Result<RecordingSummary, RecordingFault>
    requires turns { turns ≤ 2 ^ 40 }
    requires numbered { manner.numbered ≡ is_numbered S.form }
    ensures answer { RecordsBy manner.keep_going manner.level (templates_in set.now) (WritesLines S.form set.now) turns
        (told_by R.ByteInput reader.old) (told_by R.ByteInput reader.new)
        (outputs (W.taken writer.old) (T.taken teller.old)) (outputs (W.taken writer.new) (T.taken teller.new)) result }
    ensures write { W.errors writer.new ≡ writes_failed result (W.errors writer.old) }
    ensures tell { T.errors teller.new ≡ tells_failed result (T.errors teller.old) }
    // where no packet is refused the teller is not called
    ensures untold { IfOk result (λ s. s.refused ≡ 0 → teller.new ≡ teller.old) }
    ensures flush { FlushesOnce result (W.flushes writer.old) (W.flushes writer.new) }
{
    let output = LineWriter::new(alloc, signs, set);
    pass_packets(alloc, set, manner, output, reader, writer, teller, turns)
}

/// Reads a recording of packets to its end, each packet from undefined entries, and writes the line of each message in a
/// form; a line of JSON says its packet first. Of a packet that is refused it writes the lines of the messages before its
/// fault. Where it keeps going, refused packets are told as `check_packets` tells them.
///
/// # Errors
///
/// As `canonicalise_packets` and `check_packets` have them.
pub fn show_packets<R: ByteInput, W: ByteOutput, T: ByteOutput>(
    alloc: Global,
    set: &TemplateSet,
    mode: PacketMode,
    form: Form,
    reader: &mut R,
    writer: &mut W,
    teller: &mut T,
    turns: u64,
) -> Result<RecordingSummary, RecordingFault>
    requires turns { turns ≤ 2 ^ 40 }
    ensures answer { ShowsPackets mode form set.now turns (told_by R.ByteInput reader.old)
        (told_by R.ByteInput reader.new) (outputs (W.taken writer.old) (T.taken teller.old))
        (outputs (W.taken writer.new) (T.taken teller.new)) result }
    ensures write { W.errors writer.new ≡ writes_failed result (W.errors writer.old) }
    ensures tell { T.errors teller.new ≡ tells_failed result (T.errors teller.old) }
    // where no packet is refused the teller is not called
    ensures untold { IfOk result (λ s. s.refused ≡ 0 → teller.new ≡ teller.old) }
    ensures flush { FlushesOnce result (W.flushes writer.old) (W.flushes writer.new) }
{
    let manner = Manner {
        level: mode.level,
        keep_going: mode.keep_going,
        numbered: form == Form::Json,
    };
    match form {
        Form::Text => show_by(alloc, set, manner, TextSigns, reader, writer, teller, turns),
        Form::Json => show_by(alloc, set, manner, JsonSigns, reader, writer, teller, turns),
    }
}
