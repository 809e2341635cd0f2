//! Streams on their way through an output: what it makes of the messages of one is handed on.

ghost use Rattle.std.specs.Prelude.{◌≡◌, ◌≢◌, ◌≤◌, ◌<◌, ◌+◌, ◌∷◌, ◌^◌, [], ℕ, List, Option, OnOk, Err, None, length};
ghost use Rattle.std.specs.FinMap as finite;
ghost use Rattle.fast_template.specs.TemplateSets.{IsSound, templates_in};
ghost use Rattle.fast_walk.specs.Received.{handed_on};
ghost use Rattle.fast_machine.specs.Inputs.{IsCaused, Reads, told_by};
ghost use Rattle.fast_machine.specs.declared.reached.Reached.TheVariants as reached;
ghost use Rattle.fast_pass.specs.Passed.{FlushesOnce, PassesBy, errors_after};
ghost use Rattle.fast_pass.specs.Relays.{Goes, Hands, IsOfBytes, IsWhose, Relays, StandsStill, answer_of, errors_behind, outset};
ghost use Rattle.fast_machine.specs.Calls.{IsSameStream};
ghost use Rattle.fast_machine.specs.Following.{mode_of};

use crate::fault::CanonFault;
use crate::stop::Stop;
use crate::summary::Summary;
use fast_dictionary::{Entries, SlotEntries};
use fast_io::{ByteInput, ByteOutput, Failed, push_all};
use fast_machine::{Machine, Reached};
use fast_stream::{Cause, Fault, Mode};
use fast_template::TemplateSet;
use fast_walk::Output;
use std::alloc::Global;

/// The most bytes that one read takes.
const CHUNK: usize = 4096;

/// Hands on the bytes that wait, front by front, and answers how many they are.
pub fn hand_on<O: Output, W: ByteOutput, E: Entries>(
    machine: &mut Machine<'_, O, E>,
    alloc: Global,
    writer: &mut W,
) -> Result<u64, Stop>
    ensures hands { Hands O.waiting O.makes result machine.old machine.new (W.taken writer.old) (W.taken writer.new) }
    ensures empty { OnOk result (O.waiting machine.new.receiver ≡ []) }
    ensures failed { W.errors writer.new ≡ errors_behind result (W.errors writer.old) }
    ensures flushes { W.flushes writer.new ≡ W.flushes writer.old }
    ensures still { StandsStill machine.old machine.new }
{
    let mut count = 0u64;
    let mut more = true;
    'fronts: while more {
        let front = machine.receiver.finished();
        match push_all(writer, front) {
            Err(_) => return Err(Stop::Write),
            Ok(()) => count = count.saturating_add(front.len() as u64),
        }
        match machine.receiver.hand_on(alloc) {
            Err(_) => return Err(Stop::Memory),
            Ok(waits) => more = waits,
        }
    }
    Ok(count)
}

/// Hands on the bytes that wait where many are ready, and answers how many were handed on.
#[inline(always)]
fn hand_on_many<O: Output, W: ByteOutput, E: Entries>(
    machine: &mut Machine<'_, O, E>,
    alloc: Global,
    writer: &mut W,
) -> Result<u64, Stop>
    ensures hands { Hands O.waiting O.makes result machine.old machine.new (W.taken writer.old) (W.taken writer.new) }
    ensures failed { W.errors writer.new ≡ errors_behind result (W.errors writer.old) }
    ensures flushes { W.flushes writer.new ≡ W.flushes writer.old }
    ensures still { StandsStill machine.old machine.new }
{
    if !machine.receiver.is_full() {
        return Ok(0);
    }
    hand_on(machine, alloc, writer)
}

/// Takes the bytes of one read, message by message, and hands on what is made of them wherever it is many bytes;
/// answers how far the stream came, and how many bytes were handed on.
pub fn take_in<O: Output, W: ByteOutput, E: Entries>(
    machine: &mut Machine<'_, O, E>,
    alloc: Global,
    bytes: &[u8],
    writer: &mut W,
) -> Result<(Reached, u64), Stop>
    requires fault { machine.now.fault ≡ None }
    requires room { machine.now.fed + length bytes.now ≤ 2 ^ 60 }
    ensures takes { (left later : Option (List ℕ)) → Goes O.waiting O.makes result machine.old machine.new left later
        (W.taken writer.old) (W.taken writer.new) bytes.now IsOfBytes }
    ensures failed { W.errors writer.new ≡ errors_behind result (W.errors writer.old) }
    ensures flushes { W.flushes writer.new ≡ W.flushes writer.old }
    ensures same { IsSameStream machine.old machine.new }
{
    let mut at = 0;
    let mut written = 0u64;
    'messages: while at < bytes.len() {
        match machine.feed_messages(&bytes[at..]) {
            Err(fault) => return Ok((Reached::Fault(fault), written)),
            Ok(taken) => at += taken,
        }
        written = written.saturating_add(hand_on_many(machine, alloc, writer)?);
    }
    Ok((Reached::Open, written))
}

/// Makes one read, and takes what it gave; answers how far the stream came, and how many bytes were handed on.
fn read_on<O: Output, R: ByteInput, W: ByteOutput, E: Entries>(
    machine: &mut Machine<'_, O, E>,
    alloc: Global,
    reader: &mut R,
    writer: &mut W,
    chunk: &mut [u8; CHUNK],
) -> Result<(Reached, u64), Stop>
    requires fault { machine.now.fault ≡ None }
    requires room { machine.now.fed + CHUNK ≤ 2 ^ 60 }
    ensures read { (got : List ℕ)
        × Reads (told_by R.ByteInput reader.old) (told_by R.ByteInput reader.new) 1 got
        × Goes O.waiting O.makes result machine.old machine.new (R.left reader.old) (R.left reader.new)
        (W.taken writer.old) (W.taken writer.new) got
        (λ at. (at ≡ reached.Open → 0 < length got)
        × IsCaused at ⊥ (told_by R.ByteInput reader.old) (told_by R.ByteInput reader.new)) }
    // a read that failed is answered as Read, and never as want of memory
    ensures unread { result ≡ Err Stop.Memory → R.errors reader.new ≡ R.errors reader.old }
    ensures failed { W.errors writer.new ≡ errors_behind result (W.errors writer.old) }
    ensures flushes { W.flushes writer.new ≡ W.flushes writer.old }
    ensures same { IsSameStream machine.old machine.new }
{
    match reader.pull(chunk) {
        Ok(0) => match machine.finish() {
            Ok(()) => Ok((Reached::End, 0)),
            Err(fault) => Ok((Reached::Fault(fault), 0)),
        },
        Ok(count) => take_in(machine, alloc, &chunk[..count], writer),
        Err(Failed) => Ok((Reached::Fault(machine.cut(Cause::Read)), 0)),
    }
}

/// Reads to the end, the first fault or the last of the reads, and hands on what is made of each chunk; answers the
/// fault, if it is one, and how many bytes were handed on.
fn relay<O: Output, R: ByteInput, W: ByteOutput, E: Entries>(
    machine: &mut Machine<'_, O, E>,
    alloc: Global,
    reader: &mut R,
    writer: &mut W,
    turns: u64,
) -> Result<(Option<Fault>, u64), Stop>
    requires turns { turns ≤ 2 ^ 40 }
    requires empty { O.waiting machine.now.receiver ≡ [] }
    requires relays { Relays O.waiting O.makes reached.Open machine.now turns (R.left reader.now) outset }
    ensures answer { PassesBy O.makes (mode_of machine.old) (templates_in machine.old.traversal.set.now) turns
        (told_by R.ByteInput reader.old) (told_by R.ByteInput reader.new) (W.taken writer.old) (W.taken writer.new)
        (answer_of result machine.new) }
    ensures failed { W.errors writer.new ≡ errors_behind result (W.errors writer.old) }
    ensures flushes { W.flushes writer.new ≡ W.flushes writer.old }
{
    let mut reads = 0;
    let mut written = 0u64;
    // (one for all reads, since to make one anew is to fill it)
    let mut chunk = [0u8; CHUNK];
    'reads: while reads < turns {
        let (came, count) = read_on(machine, alloc, reader, writer, &mut chunk)?;
        written = written.saturating_add(count);
        reads += 1;
        written = written.saturating_add(hand_on(machine, alloc, writer)?);
        match came {
            Reached::Open => {}
            Reached::End => return Ok((None, written)),
            Reached::Fault(fault) => return Ok((Some(fault), written)),
        }
    }
    Ok((Some(machine.cut(Cause::Turns)), written))
}

/// Passes a stream through a machine that has read nothing, to its end, the first fault or the last of the reads, and
/// flushes the writer where the relay went that far.
fn pass_by<O: Output, R: ByteInput, W: ByteOutput, E: Entries>(
    machine: &mut Machine<'_, O, E>,
    alloc: Global,
    reader: &mut R,
    writer: &mut W,
    turns: u64,
) -> Result<Summary, CanonFault>
    requires turns { turns ≤ 2 ^ 40 }
    requires empty { O.waiting machine.now.receiver ≡ [] }
    requires relays { Relays O.waiting O.makes reached.Open machine.now turns (R.left reader.now) outset }
    ensures answer { PassesBy O.makes (mode_of machine.old) (templates_in machine.old.traversal.set.now) turns
        (told_by R.ByteInput reader.old) (told_by R.ByteInput reader.new) (W.taken writer.old) (W.taken writer.new) result }
    ensures write { W.errors writer.new ≡ errors_after result (W.errors writer.old) }
    ensures flush { FlushesOnce result (W.flushes writer.old) (W.flushes writer.new) }
    ensures whose { IsWhose result machine.new (W.flushes writer.old) (W.flushes writer.new) }
{
    match relay(machine, alloc, reader, writer, turns) {
        Err(Stop::Write) => Err(CanonFault::Write),
        Err(Stop::Memory) => Err(CanonFault::Memory),
        Ok((fault, written)) => match writer.flush() {
            Err(_) => Err(CanonFault::Write),
            Ok(()) => match fault {
                Some(fault) => {
                    if machine.receiver_refused() {
                        return Err(CanonFault::Memory);
                    }
                    Err(CanonFault::Stream(fault))
                }
                None => Ok(Summary {
                    messages: machine.messages(),
                    read: machine.fed(),
                    written,
                }),
            },
        },
    }
}

/// Reads a stream of messages of a template set to its end, from undefined entries, and hands on what an output makes
/// of them: after each read, and wherever 65,536 bytes or more wait between two messages.
///
/// It makes at most `turns` reads of at most 4,096 bytes, of which there may be up to 2^40. The writer is flushed once
/// before Ok or Stream is answered.
///
/// # Errors
///
/// Stream: the bytes read are refused, the reader failed, the reads are used up, or memory was refused that reading
/// asked for; what is made of the messages before is written. Write: the writer failed. Memory: the entries or the
/// output were refused memory. After these two a front is written of what is made of messages that were read.
pub fn pass_through<O: Output, R: ByteInput, W: ByteOutput>(
    alloc: Global,
    set: &TemplateSet,
    mode: Mode,
    output: O,
    reader: &mut R,
    writer: &mut W,
    turns: u64,
) -> Result<Summary, CanonFault>
    requires turns { turns ≤ 2 ^ 40 }
    // the output has no message of the set yet, and nothing waits in it
    requires begins { O.stands output (templates_in set.now) (handed_on [] ∷ []) finite.empty }
    requires empty { O.waiting output ≡ [] }
    ensures answer { PassesBy O.makes mode (templates_in set.now) turns
        (told_by R.ByteInput reader.old) (told_by R.ByteInput reader.new) (W.taken writer.old) (W.taken writer.new) result }
    ensures write { W.errors writer.new ≡ errors_after result (W.errors writer.old) }
    ensures flush { FlushesOnce result (W.flushes writer.old) (W.flushes writer.new) }
    ensures sound { result ≢ Err CanonFault.Memory → IsSound set.now }
{
    let entries = match SlotEntries::new(alloc, set) {
        Err(_) => return Err(CanonFault::Memory),
        Ok(entries) => entries,
    };
    let mut machine = Machine::new(alloc, set, mode, output, entries);
    // (the machine is let go in one place)
    pass_by(&mut machine, alloc, reader, writer, turns)
}
