//! What an output makes of a packet is handed on in lines.

ghost use Rattle.std.specs.Prelude.{◌≡◌, ◌≤◌, ◌+◌, ◌^◌, [], List, Option, OnOk, None, length, ℕ};
ghost use Rattle.fast_pass.specs.Relays.{IsOfBytes, StandsStill, errors_behind};
ghost use Rattle.fast_machine.specs.Calls.{IsSameStream};
ghost use Rattle.fast_recording.specs.Handing.{GoesInLines, HandsLines};

use crate::packet_lines::PacketLines;
use fast_dictionary::Entries;
use fast_io::ByteOutput;
use fast_machine::{Machine, Reached};
use fast_pass::Stop;
use fast_walk::Output;
use std::alloc::Global;

/// Hands on the bytes that wait, front by front, as lines of a packet.
pub(crate) fn hand_on<O: Output, W: ByteOutput, E: Entries>(
    machine: &mut Machine<'_, O, E>,
    alloc: Global,
    lines: &mut PacketLines,
    writer: &mut W,
) -> Result<(), Stop>
    ensures hands { HandsLines O.waiting O.makes result lines.old lines.new machine.old machine.new
        (W.taken writer.old) (W.taken writer.new) }
    ensures empty { OnOk result (O.waiting machine.new.receiver ≡ []) }
    ensures failed { W.errors writer.new ≡ errors_behind result (W.errors writer.old) }
    ensures flushes { W.flushes writer.new ≡ W.flushes writer.old }
    ensures still { StandsStill machine.old machine.new }
{
    let mut more = true;
    'fronts: while more {
        match lines.push_all(writer, machine.receiver.finished()) {
            Err(_) => return Err(Stop::Write),
            Ok(()) => {}
        }
        match machine.receiver.hand_on(alloc) {
            Err(_) => return Err(Stop::Memory),
            Ok(waits) => more = waits,
        }
    }
    Ok(())
}

/// Hands on the bytes that wait where many are ready.
#[inline(always)]
fn hand_on_many<O: Output, W: ByteOutput, E: Entries>(
    machine: &mut Machine<'_, O, E>,
    alloc: Global,
    lines: &mut PacketLines,
    writer: &mut W,
) -> Result<(), Stop>
    ensures hands { HandsLines O.waiting O.makes result lines.old lines.new machine.old machine.new
        (W.taken writer.old) (W.taken writer.new) }
    ensures failed { W.errors writer.new ≡ errors_behind result (W.errors writer.old) }
    ensures flushes { W.flushes writer.new ≡ W.flushes writer.old }
    ensures still { StandsStill machine.old machine.new }
{
    if !machine.receiver.is_full() {
        return Ok(());
    }
    hand_on(machine, alloc, lines, writer)
}

/// Takes bytes of a packet, message by message, and hands on what is made of them wherever it is many bytes; answers how
/// far the stream came.
pub(crate) fn take_in<O: Output, W: ByteOutput, E: Entries>(
    machine: &mut Machine<'_, O, E>,
    alloc: Global,
    bytes: &[u8],
    lines: &mut PacketLines,
    writer: &mut W,
) -> Result<Reached, Stop>
    requires fault { machine.now.fault ≡ None }
    requires room { machine.now.fed + length bytes.now ≤ 2 ^ 60 }
    ensures takes { (left later : Option (List ℕ)) → GoesInLines O.waiting O.makes result lines.old lines.new
        machine.old machine.new left later (W.taken writer.old) (W.taken writer.new) bytes.now IsOfBytes }
    ensures failed { W.errors writer.new ≡ errors_behind result (W.errors writer.old) }
    ensures flushes { W.flushes writer.new ≡ W.flushes writer.old }
    ensures same { IsSameStream machine.old machine.new }
{
    let mut at = 0;
    'messages: while at < bytes.len() {
        match machine.feed_messages(&bytes[at..]) {
            Err(fault) => return Ok(Reached::Fault(fault)),
            Ok(taken) => at += taken,
        }
        hand_on_many(machine, alloc, lines, writer)?;
    }
    Ok(Reached::Open)
}
