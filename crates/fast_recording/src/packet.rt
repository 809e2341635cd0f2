//! One packet on its way through an output.

ghost use Rattle.std.specs.Prelude.{◌≡◌, ◌≢◌, ◌≤◌, ◌^◌, ℕ, List, Option, OnOk, length};
ghost use Rattle.fast_template.specs.TemplateSets.{IsSound, templates_in};
ghost use Rattle.fast_pass.specs.Relays.{IsOfBytes, Relays, Way, errors_behind};
ghost use Rattle.fast_machine.specs.Calls.{IsSameStream};
ghost use Rattle.fast_recording.specs.PacketLines.{lines_of};
ghost use Rattle.fast_recording.specs.Packets.{FoundBehind, LeavesPacket, PutsPacket, ReadsPacket, Rests, TakesPacket};

use crate::handing::{hand_on, take_in};
use crate::nowhere::Nowhere;
use crate::output::PacketOutput;
use crate::packet_lines::PacketLines;
use fast_dictionary::Entries;
use fast_io::ByteOutput;
use fast_machine::{Machine, Reached};
use fast_pass::{Stop, hand_on as hand_on_plainly};
use fast_stream::{Cause, Fault, Framing};
use fast_wire::write_unsigned;
use std::alloc::Global;

/// What came of a packet: how many messages, its fault where it is refused, and how many bytes were written.
#[derive(Clone, Copy)]
pub struct Taken {
    pub messages: u64,
    pub fault: Option<Fault>,
    pub written: u64,
}

// Reads the bytes of a packet from undefined entries, as far as they go.
fn read_packet<O: PacketOutput, W: ByteOutput, E: Entries>(
    machine: &mut Machine<'_, O, E>,
    alloc: Global,
    bytes: &[u8],
    lines: &mut PacketLines,
    writer: &mut W,
) -> Result<Reached, Stop>
    requires few { length bytes.now ≤ 2 ^ 20 }
    requires rests { Rests O.waiting machine.now }
    ensures reads { (turns : ℕ) (left : Option (List ℕ))
        → ReadsPacket O.sized O.waiting O.makes result lines.old lines.new machine.new turns left
        (W.taken writer.old) (W.taken writer.new) bytes.now }
    ensures failed { W.errors writer.new ≡ errors_behind result (W.errors writer.old) }
    ensures flushes { W.flushes writer.new ≡ W.flushes writer.old }
    ensures same { IsSameStream machine.old machine.new }
{
    machine.reset();
    if machine.receiver.is_sized() {
        // (what is made of them waits for its size)
        return match machine.feed(bytes) {
            Ok(()) => Ok(Reached::Open),
            Err(fault) => Ok(Reached::Fault(fault)),
        };
    }
    take_in(machine, alloc, bytes, lines, writer)
}

// Writes what waits of an accepted packet, its size first where it has one.
fn put_packet<O: PacketOutput, W: ByteOutput, E: Entries>(
    machine: &mut Machine<'_, O, E>,
    alloc: Global,
    size: &mut Vec<u8>,
    lines: &mut PacketLines,
    writer: &mut W,
) -> Result<(), Stop>
    ensures puts { PutsPacket O.sized O.waiting result lines.old lines.new machine.old machine.new
        (W.taken writer.old) (W.taken writer.new) }
    ensures failed { W.errors writer.new ≡ errors_behind result (W.errors writer.old) }
    ensures flushes { W.flushes writer.new ≡ W.flushes writer.old }
    ensures same { IsSameStream machine.old machine.new }
{
    if !machine.receiver.is_sized() {
        return hand_on(machine, alloc, lines, writer);
    }
    size.clear();
    match write_unsigned(machine.receiver.finished().len() as u128, size) {
        Err(_) => return Err(Stop::Memory),
        Ok(()) => {}
    }
    match lines.push_all(writer, size) {
        Err(_) => return Err(Stop::Write),
        Ok(()) => {}
    }
    hand_on(machine, alloc, lines, writer)
}

// Writes what waits of a refused packet, or drops it where it would have a size.
fn leave_packet<O: PacketOutput, W: ByteOutput, E: Entries>(
    machine: &mut Machine<'_, O, E>,
    alloc: Global,
    lines: &mut PacketLines,
    writer: &mut W,
) -> Result<(), Stop>
    ensures leaves { LeavesPacket O.sized O.waiting result lines.old lines.new machine.old machine.new
        (W.taken writer.old) (W.taken writer.new) }
    ensures failed { W.errors writer.new ≡ errors_behind result (W.errors writer.old) }
    ensures flushes { W.flushes writer.new ≡ W.flushes writer.old }
    ensures same { IsSameStream machine.old machine.new }
{
    if machine.receiver.is_sized() {
        let mut nowhere = Nowhere {
            calls: 0,
            flushes: 0,
        };
        return match hand_on_plainly(machine, alloc, &mut nowhere) {
            Err(_) => Err(Stop::Memory),
            Ok(_) => Ok(()),
        };
    }
    hand_on(machine, alloc, lines, writer)
}

// Why a packet is refused whose bytes were read as far as this; none where they are messages, and all of them.
fn fault_behind<O: PacketOutput, E: Entries>(
    machine: &mut Machine<'_, O, E>,
    came: Reached,
    cut: Option<Cause>,
) -> Option<Fault>
    requires open { came ≢ Reached.End }
    ensures found { (turns : ℕ) (left : Option (List ℕ)) (way : Way)
        → Relays O.waiting O.makes came machine.old turns left way → IsOfBytes came
        → IsSound machine.old.traversal.set.now → machine.old.framing ≡ Framing.Plain
        → FoundBehind O.waiting O.makes machine.old.traversal.level (templates_in machine.old.traversal.set.now) cut way
        result machine.new }
    ensures same { IsSameStream machine.old machine.new }
{
    if let Reached::Fault(fault) = came {
        return Some(fault);
    }
    if let Some(cause) = cut {
        return Some(machine.cut(cause));
    }
    match machine.finish() {
        Ok(()) => None,
        Err(fault) => Some(Fault {
            cause: Cause::BlockEnd,
            ..fault
        }),
    }
}

/// Reads a packet, or what has come of one of which no more comes for a cause, and writes what is made of it: with its
/// number in each line, or as it is.
pub fn take_packet<O: PacketOutput, W: ByteOutput, E: Entries>(
    machine: &mut Machine<'_, O, E>,
    alloc: Global,
    bytes: &[u8],
    cut: Option<Cause>,
    number: Option<u64>,
    size: &mut Vec<u8>,
    lines: &mut PacketLines,
    writer: &mut W,
) -> Result<Taken, Stop>
    requires few { length bytes.now ≤ 2 ^ 20 }
    requires rests { Rests O.waiting machine.now }
    requires plain { machine.now.framing ≡ Framing.Plain }
    requires sound { IsSound machine.now.traversal.set.now }
    ensures takes { TakesPacket (lines_of number) O.sized O.makes machine.old.traversal.level
        (templates_in machine.old.traversal.set.now) (W.taken writer.old) (W.taken writer.new) bytes.now cut result }
    ensures rests { OnOk result (Rests O.waiting machine.new) }
    ensures failed { W.errors writer.new ≡ errors_behind result (W.errors writer.old) }
    ensures flushes { W.flushes writer.new ≡ W.flushes writer.old }
    ensures same { IsSameStream machine.old machine.new }
{
    match lines.begin(number) {
        Err(_) => return Err(Stop::Memory),
        Ok(()) => {}
    }
    let came = read_packet(machine, alloc, bytes, lines, writer)?;
    match fault_behind(machine, came, cut) {
        None => {
            let messages = machine.messages();
            put_packet(machine, alloc, size, lines, writer)?;
            Ok(Taken {
                messages,
                fault: None,
                written: lines.written,
            })
        }
        Some(fault) => {
            if let Cause::Memory = fault.cause {
                return Err(Stop::Memory);
            }
            leave_packet(machine, alloc, lines, writer)?;
            Ok(Taken {
                messages: fault.place.message.saturating_sub(1),
                fault: Some(fault),
                written: lines.written,
            })
        }
    }
}
