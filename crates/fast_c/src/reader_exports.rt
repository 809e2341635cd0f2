//! The functions that C calls with a handle of a reader, which is lent to one call at a time.

ghost use Rattle.std.specs.Prelude.{◌≡◌, ℕ, None, Option, Result};
ghost use Rattle.fast_slices.specs.Answers.{answer_of};
ghost use Rattle.fast_slices.specs.Calls.{Done};
ghost use Rattle.fast_tape.specs.declared.builder.Taken.{Taken as TakenOf};
ghost use Rattle.fast_tape.specs.declared.fault.TapeFault.{TapeFault as FaultOf};
ghost use Rattle.fast_c.specs.Reading.{Feeds, Finishes, HeldReader, KeepsReader, ReadsPacket, Resets, Takes, status_done as status_done_lem, status_taken as status_taken_lem, taken_told as taken_told_lem, told as told_lem, used_of as used_of_lem, waiting_in as waiting_in_lem};
ghost use Rattle.fast_c.specs.Sets.{WithKept};

use crate::counts::NodeCounts;
use crate::readers::{
    ended, feed_held, finish_held, keep_reader, read_packet_held, reset_held, status_done,
    status_taken, take_held, taken_told, told, used_of, waiting_in,
};
use fast_kept::Handle;
use fast_slices::{Answer, answer_of};
use fast_tape::TapeNode;
use std::alloc::Global;

/// Puts a reader of the templates of a handle behind another one, in place of what that has, and answers the status.
#[unsafe(no_mangle)]
pub extern "C" fn fastcat_reader_new(
    alloc: Global,
    set: &mut Handle,
    mode: u32,
    most_bytes: u64,
    reader: &mut Handle,
) -> u32
    ensures answer { (done : Done) × WithKept (KeepsReader mode most_bytes reader.old.value reader.new.value)
        (reader.new.value ≡ reader.old.value) set.old.value done × (result ≡ (answer_of done).status) }
    ensures same { set.new.value ≡ set.old.value }
{
    let held = set.take(alloc);
    let answer = answer_of(keep_reader(alloc, &held, mode, most_bytes, reader));
    set.put(alloc, held);
    answer.status
}

/// Takes bytes from the front of a chunk, says what waits, and answers the status.
#[unsafe(no_mangle)]
pub extern "C" fn fastcat_reader_feed(
    alloc: Global,
    reader: &mut Handle,
    chunk: &[u8],
    waiting: &mut NodeCounts,
    answer: &mut Answer,
) -> u32
    ensures { (done : Option (Result ℕ FaultOf)) × HeldReader (Feeds chunk.now) (Unit {0}) reader.old.value reader.new.value done
        × (waiting.new ≡ waiting_in_lem (used_of_lem done) reader.new.value) × (answer.new ≡ answer_of (told_lem done))
        × (result ≡ answer.new.status) }
{
    let mut held = reader.take(alloc);
    let done = feed_held(&mut held, chunk);
    *waiting = waiting_in(used_of(&done), &mut held);
    reader.put(alloc, held);
    *answer = answer_of(told(&done));
    answer.status
}

/// Reads a packet, which is a stream of its own, says what waits, and answers the status.
#[unsafe(no_mangle)]
pub extern "C" fn fastcat_reader_packet(
    alloc: Global,
    reader: &mut Handle,
    packet: &[u8],
    waiting: &mut NodeCounts,
    answer: &mut Answer,
) -> u32
    ensures { (done : Option (Result ℕ FaultOf)) × HeldReader (ReadsPacket packet.now) (Unit {0}) reader.old.value reader.new.value
        done × (waiting.new ≡ waiting_in_lem (used_of_lem done) reader.new.value) × (answer.new ≡ answer_of (told_lem done))
        × (result ≡ answer.new.status) }
{
    let mut held = reader.take(alloc);
    let done = read_packet_held(&mut held, packet);
    *waiting = waiting_in(used_of(&done), &mut held);
    reader.put(alloc, held);
    *answer = answer_of(told(&done));
    answer.status
}

/// Puts the messages that wait into the fronts of two rooms, says how many they are, and answers the status.
#[unsafe(no_mangle)]
pub extern "C" fn fastcat_reader_take(
    alloc: Global,
    reader: &mut Handle,
    nodes: &mut [TapeNode],
    bytes: &mut [u8],
    taken: &mut NodeCounts,
) -> u32
    ensures { (done : Option (Option TakenOf)) × HeldReader (Takes nodes.old nodes.new bytes.old bytes.new)
        ((nodes.new ≡ nodes.old) × (bytes.new ≡ bytes.old)) reader.old.value reader.new.value done
        × (taken.new ≡ taken_told_lem done reader.new.value) × (result ≡ status_taken_lem done) }
{
    let mut held = reader.take(alloc);
    let done = take_held(&mut held, nodes, bytes);
    *taken = taken_told(&done, &mut held);
    reader.put(alloc, held);
    status_taken(&done)
}

/// Ends the stream, and answers the status.
#[unsafe(no_mangle)]
pub extern "C" fn fastcat_reader_finish(
    alloc: Global,
    reader: &mut Handle,
    answer: &mut Answer,
) -> u32
    ensures { (done : Option (Result (Unit {0}) FaultOf)) × HeldReader Finishes (Unit {0}) reader.old.value reader.new.value done
        × (answer.new ≡ answer_of (told_lem done)) × (result ≡ answer.new.status) }
{
    let mut held = reader.take(alloc);
    let done = finish_held(&mut held);
    reader.put(alloc, held);
    *answer = answer_of(ended(&done));
    answer.status
}

/// Begins a new stream, and answers the status.
#[unsafe(no_mangle)]
pub extern "C" fn fastcat_reader_reset(alloc: Global, reader: &mut Handle) -> u32
    ensures { (done : Option (Unit {0})) × HeldReader Resets (Unit {0}) reader.old.value reader.new.value done
        × (result ≡ status_done_lem done) }
{
    let mut held = reader.take(alloc);
    let done = reset_held(&mut held);
    reader.put(alloc, held);
    status_done(&done)
}

/// Empties a handle.
#[unsafe(no_mangle)]
pub extern "C" fn fastcat_reader_free(alloc: Global, reader: &mut Handle)
    ensures { reader.new.value ≡ None }
{
    reader.put(alloc, None);
}
