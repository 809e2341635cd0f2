//! The functions that C calls with a handle of a writer, which is lent to one call at a time.

ghost use Rattle.std.specs.Prelude.{◌≡◌, ℕ, None, Option};
ghost use Rattle.fast_slices.specs.Answers.{answer_of};
ghost use Rattle.fast_slices.specs.Calls.{Done};
ghost use Rattle.fast_untape.specs.declared.writer.Put.{Put as PutOf};
ghost use Rattle.fast_c.specs.Reading.{status_done as status_done_lem};
ghost use Rattle.fast_c.specs.Sets.{WithKept};
ghost use Rattle.fast_c.specs.Writing.{BeginsAnew, HeldWriter, KeepsWriter, PutsAll, TakesBytes, bytes_told as bytes_told_lem, put_counts as put_counts_lem, put_told as put_told_lem, status_bytes as status_bytes_lem};

use crate::counts::NodeCounts;
use crate::readers::status_done;
use crate::writers::{
    begin_anew_held, bytes_told, keep_writer, put_counts, put_held, put_told, status_bytes,
    take_bytes_held,
};
use fast_kept::Handle;
use fast_slices::{Answer, answer_of};
use fast_tape::TapeNode;
use std::alloc::Global;

/// Puts a writer of the templates of a handle behind another one, in place of what that has, and answers the status.
#[unsafe(no_mangle)]
pub extern "C" fn fastcat_writer_new(alloc: Global, set: &mut Handle, writer: &mut Handle) -> u32
    ensures answer { (done : Done) × WithKept (KeepsWriter writer.old.value writer.new.value)
        (writer.new.value ≡ writer.old.value) set.old.value done × (result ≡ (answer_of done).status) }
    ensures same { set.new.value ≡ set.old.value }
{
    let held = set.take(alloc);
    let answer = answer_of(keep_writer(alloc, &held, writer));
    set.put(alloc, held);
    answer.status
}

/// Writes the messages that nodes are, until one is refused, says what was put and what waits, and answers the status.
#[unsafe(no_mangle)]
pub extern "C" fn fastcat_writer_put(
    alloc: Global,
    writer: &mut Handle,
    nodes: &[TapeNode],
    bytes: &[u8],
    waiting: &mut NodeCounts,
    answer: &mut Answer,
) -> u32
    ensures { (done : Option PutOf) × HeldWriter (PutsAll nodes.now bytes.now) (Unit {0}) writer.old.value writer.new.value done
        × (waiting.new ≡ put_counts_lem done writer.new.value) × (answer.new ≡ answer_of (put_told_lem nodes.now done))
        × (result ≡ answer.new.status) }
{
    let mut held = writer.take(alloc);
    let done = put_held(&mut held, nodes, bytes);
    *waiting = put_counts(&done, &mut held);
    writer.put(alloc, held);
    *answer = answer_of(put_told(nodes, &done));
    answer.status
}

/// Puts the bytes that wait into the front of a room, says how many they are, and answers the status.
#[unsafe(no_mangle)]
pub extern "C" fn fastcat_writer_take(
    alloc: Global,
    writer: &mut Handle,
    room: &mut [u8],
    taken: &mut NodeCounts,
) -> u32
    ensures { (done : Option (Option ℕ)) × HeldWriter (TakesBytes room.old room.new) (room.new ≡ room.old)
        writer.old.value writer.new.value done × (taken.new ≡ bytes_told_lem done writer.new.value)
        × (result ≡ status_bytes_lem done) }
{
    let mut held = writer.take(alloc);
    let done = take_bytes_held(&mut held, room);
    *taken = bytes_told(&done, &mut held);
    writer.put(alloc, held);
    status_bytes(&done)
}

/// Begins a new stream, and answers the status.
#[unsafe(no_mangle)]
pub extern "C" fn fastcat_writer_reset(alloc: Global, writer: &mut Handle) -> u32
    ensures { (done : Option (Unit {0})) × HeldWriter BeginsAnew (Unit {0}) writer.old.value writer.new.value done
        × (result ≡ status_done_lem done) }
{
    let mut held = writer.take(alloc);
    let done = begin_anew_held(&mut held);
    writer.put(alloc, held);
    status_done(&done)
}

/// Empties a handle.
#[unsafe(no_mangle)]
pub extern "C" fn fastcat_writer_free(alloc: Global, writer: &mut Handle)
    ensures { writer.new.value ≡ None }
{
    writer.put(alloc, None);
}
