//! Reading messages in a list of bytes, the next one and those behind it.

ghost use Rattle.std.specs.Prelude.{◌≡◌, ◌≢◌, ◌≤◌, ◌<◌, ◌^◌, ◌⊎◌, None, length, drop};
ghost use Rattle.fast_machine.specs.Calls.{LeavesMessage};
ghost use Rattle.fast_machine.specs.Runs.{Forgets, ReadsRun};
ghost use Rattle.fast_walk.specs.Messages.{CanRead};
ghost use Rattle.fast_walk.specs.Traversals.{ServesAll, begun_of};

use fast_dictionary::Entries;
use fast_stream::Cause;
use fast_walk::{Halt, Receiver, Traversal};
use std::alloc::Global;

/// How far reading came: the place, how many messages ended, and why it went no further, where it did not end
/// between two messages.
#[derive(Clone, Copy)]
pub(crate) struct Progress {
    pub(crate) at: usize,
    pub(crate) messages: u64,
    pub(crate) halt: Option<Halt>,
}

// Has a receiver forget what is open, where reading cannot go on.
fn leave<R: Receiver>(alloc: Global, receiver: &mut R, halt: Halt)
    ensures waits { halt.cause ≡ Cause.Truncated → receiver.new ≡ receiver.old }
    ensures left { halt.cause ≢ Cause.Truncated → Forgets R.stands R.keeps receiver.old receiver.new }
{
    match halt.cause {
        Cause::Truncated => {}
        _ => receiver.back(alloc),
    }
}

/// Reads the next message, of which there is something, to its end or as far as these bytes go.
#[inline(always)]
fn read_message<R: Receiver, E: Entries>(
    alloc: Global,
    traversal: &mut Traversal<'_>,
    receiver: &mut R,
    entries: &mut E,
    bytes: &[u8],
) -> Progress
    requires some { (0 < length bytes.now) ⊎ (begun_of traversal.now ≡ 1) }
    requires served { ServesAll (E.serves entries.now) traversal.now.set.now }
    requires can { CanRead R.Receiver E.Entries traversal.now receiver.now entries.now }
    ensures ended { ReadsRun R.has R.stands R.keeps traversal.old receiver.old (E.contents entries.old) bytes.now
        result.messages result.halt traversal.new receiver.new (E.contents entries.new) (drop result.at bytes.now) }
    ensures leaves { LeavesMessage R.Receiver E.Entries traversal.old traversal.new receiver.new entries.old entries.new
        bytes.now result }
    ensures most { result.messages ≤ 1 }
    ensures least { result.halt ≡ None → result.messages ≡ 1 }
{
    traversal.set_is_sound();
    match traversal.message(receiver, entries, bytes, 0) {
        Err((place, halt)) => {
            leave(alloc, receiver, halt);
            Progress {
                at: place,
                messages: 0,
                halt: Some(halt),
            }
        }
        Ok(next) => Progress {
            at: next,
            messages: 1,
            halt: None,
        },
    }
}

/// Reads messages one behind the other, of the first of which there is something, as far as these bytes go, and no further than to
/// the end of one behind which the receiver is full.
#[inline(always)]
pub(crate) fn read_messages<R: Receiver, E: Entries>(
    alloc: Global,
    traversal: &mut Traversal<'_>,
    receiver: &mut R,
    entries: &mut E,
    bytes: &[u8],
) -> Progress
    requires some { (0 < length bytes.now) ⊎ (begun_of traversal.now ≡ 1) }
    requires few { length bytes.now ≤ 2 ^ 61 }
    requires served { ServesAll (E.serves entries.now) traversal.now.set.now }
    requires can { CanRead R.Receiver E.Entries traversal.now receiver.now entries.now }
    ensures ended { ReadsRun R.has R.stands R.keeps traversal.old receiver.old (E.contents entries.old) bytes.now
        result.messages result.halt traversal.new receiver.new (E.contents entries.new) (drop result.at bytes.now) }
    ensures leaves { LeavesMessage R.Receiver E.Entries traversal.old traversal.new receiver.new entries.old entries.new
        bytes.now result }
{
    let mut at = 0;
    let mut messages = 0u64;
    'messages: loop {
        let next = read_message(alloc, traversal, receiver, entries, &bytes[at..]);
        at += next.at;
        messages += next.messages;
        if next.halt.is_some() || at == bytes.len() || receiver.is_full() {
            return Progress {
                at,
                messages,
                halt: next.halt,
            };
        }
    }
}

/// The same where there may be none.
#[inline(always)]
pub(crate) fn read_if_any<R: Receiver, E: Entries>(
    alloc: Global,
    traversal: &mut Traversal<'_>,
    receiver: &mut R,
    entries: &mut E,
    bytes: &[u8],
) -> Progress
    requires few { length bytes.now ≤ 2 ^ 61 }
    requires served { ServesAll (E.serves entries.now) traversal.now.set.now }
    requires can { CanRead R.Receiver E.Entries traversal.now receiver.now entries.now }
    ensures ended { ReadsRun R.has R.stands R.keeps traversal.old receiver.old (E.contents entries.old) bytes.now
        result.messages result.halt traversal.new receiver.new (E.contents entries.new) (drop result.at bytes.now) }
    ensures leaves { LeavesMessage R.Receiver E.Entries traversal.old traversal.new receiver.new entries.old entries.new
        bytes.now result }
{
    traversal.set_is_sound();
    if bytes.is_empty() && !traversal.has_begun() {
        return Progress {
            at: 0,
            messages: 0,
            halt: None,
        };
    }
    read_messages(alloc, traversal, receiver, entries, bytes)
}
