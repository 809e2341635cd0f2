//! What is done with the writer behind a handle.

ghost use Rattle.std.specs.Prelude.{◌≡◌, drop, option_map};
ghost use Rattle.fast_c.specs.Sets.{WithKept};
ghost use Rattle.fast_c.specs.Writing.{BeginsAnew, HeldWriter, KeepsWriter, LentWriter, PutsAll, TakesBytes, bytes_in as bytes_in_lem, bytes_lent as bytes_lent_lem, bytes_told as bytes_told_lem, identifier_at as identifier_at_lem, next_number as next_number_lem, put_counts as put_counts_lem, put_refused as put_refused_lem, put_told as put_told_lem, status_bytes as status_bytes_lem};

use crate::counts::NodeCounts;
use fast_encoder::EncodeCause;
use fast_kept::{Handle, Kept, Lent, Loan, Wanted, set_in};
use fast_slices::{Counts, Refusal, no_counts};
use fast_tape::TapeNode;
use fast_untape::{Put, PutFault};
use std::alloc::Global;

/// What is behind a handle, while a call has it.
type Held = Option<Box<Kept>>;

/// Puts a writer of the set that is held behind a handle, in place of what it has.
pub(crate) fn keep_writer(
    alloc: Global,
    held: &Held,
    writer: &mut Handle,
) -> Result<Counts, Refusal>
    ensures { WithKept (KeepsWriter writer.old.value writer.new.value) (writer.new.value ≡ writer.old.value)
        (option_map (λ b. b.value) held.now) result }
{
    let Some(set) = set_in(held) else {
        return Err(Refusal::Handle);
    };
    let Ok(share) = set.share() else {
        return Err(Refusal::Memory);
    };
    let Ok(made) = Loan::new(alloc, share, &Wanted::Writer) else {
        return Err(Refusal::Memory);
    };
    match writer.keep(alloc, Kept::Lent(made)) {
        Ok(()) => Ok(no_counts()),
        Err(_) => Err(Refusal::Memory),
    }
}

/// Puts the messages that nodes are into a writer; none where there is none.
fn put_lent(lent: &mut Option<Lent<'_>>, nodes: &[TapeNode], bytes: &[u8]) -> Option<Put>
    ensures { LentWriter (PutsAll nodes.now bytes.now) (Unit {0}) lent.old lent.new result }
{
    match lent {
        Some(Lent::Writer(writer)) => Some(writer.put_all(nodes, bytes)),
        Some(Lent::Reader(_)) | None => None,
    }
}

/// Puts the bytes that wait into a room, likewise.
fn take_bytes_lent(lent: &mut Option<Lent<'_>>, room: &mut [u8]) -> Option<Option<usize>>
    ensures { LentWriter (TakesBytes room.old room.new) (room.new ≡ room.old) lent.old lent.new result }
{
    match lent {
        Some(Lent::Writer(writer)) => Some(writer.take(room)),
        Some(Lent::Reader(_)) | None => None,
    }
}

/// Begins a new stream, likewise.
fn begin_anew_lent(lent: &mut Option<Lent<'_>>) -> Option<()>
    ensures { LentWriter BeginsAnew (Unit {0}) lent.old lent.new result }
{
    match lent {
        Some(Lent::Writer(writer)) => {
            writer.reset();
            Some(())
        }
        Some(Lent::Reader(_)) | None => None,
    }
}

/// Puts the messages that nodes are into the writer that is held; none where there is no writer.
pub(crate) fn put_held(held: &mut Held, nodes: &[TapeNode], bytes: &[u8]) -> Option<Put>
    ensures { HeldWriter (PutsAll nodes.now bytes.now) (Unit {0}) (option_map (λ b. b.value) held.old)
        (option_map (λ b. b.value) held.new) result }
{
    match held {
        Some(kept) => match &mut **kept {
            Kept::Lent(loan) => loan.with(
                &mut [],
                &mut [],
                |lent, _, _| put_lent(lent, nodes, bytes),
            ),
            Kept::Set(_) => None,
        },
        None => None,
    }
}

/// Puts the bytes that wait into a room, likewise.
pub(crate) fn take_bytes_held(held: &mut Held, room: &mut [u8]) -> Option<Option<usize>>
    ensures { HeldWriter (TakesBytes room.old room.new) (room.new ≡ room.old) (option_map (λ b. b.value) held.old)
        (option_map (λ b. b.value) held.new) result }
{
    match held {
        Some(kept) => match &mut **kept {
            Kept::Lent(loan) => loan.with(
                &mut [],
                room,
                |lent, _, room| take_bytes_lent(lent, room),
            ),
            Kept::Set(_) => None,
        },
        None => None,
    }
}

/// Begins a new stream, likewise.
pub(crate) fn begin_anew_held(held: &mut Held) -> Option<()>
    ensures { HeldWriter BeginsAnew (Unit {0}) (option_map (λ b. b.value) held.old)
        (option_map (λ b. b.value) held.new) result }
{
    match held {
        Some(kept) => match &mut **kept {
            Kept::Lent(loan) => loan.with(&mut [], &mut [], |lent, _, _| begin_anew_lent(lent)),
            Kept::Set(_) => None,
        },
        None => None,
    }
}

/// The identifier of the template of a message that begins at a place; 0 where none does.
fn identifier_at(nodes: &[TapeNode], at: usize) -> u32
    ensures { result ≡ identifier_at_lem (drop at nodes.now) }
{
    if at >= nodes.len() {
        return 0;
    }
    nodes[at].instruction
}

/// The number of the message behind so many, as far as a number goes.
fn next_number(messages: usize) -> u64
    ensures { result ≡ next_number_lem messages }
{
    if messages < usize::MAX {
        messages as u64 + 1
    } else {
        u64::MAX
    }
}

/// Why a message is not put, as C is told.
fn put_refused(number: u64, template: u32, fault: PutFault) -> Refusal
    ensures { result ≡ put_refused_lem number template fault }
{
    match fault {
        PutFault::NoMessage => Refusal::NoMessage(number),
        PutFault::Refused(fault) => match fault.cause {
            EncodeCause::Memory => Refusal::Memory,
            _ => Refusal::Message(number, template, fault, 0),
        },
    }
}

/// How a call that puts ended.
pub(crate) fn put_told(nodes: &[TapeNode], done: &Option<Put>) -> Result<Counts, Refusal>
    ensures { result ≡ put_told_lem nodes.now done.now }
{
    match done {
        Some(put) => match put.fault {
            None => Ok(Counts {
                messages: put.messages as u64,
                ..no_counts()
            }),
            Some(fault) => Err(put_refused(
                next_number(put.messages),
                identifier_at(nodes, put.nodes),
                fault,
            )),
        },
        None => Err(Refusal::Handle),
    }
}

/// Counts of nothing but what was used and what waits.
fn counts(used: usize, messages: usize, bytes: usize) -> NodeCounts
    ensures { result ≡ record { used = used; messages = messages; nodes = 0; bytes = bytes } }
{
    NodeCounts {
        used: used as u64,
        messages: messages as u64,
        nodes: 0,
        bytes: bytes as u64,
    }
}

/// How many bytes wait in a writer; 0 where there is none.
fn bytes_lent(lent: &mut Option<Lent<'_>>) -> usize
    ensures count { result ≡ bytes_lent_lem lent.old }
    ensures same { lent.new ≡ lent.old }
{
    match lent {
        Some(Lent::Writer(writer)) => writer.waiting(),
        Some(Lent::Reader(_)) | None => 0,
    }
}

/// How many bytes wait in the writer that is held; 0 where there is none.
fn bytes_in(held: &mut Held) -> usize
    ensures count { result ≡ bytes_in_lem (option_map (λ b. b.value) held.new) }
    ensures same { option_map (λ b. b.value) held.new ≡ option_map (λ b. b.value) held.old }
{
    match held {
        Some(kept) => match &mut **kept {
            Kept::Lent(loan) => loan.with(&mut [], &mut [], |lent, _, _| bytes_lent(lent)),
            Kept::Set(_) => 0,
        },
        None => 0,
    }
}

/// What was put, and what waits.
pub(crate) fn put_counts(done: &Option<Put>, held: &mut Held) -> NodeCounts
    ensures counts { result ≡ put_counts_lem done.now (option_map (λ b. b.value) held.new) }
    ensures same { option_map (λ b. b.value) held.new ≡ option_map (λ b. b.value) held.old }
{
    match done {
        Some(put) => counts(put.nodes, put.messages, bytes_in(held)),
        None => counts(0, 0, 0),
    }
}

/// The bytes that were taken, or that wait where the room is too short.
pub(crate) fn bytes_told(done: &Option<Option<usize>>, held: &mut Held) -> NodeCounts
    ensures counts { result ≡ bytes_told_lem done.now (option_map (λ b. b.value) held.new) }
    ensures same { option_map (λ b. b.value) held.new ≡ option_map (λ b. b.value) held.old }
{
    match done {
        Some(Some(count)) => counts(0, 0, *count),
        Some(None) => counts(0, 0, bytes_in(held)),
        None => counts(0, 0, 0),
    }
}

/// The status of a call that takes bytes.
pub(crate) fn status_bytes(done: &Option<Option<usize>>) -> u32
    ensures { result ≡ status_bytes_lem done.now }
{
    match done {
        Some(Some(_)) => 0,
        Some(None) => 3,
        None => 8,
    }
}
