//! What is done with the reader behind a handle.

ghost use Rattle.std.specs.Prelude.{◌≡◌, option_map};
ghost use Rattle.fast_c.specs.Reading.{Feeds, Finishes, HeldReader, KeepsReader, LentReader, ReadsPacket, Resets, Takes, counted as counted_lem, most_bytes_of as most_bytes_of_lem, refusal_of as refusal_of_lem, status_done as status_done_lem, status_taken as status_taken_lem, taken_told as taken_told_lem, told as told_lem, used_of as used_of_lem, waiting_in as waiting_in_lem, waiting_lent as waiting_lent_lem};
ghost use Rattle.fast_c.specs.Sets.{WithKept};

use crate::counts::NodeCounts;
use fast_kept::{Handle, Kept, Lent, Loan, Wanted, set_in};
use fast_slices::{Counts, Refusal, no_counts, stream_mode_of};
use fast_stream::Cause;
use fast_tape::{Taken, TapeFault, TapeNode};
use std::alloc::Global;

/// What is behind a handle, while a call has it.
type Held = Option<Box<Kept>>;

/// The most bytes of strings that a message may have where nothing is said.
const MOST_BYTES: u32 = 64 << 20;

/// The most bytes of strings that a message may have; 0 says nothing.
fn most_bytes_of(word: u64) -> u32
    ensures { result ≡ most_bytes_of_lem word }
{
    if word == 0 {
        MOST_BYTES
    } else if word < u32::MAX as u64 {
        word as u32
    } else {
        u32::MAX
    }
}

/// Puts a reader of the set that is held behind a handle, in place of what it has.
pub(crate) fn keep_reader(
    alloc: Global,
    held: &Held,
    word: u32,
    most_bytes: u64,
    reader: &mut Handle,
) -> Result<Counts, Refusal>
    ensures { WithKept (KeepsReader word most_bytes reader.old.value reader.new.value) (reader.new.value ≡ reader.old.value)
        (option_map (λ b. b.value) held.now) result }
{
    let Some(set) = set_in(held) else {
        return Err(Refusal::Handle);
    };
    let Some(mode) = stream_mode_of(word) else {
        return Err(Refusal::Mode);
    };
    let wanted = Wanted::Reader(mode, most_bytes_of(most_bytes));
    let Ok(share) = set.share() else {
        return Err(Refusal::Memory);
    };
    let Ok(made) = Loan::new(alloc, share, &wanted) else {
        return Err(Refusal::Memory);
    };
    match reader.keep(alloc, Kept::Lent(made)) {
        Ok(()) => Ok(no_counts()),
        Err(_) => Err(Refusal::Memory),
    }
}

/// Feeds bytes to a reader; none where there is none.
fn feed_lent(lent: &mut Option<Lent<'_>>, chunk: &[u8]) -> Option<Result<usize, TapeFault>>
    ensures { LentReader (Feeds chunk.now) (Unit {0}) lent.old lent.new result }
{
    match lent {
        Some(Lent::Reader(reader)) => Some(reader.feed(chunk)),
        Some(Lent::Writer(_)) | None => None,
    }
}

/// Reads a packet, likewise.
fn read_packet_lent(lent: &mut Option<Lent<'_>>, packet: &[u8]) -> Option<Result<usize, TapeFault>>
    ensures { LentReader (ReadsPacket packet.now) (Unit {0}) lent.old lent.new result }
{
    match lent {
        Some(Lent::Reader(reader)) => Some(reader.packet(packet)),
        Some(Lent::Writer(_)) | None => None,
    }
}

/// Puts what waits into rooms, likewise.
fn take_lent(
    lent: &mut Option<Lent<'_>>,
    nodes: &mut [TapeNode],
    bytes: &mut [u8],
) -> Option<Option<Taken>>
    ensures { LentReader (Takes nodes.old nodes.new bytes.old bytes.new) ((nodes.new ≡ nodes.old) × (bytes.new ≡ bytes.old)) lent.old lent.new result }
{
    match lent {
        Some(Lent::Reader(reader)) => Some(reader.take(nodes, bytes)),
        Some(Lent::Writer(_)) | None => None,
    }
}

/// Ends the stream, likewise.
fn finish_lent(lent: &mut Option<Lent<'_>>) -> Option<Result<(), TapeFault>>
    ensures { LentReader Finishes (Unit {0}) lent.old lent.new result }
{
    match lent {
        Some(Lent::Reader(reader)) => Some(reader.finish()),
        Some(Lent::Writer(_)) | None => None,
    }
}

/// Begins a new stream, likewise.
fn reset_lent(lent: &mut Option<Lent<'_>>) -> Option<()>
    ensures { LentReader Resets (Unit {0}) lent.old lent.new result }
{
    match lent {
        Some(Lent::Reader(reader)) => {
            reader.reset();
            Some(())
        }
        Some(Lent::Writer(_)) | None => None,
    }
}

/// Feeds bytes to the reader that is held; none where there is no reader.
pub(crate) fn feed_held(held: &mut Held, chunk: &[u8]) -> Option<Result<usize, TapeFault>>
    ensures { HeldReader (Feeds chunk.now) (Unit {0}) (option_map (λ b. b.value) held.old)
        (option_map (λ b. b.value) held.new) result }
{
    match held {
        Some(kept) => match &mut **kept {
            Kept::Lent(loan) => loan.with(&mut [], &mut [], |lent, _, _| feed_lent(lent, chunk)),
            Kept::Set(_) => None,
        },
        None => None,
    }
}

/// Reads a packet, likewise.
pub(crate) fn read_packet_held(held: &mut Held, packet: &[u8]) -> Option<Result<usize, TapeFault>>
    ensures { HeldReader (ReadsPacket packet.now) (Unit {0}) (option_map (λ b. b.value) held.old)
        (option_map (λ b. b.value) held.new) result }
{
    match held {
        Some(kept) => match &mut **kept {
            Kept::Lent(loan) => loan.with(
                &mut [],
                &mut [],
                |lent, _, _| read_packet_lent(lent, packet),
            ),
            Kept::Set(_) => None,
        },
        None => None,
    }
}

/// Puts what waits into rooms, likewise.
pub(crate) fn take_held(
    held: &mut Held,
    nodes: &mut [TapeNode],
    bytes: &mut [u8],
) -> Option<Option<Taken>>
    ensures { HeldReader (Takes nodes.old nodes.new bytes.old bytes.new) ((nodes.new ≡ nodes.old) × (bytes.new ≡ bytes.old))
        (option_map (λ b. b.value) held.old) (option_map (λ b. b.value) held.new) result }
{
    match held {
        Some(kept) => match &mut **kept {
            Kept::Lent(loan) => loan.with(nodes, bytes, take_lent),
            Kept::Set(_) => None,
        },
        None => None,
    }
}

/// Ends the stream, likewise.
pub(crate) fn finish_held(held: &mut Held) -> Option<Result<(), TapeFault>>
    ensures { HeldReader Finishes (Unit {0}) (option_map (λ b. b.value) held.old)
        (option_map (λ b. b.value) held.new) result }
{
    match held {
        Some(kept) => match &mut **kept {
            Kept::Lent(loan) => loan.with(&mut [], &mut [], |lent, _, _| finish_lent(lent)),
            Kept::Set(_) => None,
        },
        None => None,
    }
}

/// Begins a new stream, likewise.
pub(crate) fn reset_held(held: &mut Held) -> Option<()>
    ensures { HeldReader Resets (Unit {0}) (option_map (λ b. b.value) held.old)
        (option_map (λ b. b.value) held.new) result }
{
    match held {
        Some(kept) => match &mut **kept {
            Kept::Lent(loan) => loan.with(&mut [], &mut [], |lent, _, _| reset_lent(lent)),
            Kept::Set(_) => None,
        },
        None => None,
    }
}

/// Why a stream is not read on, as C is told.
fn refusal_of(fault: TapeFault) -> Refusal
    ensures { result ≡ refusal_of_lem fault }
{
    match fault {
        TapeFault::Stream(fault) => match fault.cause {
            Cause::Memory => Refusal::Memory,
            _ => Refusal::Stream(fault, 0),
        },
        TapeFault::MessageTooLarge(message) => Refusal::TooLarge(message),
        TapeFault::StreamTooLong => Refusal::TooLong,
    }
}

/// How a call that feeds ended.
pub(crate) fn told(done: &Option<Result<usize, TapeFault>>) -> Result<Counts, Refusal>
    ensures { result ≡ told_lem done.now }
{
    match done {
        Some(Ok(_)) => Ok(no_counts()),
        Some(Err(fault)) => Err(refusal_of(*fault)),
        None => Err(Refusal::Handle),
    }
}

/// How a call that ends a stream ended.
pub(crate) fn ended(done: &Option<Result<(), TapeFault>>) -> Result<Counts, Refusal>
    ensures { result ≡ told_lem done.now }
{
    match done {
        Some(Ok(())) => Ok(no_counts()),
        Some(Err(fault)) => Err(refusal_of(*fault)),
        None => Err(Refusal::Handle),
    }
}

/// How many bytes of a chunk were taken.
pub(crate) fn used_of(done: &Option<Result<usize, TapeFault>>) -> u64
    ensures { result ≡ used_of_lem done.now }
{
    match done {
        Some(Ok(used)) => *used as u64,
        Some(Err(_)) | None => 0,
    }
}

/// What was taken or waits, behind so many bytes.
fn counted(used: u64, taken: Taken) -> NodeCounts
    ensures { result ≡ counted_lem used taken }
{
    NodeCounts {
        used,
        messages: taken.messages,
        nodes: taken.nodes as u64,
        bytes: taken.bytes as u64,
    }
}

/// What waits in a reader; nothing where there is none.
fn waiting_lent(used: u64, lent: &mut Option<Lent<'_>>) -> NodeCounts
    ensures counts { result ≡ waiting_lent_lem used lent.old }
    ensures same { lent.new ≡ lent.old }
{
    match lent {
        Some(Lent::Reader(reader)) => counted(used, reader.waiting()),
        Some(Lent::Writer(_)) | None => counts(used),
    }
}

/// Counts of nothing but what was used.
fn counts(used: u64) -> NodeCounts
    ensures { result ≡ record { used = used; messages = 0; nodes = 0; bytes = 0 } }
{
    NodeCounts {
        used,
        messages: 0,
        nodes: 0,
        bytes: 0,
    }
}

/// What waits in the reader that is held.
pub(crate) fn waiting_in(used: u64, held: &mut Held) -> NodeCounts
    ensures counts { result ≡ waiting_in_lem used (option_map (λ b. b.value) held.new) }
    ensures same { option_map (λ b. b.value) held.new ≡ option_map (λ b. b.value) held.old }
{
    match held {
        Some(kept) => match &mut **kept {
            Kept::Lent(loan) => {
                loan.with(&mut [], &mut [], |lent, _, _| waiting_lent(used, lent))
            }
            Kept::Set(_) => counts(used),
        },
        None => counts(used),
    }
}

/// What was taken, or where the rooms are too short what waits.
pub(crate) fn taken_told(done: &Option<Option<Taken>>, held: &mut Held) -> NodeCounts
    ensures counts { result ≡ taken_told_lem done.now (option_map (λ b. b.value) held.new) }
    ensures same { option_map (λ b. b.value) held.new ≡ option_map (λ b. b.value) held.old }
{
    match done {
        Some(Some(taken)) => counted(0, *taken),
        Some(None) | None => waiting_in(0, held),
    }
}

/// The status of a call that takes.
pub(crate) fn status_taken(done: &Option<Option<Taken>>) -> u32
    ensures { result ≡ status_taken_lem done.now }
{
    match done {
        Some(Some(_)) => 0,
        Some(None) => 3,
        None => 8,
    }
}

/// The status of a call that can't be refused.
pub(crate) fn status_done(done: &Option<()>) -> u32
    ensures { result ≡ status_done_lem done.now }
{
    match done {
        Some(()) => 0,
        None => 8,
    }
}
