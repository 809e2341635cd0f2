//! The sizes of packets.

ghost use Rattle.std.specs.Prelude.{◌≡◌, ℕ, Result};
ghost use Rattle.fast_slices.specs.Answers.{answer_of};
ghost use Rattle.fast_slices.specs.declared.answer.Refusal.{Refusal as RefusalOf};
ghost use Rattle.fast_c.specs.Sizes.{SizesAt, level_of as level_of_lem, size_done as size_done_lem, size_refused as size_refused_lem, size_told as size_told_lem};

use crate::counts::NodeCounts;
use fast_recording::read_packet_size;
use fast_slices::{Answer, Counts, Refusal, answer_of, no_counts};
use fast_stream::{Cause, Fault, Place};
use fast_wire::Level;

/// The level that a word of C stands for; none where it has a bit that says nothing of one.
fn level_of(word: u32) -> Option<Level>
    ensures { result ≡ level_of_lem word }
{
    match word {
        0 => Some(Level::Usual),
        1 => Some(Level::Strict),
        _ => None,
    }
}

/// Why a size is refused, as C is told.
fn size_refused(cause: Cause) -> Refusal
    ensures { result ≡ size_refused_lem cause }
{
    let place = Place {
        message: 1,
        offset: 0,
        template: 0,
        instruction: 0,
    };
    Refusal::Stream(Fault { cause, place }, 0)
}

/// The size of the packet that a recording begins with, and how many bytes the size takes.
fn read_size(word: u32, recording: &[u8]) -> Result<(usize, usize), Refusal>
    ensures { SizesAt (level_of_lem word) recording.now result }
{
    let Some(level) = level_of(word) else {
        return Err(Refusal::Mode);
    };
    match read_packet_size(level, recording) {
        Ok(found) => Ok(found),
        Err(cause) => Err(size_refused(cause)),
    }
}

/// The size and its bytes, as C is told; nothing where it is refused.
fn size_told(done: &Result<(usize, usize), Refusal>) -> NodeCounts
    ensures { result ≡ size_told_lem done.now }
{
    let (bytes, used) = match done {
        Ok((size, used)) => (*size, *used),
        Err(_) => (0, 0),
    };
    NodeCounts {
        used: used as u64,
        messages: 0,
        nodes: 0,
        bytes: bytes as u64,
    }
}

/// How the call ended.
fn size_done(done: &Result<(usize, usize), Refusal>) -> Result<Counts, Refusal>
    ensures { result ≡ size_done_lem done.now }
{
    match done {
        Ok(_) => Ok(no_counts()),
        Err(refusal) => Err(*refusal),
    }
}

/// Reads the size of the packet that a recording begins with, says it and how many bytes it takes, and answers the status.
#[unsafe(no_mangle)]
pub extern "C" fn fastcat_packet_size(
    mode: u32,
    recording: &[u8],
    packet: &mut NodeCounts,
    answer: &mut Answer,
) -> u32
    ensures { (done : Result (ℕ × ℕ) RefusalOf) × SizesAt (level_of_lem mode) recording.now done
        × (packet.new ≡ size_told_lem done) × (answer.new ≡ answer_of (size_done_lem done)) × (result ≡ answer.new.status) }
{
    let done = read_size(mode, recording);
    *packet = size_told(&done);
    *answer = answer_of(size_done(&done));
    answer.status
}
