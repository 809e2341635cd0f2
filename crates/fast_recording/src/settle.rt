//! What comes of a packet, counted and told.

ghost use Rattle.std.specs.Prelude.{◌≡◌, ◌≢◌, ◌+◌, ◌<◌, ◌^◌, Err};
ghost use Rattle.fast_packets.specs.Outcomes.{size_place};
ghost use Rattle.fast_recording.specs.Faults.{IsUntold, Refuses, Settles, count_more, counted_behind, counts_refused, counts_taken, tell_errors};

use crate::fault::PacketFault;
use crate::halt::Halt;
use crate::packet::Taken;
use crate::packet_lines::PacketLines;
use crate::summary::RecordingSummary;
use crate::told::tell;
use fast_io::ByteOutput;
use fast_stream::{Fault, Place};

/// What was counted of a recording so far, and what is kept from packet to packet: a buffer for sizes and for the lines that
/// tell of refusals, and the lines of packets.
#[derive(Drop)]
pub(crate) struct Progress {
    pub(crate) counts: RecordingSummary,
    pub(crate) buffer: Vec<u8>,
    pub(crate) lines: PacketLines,
}

/// The place of a size, and of a packet that is not there.
pub(crate) fn place_of_size(offset: u64) -> Place
    ensures { result ≡ size_place offset }
{
    Place {
        message: 1,
        offset,
        template: 0,
        instruction: 0,
    }
}

/// A place in a stream that stands behind so many bytes of the recording.
pub(crate) fn place_behind(offset: u64, place: Place) -> Place
    ensures { result ≡ counted_behind offset place }
{
    Place {
        offset: offset.saturating_add(place.offset),
        ..place
    }
}

// Tells that a packet is refused, where the run goes on; else answers it.
fn tell_or_answer<T: ByteOutput>(
    keep_going: bool,
    refused: PacketFault,
    progress: &mut Progress,
    teller: &mut T,
) -> Result<Option<PacketFault>, Halt>
    ensures refuses { Refuses keep_going refused (T.taken teller.old) (T.taken teller.new) result }
    ensures failed { T.errors teller.new ≡ tell_errors result (T.errors teller.old) }
    ensures counts { progress.new.counts ≡ progress.old.counts }
{
    if !keep_going {
        return Ok(Some(refused));
    }
    tell(refused, &mut progress.buffer, teller)?;
    Ok(None)
}

/// Counts a packet that has no size or is not whole, and tells that it is refused where the run goes on; else answers it.
pub(crate) fn refuse<T: ByteOutput>(
    keep_going: bool,
    fault: Fault,
    progress: &mut Progress,
    teller: &mut T,
) -> Result<Option<PacketFault>, Halt>
    ensures counts { progress.new.counts ≡ counts_refused progress.old.counts }
    ensures refuses { Refuses keep_going (record { packet = progress.new.counts.packets; fault = fault })
        (T.taken teller.old) (T.taken teller.new) result }
    ensures failed { T.errors teller.new ≡ tell_errors result (T.errors teller.old) }
    ensures untold { IsUntold progress.old.counts progress.new.counts teller.old teller.new }
{
    let counts = &mut progress.counts;
    counts.packets = counts.packets.saturating_add(1);
    counts.refused = counts.refused.saturating_add(1);
    let packet = counts.packets;
    tell_or_answer(keep_going, PacketFault { packet, fault }, progress, teller)
}

/// Counts what came of a packet of so many bytes, whose stream begins behind so many of them, and tells that it is refused
/// where the run goes on; else answers it.
pub(crate) fn settle<T: ByteOutput>(
    keep_going: bool,
    taken: Taken,
    behind: usize,
    size: usize,
    progress: &mut Progress,
    teller: &mut T,
) -> Result<Option<PacketFault>, Halt>
    ensures counts { progress.new.counts ≡ counts_taken progress.old.counts taken size }
    ensures settles { Settles keep_going progress.new.counts.packets (count_more progress.old.counts.read behind)
        taken.fault (T.taken teller.old) (T.taken teller.new) result }
    ensures failed { T.errors teller.new ≡ tell_errors result (T.errors teller.old) }
    ensures untold { IsUntold progress.old.counts progress.new.counts teller.old teller.new }
{
    let begin = progress.counts.read.saturating_add(behind as u64);
    let counts = &mut progress.counts;
    counts.packets = counts.packets.saturating_add(1);
    counts.messages = counts.messages.saturating_add(taken.messages);
    counts.read = counts.read.saturating_add(size as u64);
    counts.written = counts.written.saturating_add(taken.written);
    match taken.fault {
        None => Ok(None),
        Some(fault) => {
            counts.refused = counts.refused.saturating_add(1);
            let packet = counts.packets;
            let place = place_behind(begin, fault.place);
            let refused = PacketFault {
                packet,
                fault: Fault { place, ..fault },
            };
            tell_or_answer(keep_going, refused, progress, teller)
        }
    }
}
