//! Refused packets, told by lines.

ghost use Rattle.std.specs.Prelude.{◌≡◌, ◌≢◌, ◌++◌, decimal, ℕ, List, OnOk, OnErr, Err};
ghost use Rattle.std.specs.Io.KnownBytes.{Appends};
ghost use Rattle.fast_io.specs.Traffic.{Taken};
ghost use Rattle.fast_stream.specs.CauseNames.{name_of};
ghost use Rattle.fast_recording.specs.Faults.{tell_errors};
ghost use Rattle.fast_recording.specs.Told.{place_words_of, refused_line_of};

use crate::fault::PacketFault;
use crate::halt::Halt;
use fast_io::{ByteOutput, Failed, write_all};
use fast_stream::Place;
use itoa::Buffer;
use std::alloc::AllocError;

// Appends a word, and a number.
fn push_count(word: &[u8], number: u64, out: &mut Vec<u8>) -> Result<(), AllocError>
    ensures { OnOk result (out.new.items ≡ out.old.items ++ word.now ++ decimal number) }
{
    out.extend_from_slice(word)?;
    out.extend_from_slice(Buffer::new().format(number).as_bytes())
}

// Appends the words of a place.
fn push_place(place: Place, out: &mut Vec<u8>) -> Result<(), AllocError>
    ensures { OnOk result (out.new.items ≡ out.old.items ++ place_words_of place) }
{
    push_count(b" message=", place.message, out)?;
    push_count(b" offset=", place.offset, out)?;
    push_count(b" template=", u64::from(place.template), out)?;
    push_count(b" instruction=", u64::from(place.instruction), out)
}

/// Appends the line that tells of a refused packet, with its line feed.
///
/// # Errors
///
/// Where memory is refused; a front of the line may stand there.
pub fn push_refused_line(refused: PacketFault, out: &mut Vec<u8>) -> Result<(), AllocError>
    ensures { OnOk result (out.new.items ≡ out.old.items ++ refused_line_of refused) }
{
    out.extend_from_slice(b"refused ")?;
    out.extend_from_slice(refused.fault.cause.name().as_bytes())?;
    push_count(b" packet=", refused.packet, out)?;
    push_place(refused.fault.place, out)?;
    out.push(b'\n')?;
    Ok(())
}

/// Says on the writer of refusals that a packet is refused.
pub(crate) fn tell<T: ByteOutput>(
    refused: PacketFault,
    line: &mut Vec<u8>,
    teller: &mut T,
) -> Result<(), Halt>
    ensures told { OnOk result (Appends (T.taken teller.old) (T.taken teller.new) (refused_line_of refused)) }
    ensures part { OnErr result ((rest : List ℕ)
        × Taken (T.taken teller.old) (T.taken teller.new) (refused_line_of refused) rest) }
    ensures writes { result ≢ Err Halt.Write }
    ensures failed { T.errors teller.new ≡ tell_errors result (T.errors teller.old) }
{
    line.clear();
    push_refused_line(refused, line)?;
    match write_all(teller, line) {
        Err(Failed) => Err(Halt::Tell),
        Ok(()) => Ok(()),
    }
}
