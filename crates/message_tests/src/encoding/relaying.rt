//! Streams that are read and written at once, by the calls.

use crate::base::*;
use fast_dictionary::SlotEntries;
use fast_machine::Machine;
use fast_walk::Output;
use fast_writer::Writer;
use template_tests::growths::{refuse_growths, spare_growths};

// More than the bytes of any stream here; a machine asks how many it is fed.
const LONGEST: usize = 4096;

// The messages of a stream up to its first fault have these canonical bytes.
pub(crate) struct Row {
    pub(crate) stream: &'static [u8],
    pub(crate) canonical: &'static [u8],
    pub(crate) refused: bool,
}

// A machine that writes what it reads.
pub(crate) type Relaying<'a, 'e> = Machine<'a, Writer, SlotEntries<'e>>;

// Whether a machine refuses a stream.
fn is_refused(machine: &mut Relaying, stream: &[u8]) -> Tried<bool> {
    if machine.fed() > LONGEST as u64 || stream.len() > LONGEST {
        return Ok(true);
    }
    if granted(machine.feed(stream).err())?.is_some() {
        return Ok(true);
    }
    Ok(machine.finish().is_err())
}

// What waits in a machine is ready as a whole, and nothing waits once it is handed on.
fn waits(rt: &impl Abort, alloc: Global, machine: &mut Relaying, canonical: &[u8]) -> Tried {
    same(rt, machine.receiver.finished(), canonical);
    same(rt, machine.receiver.hand_on(alloc)?, false);
    same(rt, machine.receiver.finished().len(), 0);
    Ok(())
}

// A machine that is new makes the canonical bytes of a row.
fn is_relayed(rt: &impl Abort, on: &Loaded, row: &Row) -> Tried {
    let entries = slots_of(on)?;
    let mut machine = Machine::new(on.alloc, &on.set, PLAIN, Writer::new(on.alloc), entries);
    let refused = is_refused(&mut machine, row.stream);
    // also where memory was refused
    let is_front = row.canonical.starts_with(machine.receiver.finished());
    same(rt, is_front, true);
    same(rt, refused?, row.refused);
    waits(rt, on.alloc, &mut machine, row.canonical)
}

// A stream behind another one, whose growths are spared: all of its own are the reading's, or all the writer's and the
// entries'.
struct Growing {
    before: &'static [u8],
    stream: &'static [u8],
    of_receiver: bool,
}

// The machine has room for what is like this stream.
fn makes_room(alloc: Global, machine: &mut Relaying, stream: &[u8]) -> Tried<bool> {
    spare_growths(alloc)?;
    let refused = is_refused(machine, stream)?;
    machine.receiver.hand_on(alloc)?;
    refuse_growths(alloc)?;
    Ok(refused)
}

// Where memory is refused, a machine knows whose growth it was.
fn tells_apart(rt: &impl Abort, on: &Loaded, row: &Growing) -> Tried {
    let entries = slots_of(on)?;
    let mut machine = Machine::new(on.alloc, &on.set, PLAIN, Writer::new(on.alloc), entries);
    same(rt, makes_room(on.alloc, &mut machine, row.before)?, false);
    let refused = is_refused(&mut machine, row.stream);
    let blames_receiver = refused.is_err() && row.of_receiver;
    same(rt, machine.receiver_refused(), blames_receiver);
    refused?;
    Ok(())
}

// (`bench/refused.py` refuses each growth)
#[test]
fn growths_are_told_apart(rt: HostRuntime) -> Tried {
    const ROWS: &[Growing] = rows! { Growing { before, stream, of_receiver }:
        // the bytes of a map that is not whole
        b"", b"\x40", false;
        b"", b"\x40\x00\x00\x00\x00\x00\x00\x00\x00\x00", false;
        // the bits of a map of ten bytes, which the writer has room for, and the bytes of an identifier
        b"\x70\x00\x00\x00\x00\x00\x00\x00\x00\x80\x81\x81\x41\xc2\xfe\x00\xe4",
            b"\x40\x00\x00\x00\x00\x00\x00\x00\x00\x80\x01", false;
        // maps, numbers and texts, and their entries
        b"", b"\xf0\x81\x81\x41\xc2\xfe\x00\xe4", true;
    };
    let on = worked(&rt, rt.alloc())?;
    for row in ROWS {
        tells_apart(&rt, &on, row)?;
    }
    Ok(())
}

pub(crate) const STREAMS: &[Row] = rows! { Row { stream, canonical, refused }:
    // numbers and texts
    b"\xf0\x81\x81\x41\xc2\xfe\x00\xe4", b"\xf0\x81\x81\x41\xc2\xfe\x00\xe4", false;
    b"\xf0\x81\x81\x41\xc2\xfe\x00\xe4\xf8\x81\x82\x41\xc2\x80\x81\x80",
        b"\xf0\x81\x81\x41\xc2\xfe\x00\xe4\x80\x80\x81", false;
    b"\xf0\x81\x81\x41\xc2\xfe\x00\xe4\x80\x80\x81", b"\xf0\x81\x81\x41\xc2\xfe\x00\xe4\x80\x80\x81", false;
    b"", b"", false;
    b"\xf0\x81\x00\x00\x81\x41\xc2\xfe\x00\xe4", b"\xf0\x81\x81\x41\xc2\xfe\x00\xe4", false;
    b"\x70\x00\x80\x81\x81\x41\xc2\xfe\x00\xe4", b"\xf0\x81\x81\x41\xc2\xfe\x00\xe4", false;
    b"\xf1\x81\x81\x41\xc2\xfe\x00\xe4", b"\xf0\x81\x81\x41\xc2\xfe\x00\xe4", false;
    // deltas and tails
    b"\xc0\x8a\x80\x47\x45\x48\xb6\x80\x82\x4d\xb6\x80\xfd\x45\xd3",
        b"\xc0\x8a\x80\x47\x45\x48\xb6\x80\x82\x4d\xb6\x80\xfd\x45\xd3", false;
    b"\xc0\x8a\x80\x47\x45\x48\xb6\x80\x82\x4d\xb6\x80\xfd\x45\xd3\x80\xff\x80",
        b"\xc0\x8a\x80\x47\x45\x48\xb6\x80\x82\x4d\xb6\x80\xfd\x45\xd3\x80\x80\x80", false;
    b"\xe0\x88\x78\x61\xe2\xa0\x00\x00\x00\xe2", b"\xe0\x88\x78\x61\xe2\xa0\x78\x00\xe2", false;
    b"\xe0\x89\x80\xa0\x00\x80", b"\xe0\x89\x80\xa0\xe2", false;
    // decimals in parts
    b"\xf0\x83\x80\x85\x90\x39\x45\xa3", b"\xf0\x83\x80\x85\x90\x39\x45\xa3", false;
    b"\xf0\x83\x80\x85\xb0\x83\x39\x45\xa3", b"\xf0\x83\x80\x85\x90\x39\x45\xa3", false;
    b"\xe0\x8f\x00\xe4\x83\x0a\xff\x80\x81", b"\xe0\x8f\x00\xe4\x83\x0a\xff\x80\x81", false;
    // groups and sequences
    b"\xc0\x84\x80\x80\x81\x80\x83\x85\x86", b"\xc0\x84\x80\x80\x81\x80\x83\x85\x86", false;
    b"\xc0\x85\x82\xc0\x85\x80", b"\xc0\x85\x82\xc0\x85\x80", false;
    b"\xf0\x8b\xc0\x85\x86\x80\xa0\x80", b"\xf0\x8b\xc0\x85\x86\x80\xa0\x80", false;
    // identifiers and keys
    b"\xe0\x90\x85\x86\xe0\x90\x87\x86", b"\xe0\x90\x85\x86\x80\x87", false;
    b"\xf0\x87\x85\xc1\xb0\x86\xc1", b"\xf0\x87\x85\xc1\xb0\x86\xc1", false;
    // what comes before a fault
    b"\x80", b"", true;
    b"\xc0\xe4", b"", true;
    b"\xe0\x82\x0f\x7f\x7f\x7f\xff\x0f\x7f\x7f\x7f\xff\x80\x80\x80\x81",
        b"\xe0\x82\x0f\x7f\x7f\x7f\xff\x0f\x7f\x7f\x7f\xff\x80\x80", true;
    b"\xe0\x8e\x80\x90\x83\x90\x10\x00\x00\x00\x80", b"\xe0\x8e\x80\x80", true;
    b"\xf0\x87\x85\xc1\x80", b"\xf0\x87\x85\xc1", true;
    b"\xe0\x8c\x82\xc3\xa9\xa0\x81\xa8\xa0\x81\x41", b"\xe0\x8c\x82\xc3\xa9\xa0\x81\xa8", true;
    b"\xf0\x81\x81\x41\xc2\xfe", b"", true;
    // many elements of nothing
    b"\xc0\x86\x03\x7f\xff", b"\xc0\x86\x03\x7f\xff", false;
};

#[test]
fn streams_that_are_relayed(rt: HostRuntime) -> Tried {
    let on = worked(&rt, rt.alloc())?;
    for row in STREAMS {
        is_relayed(&rt, &on, row)?;
    }
    Ok(())
}
