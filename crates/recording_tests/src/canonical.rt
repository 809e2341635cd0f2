//! Canonical recordings, and the longest packets.

use crate::runs::{Call, at_level, counted, gives, loaded, refused, usually};
use fast_stream::Cause;
use fast_wire::Level;
use std::alloc::Global;
use template_tests::texts::WORKED;
use test_rows::Tried;

// A recording is its own canonical one at the strict level: here of quotes, a tail and a sequence.
#[test]
fn canonical_recordings_stay(rt: HostRuntime) -> Tried {
    const CANONICAL: &[u8] =
        b"\x8b\xf0\x81\x81\x41\xc2\xfe\x00\xe4\x80\x80\x81\x88\xe0\x88\x41\x42\x43\x44\x45\xc6\x84\xe0\x88\x58\xd9\x83\xc0\x84\x80";
    let on = loaded(&rt, rt.alloc(), WORKED)?;
    let read = CANONICAL.len() as u64;
    let counts = counted((4, 0, 5), read, read);
    for level in [Level::Usual, Level::Strict] {
        let given = at_level(level, false, CANONICAL);
        gives(&rt, &on, Call::Canon, given, counts, CANONICAL, "")?;
    }
    Ok(())
}

// A packet of messages of two bytes behind one of three, behind its size.
fn long(alloc: Global, size: &[u8], messages: usize) -> Tried<Vec<u8>> {
    let mut bytes = Vec::new(alloc);
    bytes.extend_from_slice(size)?;
    bytes.extend_from_slice(b"\xc0\x84\x80")?;
    for _ in 1..messages {
        bytes.extend_from_slice(b"\x80\x80")?;
    }
    Ok(bytes)
}

#[test]
fn the_longest_packet(rt: HostRuntime) -> Tried {
    let on = loaded(&rt, rt.alloc(), WORKED)?;
    let bytes = long(rt.alloc(), b"\x03\x7f\xff", 32_767)?;
    let counts = counted((1, 0, 32_767), 65_538, 65_538);
    gives(&rt, &on, Call::Canon, usually(&bytes), counts, &bytes, "")?;
    // a packet behind it
    let mut two = long(rt.alloc(), b"\x03\x7f\xff", 32_767)?;
    two.extend_from_slice(b"\x83\xc0\x84\x80")?;
    let counts = counted((2, 0, 32_768), 65_542, 65_542);
    gives(&rt, &on, Call::Canon, usually(&two), counts, &two, "")?;
    // one byte more than a packet may have, and none of it is read
    let longer = long(rt.alloc(), b"\x04\x00\x80", 32_767)?;
    let limit = refused(Cause::Limit, 1, 1, (0, 0, 0));
    gives(&rt, &on, Call::Canon, usually(&longer), limit, b"", "")
}
