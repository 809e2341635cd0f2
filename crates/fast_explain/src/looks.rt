//! What the first bytes of a stream look like.

use crate::hex_text::is_hex;

/// What a stream is that is no stream of messages.
#[derive(Clone, Copy, Debug, PartialEq, Eq)]
pub enum StreamLook {
    /// Hex digits alone.
    Hex,
    /// A capture file of the older format, in either order of bytes, in micro- or nanoseconds.
    Pcap,
    /// A capture file of the newer format.
    Pcapng,
    /// A compressed file.
    Gzip,
}

/// How a capture file of the older format begins.
const PCAP: [&[u8]; 4] = [
    b"\xd4\xc3\xb2\xa1",
    b"\xa1\xb2\xc3\xd4",
    b"\x4d\x3c\xb2\xa1",
    b"\xa1\xb2\x3c\x4d",
];

/// How one of the newer format does: the type of its first block.
const PCAPNG: &[u8] = b"\x0a\x0d\x0d\x0a";

const GZIP: &[u8] = b"\x1f\x8b";

/// What these first bytes look like, if not like those of a stream.
pub fn look_of_stream(first: &[u8]) -> Option<StreamLook> {
    if PCAP.iter().any(|magic| first.starts_with(magic)) {
        Some(StreamLook::Pcap)
    } else if first.starts_with(PCAPNG) {
        Some(StreamLook::Pcapng)
    } else if first.starts_with(GZIP) {
        Some(StreamLook::Gzip)
    } else if is_hex(first) {
        Some(StreamLook::Hex)
    } else {
        None
    }
}
