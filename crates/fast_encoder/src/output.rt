//! Writes bytes, and messages.

mod stream;

use crate::encoder::Encoder;
use fast_dictionary::Entries;
use fast_io::ByteOutput;

/// Writes the canonical bytes of messages to a writer.
///
/// A write that failed is kept for good: from then on each message is answered with it, and nothing is written.
#[derive(Drop)]
pub struct MessageOutputStream<'a, W: ByteOutput, E: Entries> {
    writer: W,
    encoder: Encoder<'a, E>,
    // of one message, kept for its memory
    bytes: Vec<u8>,
    failed: bool,
}
