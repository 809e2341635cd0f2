//! What a template set is lent to.

use fast_dictionary::SlotEntries;
use fast_stream::Mode;
use fast_tape::TapeReader;
use fast_untape::TapeWriter;

/// What a set is lent to.
#[derive(Drop)]
pub enum Lent<'a> {
    Reader(TapeReader<'a, SlotEntries<'a>>),
    Writer(TapeWriter<'a, SlotEntries<'a>>),
}

/// What is wanted of a set: a reader, of messages that have at most so many bytes of strings, or a writer.
#[derive(Clone, Copy)]
pub enum Wanted {
    Reader(Mode, u32),
    Writer,
}
