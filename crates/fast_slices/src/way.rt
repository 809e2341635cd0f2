//! How a call reads and shows, by its word.

ghost use Rattle.std.specs.Prelude.{◌≡◌};
ghost use Rattle.fast_slices.specs.Ways.{reading_of as reading_of_lem, stream_by, stream_mode_of as stream_mode_of_lem, way_of as way_of_lem};

use fast_lines::Form;
use fast_stream::{Framing, Mode};
use fast_wire::Level;

/// What a call reads: a stream in a mode, or a recording of packets at a level.
#[derive(Clone, Copy)]
pub enum Reading {
    Stream(Mode),
    Recording(Level),
}

/// How a call reads, and in which form it shows.
#[derive(Clone, Copy)]
pub struct Way {
    pub reading: Reading,
    pub form: Form,
}

/// The bit of a word that asks for lines in JSON.
const JSON: u32 = 4;

/// A stream that is read so.
fn stream(level: Level, framing: Framing) -> Reading
    ensures { result ≡ stream_by level framing }
{
    Reading::Stream(Mode { level, framing })
}

/// What the rest of a word says: bit 0 is the strict level, bit 1 are blocks, bit 3 are packets.
fn reading_of(word: u32) -> Option<Reading>
    ensures { result ≡ reading_of_lem word }
{
    match word {
        0 => Some(stream(Level::Usual, Framing::Plain)),
        1 => Some(stream(Level::Strict, Framing::Plain)),
        2 => Some(stream(Level::Usual, Framing::Blocks)),
        3 => Some(stream(Level::Strict, Framing::Blocks)),
        8 => Some(Reading::Recording(Level::Usual)),
        9 => Some(Reading::Recording(Level::Strict)),
        _ => None,
    }
}

/// The mode of a stream that a word of C stands for; none where it has a bit that says nothing of one.
pub fn stream_mode_of(word: u32) -> Option<Mode>
    ensures { result ≡ stream_mode_of_lem word }
{
    match reading_of(word) {
        Some(Reading::Stream(mode)) => Some(mode),
        Some(Reading::Recording(_)) | None => None,
    }
}

/// The way that a word of C stands for; none where it has a bit that says nothing, or asks for packets of blocks.
pub fn way_of(word: u32) -> Option<Way>
    ensures { result ≡ way_of_lem word }
{
    let (form, rest) = if word / JSON % 2 == 1 {
        (Form::Json, word - JSON)
    } else {
        (Form::Text, word)
    };
    match reading_of(rest) {
        Some(reading) => Some(Way { reading, form }),
        None => None,
    }
}
