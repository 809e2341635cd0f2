//! The functions that C calls. C passes a slice as a pointer and a length.

ghost use Rattle.std.specs.Prelude.{◌≡◌, ◌≢◌, ◌≤◌, length};
ghost use Rattle.fast_slices.specs.Answers.{answer_of};
ghost use Rattle.fast_slices.specs.Calls.{Canons, Checks, ChecksText, Done, Shows};
ghost use Rattle.fast_slices.specs.Lines.{WritesText};

use fast_slices::{
    Answer, VERSION_NUMBER, answer_of, canon, check_stream, check_templates, show, write,
};
use std::alloc::Global;

/// Writes the canonical bytes of a stream into the front of a room, and answers the status. A room of as many bytes as
/// the stream has holds them.
#[unsafe(no_mangle)]
pub extern "C" fn fastcat_canon(
    alloc: Global,
    templates: &[u8],
    mode: u32,
    stream: &[u8],
    room: &mut [u8],
    answer: &mut Answer,
) -> u32
    ensures answer { (done : Done) × Canons templates.now mode stream.now room.old room.new done
        × (answer.new ≡ answer_of done) × (result ≡ answer.new.status) }
    ensures room_enough { length stream.now ≤ length room.old → result ≢ 3 }
{
    *answer = answer_of(canon(alloc, templates, mode, stream, room));
    answer.status
}

/// Counts the messages, the bytes and the canonical bytes of a stream, and answers the status.
#[unsafe(no_mangle)]
pub extern "C" fn fastcat_check(
    alloc: Global,
    templates: &[u8],
    mode: u32,
    stream: &[u8],
    answer: &mut Answer,
) -> u32
    ensures { (done : Done) × Checks templates.now mode stream.now done
        × (answer.new ≡ answer_of done) × (result ≡ answer.new.status) }
{
    *answer = answer_of(check_stream(alloc, templates, mode, stream));
    answer.status
}

/// Writes the lines of a stream into the front of a room, and answers the status.
#[unsafe(no_mangle)]
pub extern "C" fn fastcat_show(
    alloc: Global,
    templates: &[u8],
    mode: u32,
    stream: &[u8],
    room: &mut [u8],
    answer: &mut Answer,
) -> u32
    ensures { (done : Done) × Shows templates.now mode stream.now room.old room.new done
        × (answer.new ≡ answer_of done) × (result ≡ answer.new.status) }
{
    *answer = answer_of(show(alloc, templates, mode, stream, room));
    answer.status
}

/// Writes the canonical bytes of the messages of lines into the front of a room, and answers the status.
#[unsafe(no_mangle)]
pub extern "C" fn fastcat_write(
    alloc: Global,
    templates: &[u8],
    mode: u32,
    lines: &[u8],
    room: &mut [u8],
    answer: &mut Answer,
) -> u32
    ensures { (done : Done) × WritesText templates.now mode lines.now room.old room.new done
        × (answer.new ≡ answer_of done) × (result ≡ answer.new.status) }
{
    *answer = answer_of(write(alloc, templates, mode, lines, room));
    answer.status
}

/// Checks a template text, and answers the status.
#[unsafe(no_mangle)]
pub extern "C" fn fastcat_templates(alloc: Global, templates: &[u8], answer: &mut Answer) -> u32
    ensures { (done : Done) × ChecksText templates.now done
        × (answer.new ≡ answer_of done) × (result ≡ answer.new.status) }
{
    *answer = answer_of(check_templates(alloc, templates));
    answer.status
}

/// The version of the library: 10,000 for each major version, 100 for each minor one, 1 for each patch.
#[unsafe(no_mangle)]
pub extern "C" fn fastcat_version() -> u32
    ensures { result ≡ 200 }
{
    VERSION_NUMBER
}
