//! The functions that C calls with a handle of templates, which is lent to one call at a time.

ghost use Rattle.std.specs.Prelude.{◌≡◌, ◌≢◌, ◌≤◌, length, None};
ghost use Rattle.fast_slices.specs.Answers.{answer_of};
ghost use Rattle.fast_slices.specs.Calls.{CanonsOver, ChecksOver, Done, ShowsOver};
ghost use Rattle.fast_slices.specs.Lines.{WritesOver};
ghost use Rattle.fast_c.specs.Sets.{KeepsText, SharesSet, WithKept};

use crate::sets::{canon_held, check_held, keep_templates, share, show_held, write_held};
use fast_kept::Handle;
use fast_slices::{Answer, answer_of};
use std::alloc::Global;

/// Reads a template text, keeps its templates behind a handle, in place of what that has, and answers the status.
#[unsafe(no_mangle)]
pub extern "C" fn fastcat_set_new(
    alloc: Global,
    templates: &[u8],
    set: &mut Handle,
    answer: &mut Answer,
) -> u32
    ensures { (done : Done) × KeepsText templates.now set.old.value set.new.value done
        × (answer.new ≡ answer_of done) × (result ≡ answer.new.status) }
{
    *answer = answer_of(keep_templates(alloc, templates, set));
    answer.status
}

/// Puts the templates of a handle behind another one too, in place of what that has, and answers the status.
#[unsafe(no_mangle)]
pub extern "C" fn fastcat_set_share(alloc: Global, set: &mut Handle, other: &mut Handle) -> u32
    ensures answer { (done : Done) × WithKept (SharesSet other.old.value other.new.value)
        (other.new.value ≡ other.old.value) set.old.value done × (result ≡ (answer_of done).status) }
    ensures same { set.new.value ≡ set.old.value }
{
    let held = set.take(alloc);
    let answer = answer_of(share(alloc, &held, other));
    set.put(alloc, held);
    answer.status
}

/// Empties a handle. Its templates are freed where no other has them.
#[unsafe(no_mangle)]
pub extern "C" fn fastcat_set_free(alloc: Global, set: &mut Handle)
    ensures { set.new.value ≡ None }
{
    set.put(alloc, None);
}

/// Writes the canonical bytes of a stream into the front of a room, with the templates of a handle, and answers the
/// status. A room of as many bytes as the stream has holds them.
#[unsafe(no_mangle)]
pub extern "C" fn fastcat_set_canon(
    alloc: Global,
    set: &mut Handle,
    mode: u32,
    stream: &[u8],
    room: &mut [u8],
    answer: &mut Answer,
) -> u32
    ensures answer { (done : Done) × WithKept (λ s. CanonsOver s mode stream.now room.old room.new)
        (room.new ≡ room.old) set.old.value done × (answer.new ≡ answer_of done) × (result ≡ answer.new.status) }
    ensures same { set.new.value ≡ set.old.value }
    ensures room_enough { length stream.now ≤ length room.old → result ≢ 3 }
{
    let held = set.take(alloc);
    *answer = answer_of(canon_held(alloc, &held, mode, stream, room));
    set.put(alloc, held);
    answer.status
}

/// Counts the messages, the bytes and the canonical bytes of a stream, with the templates of a handle, and answers the
/// status.
#[unsafe(no_mangle)]
pub extern "C" fn fastcat_set_check(
    alloc: Global,
    set: &mut Handle,
    mode: u32,
    stream: &[u8],
    answer: &mut Answer,
) -> u32
    ensures answer { (done : Done) × WithKept (λ s. ChecksOver s mode stream.now) (Unit {0}) set.old.value done
        × (answer.new ≡ answer_of done) × (result ≡ answer.new.status) }
    ensures same { set.new.value ≡ set.old.value }
{
    let held = set.take(alloc);
    *answer = answer_of(check_held(alloc, &held, mode, stream));
    set.put(alloc, held);
    answer.status
}

/// Writes the lines of a stream into the front of a room, with the templates of a handle, and answers the status.
#[unsafe(no_mangle)]
pub extern "C" fn fastcat_set_show(
    alloc: Global,
    set: &mut Handle,
    mode: u32,
    stream: &[u8],
    room: &mut [u8],
    answer: &mut Answer,
) -> u32
    ensures answer { (done : Done) × WithKept (λ s. ShowsOver s mode stream.now room.old room.new)
        (room.new ≡ room.old) set.old.value done × (answer.new ≡ answer_of done) × (result ≡ answer.new.status) }
    ensures same { set.new.value ≡ set.old.value }
{
    let held = set.take(alloc);
    *answer = answer_of(show_held(alloc, &held, mode, stream, room));
    set.put(alloc, held);
    answer.status
}

/// Writes the canonical bytes of the messages of lines into the front of a room, with the templates of a handle, and
/// answers the status.
#[unsafe(no_mangle)]
pub extern "C" fn fastcat_set_write(
    alloc: Global,
    set: &mut Handle,
    mode: u32,
    lines: &[u8],
    room: &mut [u8],
    answer: &mut Answer,
) -> u32
    ensures answer { (done : Done) × WithKept (λ s. WritesOver s mode lines.now room.old room.new)
        (room.new ≡ room.old) set.old.value done × (answer.new ≡ answer_of done) × (result ≡ answer.new.status) }
    ensures same { set.new.value ≡ set.old.value }
{
    let held = set.take(alloc);
    *answer = answer_of(write_held(alloc, &held, mode, lines, room));
    set.put(alloc, held);
    answer.status
}
