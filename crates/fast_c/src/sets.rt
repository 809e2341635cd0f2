//! What is done with the templates behind a handle.

ghost use Rattle.std.specs.Prelude.{◌≡◌, ◌≢◌, ◌≤◌, length, option_map};
ghost use Rattle.fast_slices.specs.Answers.{answer_of as answer_of_lem};
ghost use Rattle.fast_slices.specs.Calls.{CanonsOver, ChecksOver, ShowsOver};
ghost use Rattle.fast_slices.specs.Lines.{WritesOver};
ghost use Rattle.fast_c.specs.Sets.{KeepsText, SharesSet, WithKept};

use fast_kept::{Handle, Kept, SharedSet, set_in};
use fast_slices::{
    Counts, Refusal, canon_over, check_over, load, no_counts, show_over, write_over,
};
use std::alloc::Global;

/// What is behind a handle, while a call has it.
type Held = Option<Box<Kept>>;

/// Puts a share of a set behind a handle, in place of what it has.
fn keep(alloc: Global, set: SharedSet, handle: &mut Handle) -> Result<Counts, Refusal>
    ensures { SharesSet handle.old.value handle.new.value set result }
{
    match handle.keep(alloc, Kept::Set(set)) {
        Ok(()) => Ok(no_counts()),
        Err(_) => Err(Refusal::Memory),
    }
}

/// Puts the templates of a text behind a handle, in place of what it has.
pub(crate) fn keep_templates(
    alloc: Global,
    templates: &[u8],
    handle: &mut Handle,
) -> Result<Counts, Refusal>
    ensures { KeepsText templates.now handle.old.value handle.new.value result }
{
    let set = load(alloc, templates)?;
    match SharedSet::of(alloc, set) {
        Ok(set) => keep(alloc, set, handle),
        Err(_) => Err(Refusal::Memory),
    }
}

/// Puts another share of the set that is held behind a handle, in place of what it has.
pub(crate) fn share(alloc: Global, held: &Held, other: &mut Handle) -> Result<Counts, Refusal>
    ensures { WithKept (SharesSet other.old.value other.new.value) (other.new.value ≡ other.old.value)
        (option_map (λ b. b.value) held.now) result }
{
    let Some(set) = set_in(held) else {
        return Err(Refusal::Handle);
    };
    match set.share() {
        Ok(set) => keep(alloc, set, other),
        Err(_) => Err(Refusal::Memory),
    }
}

/// Writes the canonical bytes of a stream or of a recording, with the set that is held.
pub(crate) fn canon_held(
    alloc: Global,
    held: &Held,
    mode: u32,
    stream: &[u8],
    room: &mut [u8],
) -> Result<Counts, Refusal>
    ensures answer { WithKept (λ set. CanonsOver set mode stream.now room.old room.new) (room.new ≡ room.old)
        (option_map (λ b. b.value) held.now) result }
    ensures room_enough { length stream.now ≤ length room.old → (answer_of_lem result).status ≢ 3 }
{
    match set_in(held) {
        Some(set) => canon_over(alloc, set.set(), mode, stream, room),
        None => Err(Refusal::Handle),
    }
}

/// Writes the lines of a stream or of a recording, likewise.
pub(crate) fn show_held(
    alloc: Global,
    held: &Held,
    mode: u32,
    stream: &[u8],
    room: &mut [u8],
) -> Result<Counts, Refusal>
    ensures { WithKept (λ set. ShowsOver set mode stream.now room.old room.new) (room.new ≡ room.old)
        (option_map (λ b. b.value) held.now) result }
{
    match set_in(held) {
        Some(set) => show_over(alloc, set.set(), mode, stream, room),
        None => Err(Refusal::Handle),
    }
}

/// Counts what a stream or a recording carries, likewise.
pub(crate) fn check_held(
    alloc: Global,
    held: &Held,
    mode: u32,
    stream: &[u8],
) -> Result<Counts, Refusal>
    ensures { WithKept (λ set. ChecksOver set mode stream.now) (Unit {0})
        (option_map (λ b. b.value) held.now) result }
{
    match set_in(held) {
        Some(set) => check_over(alloc, set.set(), mode, stream),
        None => Err(Refusal::Handle),
    }
}

/// Writes the canonical bytes of the messages of lines, likewise.
pub(crate) fn write_held(
    alloc: Global,
    held: &Held,
    mode: u32,
    lines: &[u8],
    room: &mut [u8],
) -> Result<Counts, Refusal>
    ensures { WithKept (λ set. WritesOver set mode lines.now room.old room.new) (room.new ≡ room.old)
        (option_map (λ b. b.value) held.now) result }
{
    match set_in(held) {
        Some(set) => write_over(alloc, set.set(), mode, lines, room),
        None => Err(Refusal::Handle),
    }
}
