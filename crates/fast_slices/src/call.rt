//! What a call does.

ghost use Rattle.std.specs.Prelude.{◌<◌, ◌≡◌, ◌^◌, length, IfErr, IfOk, Ok};
ghost use Rattle.fast_template.specs.TemplateSets.{IsSound};
ghost use Rattle.fast_slices.specs.Calls.{Asks, Canons, CanonsBy, CanonsOver, Checks, ChecksBy, ChecksOver, ChecksText, LoadsText, Prepares, RefusesAsked, RefusesCall, RefusesText, Shows, ShowsBy, ShowsOver};
ghost use Rattle.fast_slices.specs.Ways.{way_of as way_of_lem};

use crate::answer::{Counts, Refusal, no_counts};
use crate::recording::{canon_recording, check_recording, show_recording};
use crate::stream::{canon_with, check_with, of_stream, show_with};
use crate::way::{Reading, Way, way_of};
use fast_build::Load;
use fast_template::TemplateSet;
use fast_written::LoadCause;
use std::alloc::Global;

/// The most reads of a stream. Each that is used up gives a byte, so a stream with fewer bytes is read to its end.
pub(crate) const TURNS: u64 = 1 << 40;

/// The templates of a text.
///
/// # Errors
///
/// Where the text is refused, or memory.
pub fn load(alloc: Global, text: &[u8]) -> Result<TemplateSet, Refusal>
    ensures ok { IfOk result (λ set. LoadsText text.now (Ok set)) }
    ensures sound { IfOk result IsSound }
    ensures refused { IfErr result (RefusesText text.now) }
{
    match TemplateSet::from_json(alloc, text) {
        Ok(set) => {
            // Its clause says that the set is sound, which the laws of streams ask for.
            let _slots = set.slots();
            Ok(set)
        }
        Err(fault) if fault.cause == LoadCause::Memory => Err(Refusal::Memory),
        Err(fault) => Err(Refusal::Templates(fault)),
    }
}

/// Looks at what a call was given besides templates, in this order: what it is asked for, the size of what it is to read.
pub(crate) fn asked<A: Drop>(way: Option<A>, stream: &[u8]) -> Result<A, Refusal>
    ensures ok { IfOk result (Asks way stream.now) }
    ensures refused { IfErr result (RefusesAsked way stream.now) }
{
    let Some(way) = way else {
        return Err(Refusal::Mode);
    };
    if stream.len() as u64 >= TURNS {
        return Err(Refusal::TooLong);
    }
    Ok(way)
}

/// Looks at what a call was given, the templates last.
fn prepare(
    alloc: Global,
    templates: &[u8],
    word: u32,
    stream: &[u8],
) -> Result<(TemplateSet, Way), Refusal>
    ensures ok { IfOk result (λ p. Prepares (way_of_lem word) templates.now stream.now p.0 p.1) }
    ensures refused { IfErr result (RefusesCall (way_of_lem word) templates.now stream.now) }
{
    let way = asked(way_of(word), stream)?;
    let set = load(alloc, templates)?;
    Ok((set, way))
}

/// Writes the canonical bytes of a stream or of a recording.
fn canon_by(
    alloc: Global,
    set: &TemplateSet,
    way: Way,
    stream: &[u8],
    room: &mut [u8],
) -> Result<Counts, Refusal>
    requires sound { IsSound set.now }
    requires few { length stream.now < 2 ^ 40 }
    ensures { CanonsBy set.now way stream.now room.old room.new result }
{
    match way.reading {
        Reading::Stream(mode) => of_stream(canon_with(alloc, set, mode, stream, room)),
        Reading::Recording(level) => canon_recording(alloc, set, level, stream, room),
    }
}

/// Writes the lines of a stream or of a recording.
fn show_by(
    alloc: Global,
    set: &TemplateSet,
    way: Way,
    stream: &[u8],
    room: &mut [u8],
) -> Result<Counts, Refusal>
    requires sound { IsSound set.now }
    requires few { length stream.now < 2 ^ 40 }
    ensures { ShowsBy set.now way stream.now room.old room.new result }
{
    match way.reading {
        Reading::Stream(mode) => of_stream(show_with(alloc, set, mode, way.form, stream, room)),
        Reading::Recording(level) => show_recording(alloc, set, level, way.form, stream, room),
    }
}

/// Counts what a stream or a recording carries.
fn check_by(alloc: Global, set: &TemplateSet, way: Way, stream: &[u8]) -> Result<Counts, Refusal>
    requires sound { IsSound set.now }
    requires few { length stream.now < 2 ^ 40 }
    ensures { ChecksBy set.now way stream.now result }
{
    match way.reading {
        Reading::Stream(mode) => of_stream(check_with(alloc, set, mode, stream)),
        Reading::Recording(level) => check_recording(alloc, set, level, stream),
    }
}

/// Writes the canonical bytes of a stream or of a recording, with a set of templates.
pub fn canon_over(
    alloc: Global,
    set: &TemplateSet,
    word: u32,
    stream: &[u8],
    room: &mut [u8],
) -> Result<Counts, Refusal>
    ensures answer { CanonsOver set.now word stream.now room.old room.new result }
    ensures sound { IsSound set.now }
{
    // Its clause says that the set is sound, which the laws of streams ask for.
    let _slots = set.slots();
    let way = asked(way_of(word), stream)?;
    canon_by(alloc, set, way, stream, room)
}

/// Writes the lines of a stream or of a recording, with a set of templates.
pub fn show_over(
    alloc: Global,
    set: &TemplateSet,
    word: u32,
    stream: &[u8],
    room: &mut [u8],
) -> Result<Counts, Refusal>
    ensures { ShowsOver set.now word stream.now room.old room.new result }
{
    let _slots = set.slots();
    let way = asked(way_of(word), stream)?;
    show_by(alloc, set, way, stream, room)
}

/// Counts what a stream or a recording carries, with a set of templates.
pub fn check_over(
    alloc: Global,
    set: &TemplateSet,
    word: u32,
    stream: &[u8],
) -> Result<Counts, Refusal>
    ensures { ChecksOver set.now word stream.now result }
{
    let _slots = set.slots();
    let way = asked(way_of(word), stream)?;
    check_by(alloc, set, way, stream)
}

/// Writes the canonical bytes of a stream or of a recording, with the templates of a text.
pub fn canon(
    alloc: Global,
    templates: &[u8],
    word: u32,
    stream: &[u8],
    room: &mut [u8],
) -> Result<Counts, Refusal>
    ensures { Canons templates.now word stream.now room.old room.new result }
{
    let (set, way) = prepare(alloc, templates, word, stream)?;
    canon_by(alloc, &set, way, stream, room)
}

/// Writes the lines of a stream or of a recording, with the templates of a text.
pub fn show(
    alloc: Global,
    templates: &[u8],
    word: u32,
    stream: &[u8],
    room: &mut [u8],
) -> Result<Counts, Refusal>
    ensures { Shows templates.now word stream.now room.old room.new result }
{
    let (set, way) = prepare(alloc, templates, word, stream)?;
    show_by(alloc, &set, way, stream, room)
}

/// Counts what a stream or a recording carries, with the templates of a text.
pub fn check_stream(
    alloc: Global,
    templates: &[u8],
    word: u32,
    stream: &[u8],
) -> Result<Counts, Refusal>
    ensures { Checks templates.now word stream.now result }
{
    let (set, way) = prepare(alloc, templates, word, stream)?;
    check_by(alloc, &set, way, stream)
}

/// Checks a template text.
pub fn check_templates(alloc: Global, templates: &[u8]) -> Result<Counts, Refusal>
    ensures { ChecksText templates.now result }
{
    load(alloc, templates)?;
    Ok(no_counts())
}
