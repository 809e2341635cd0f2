//! The least and the greatest values, and groups and sequences in eight levels.

use crate::base::*;
use crate::lines::has_lines;
use stream_rows::extremes::{EXTREME_ROWS, EXTREMES, Extreme};
use stream_rows::nested::{NESTED, NESTED_ROWS};

// What each command makes of a stream, byte by byte and whole: these lines, and these canonical bytes.
fn is_made(
    rt: &impl Abort,
    on: &Loaded,
    stream: &[u8],
    messages: u64,
    (lines, canonical): (&[u8], &[u8]),
) -> Tried {
    let told = told(on.alloc, messages, stream.len(), canonical.len())?;
    let made = made_of(messages, stream.len(), [lines, told.as_bytes(), canonical]);
    makes(rt, on, plainly(stream, 1), made)?;
    makes(rt, on, plainly(stream, 4096), made)
}

// The same, and the lines are those of the messages that a decoder makes.
fn is_extreme(rt: &impl Abort, on: &Loaded, row: &Extreme) -> Result<(), Fail> {
    let stream = stream_of(on.alloc, row.stream)?;
    let canonical = stream_of(on.alloc, row.canonical)?;
    let lines = row.lines(on.alloc)?;
    is_made(rt, on, &stream, 4, (lines.as_bytes(), &canonical))?;
    has_lines(rt, on, Form::Text, &stream, lines.as_bytes())
}

#[test]
fn least_and_greatest_values(rt: HostRuntime) -> Result<(), Fail> {
    let on = loaded(&rt, rt.alloc(), EXTREMES)?;
    for row in EXTREME_ROWS {
        is_extreme(&rt, &on, row)?;
    }
    Ok(())
}

#[test]
fn eight_levels(rt: HostRuntime) -> Result<(), Fail> {
    let on = loaded(&rt, rt.alloc(), NESTED)?;
    for row in NESTED_ROWS {
        let (stream, lines) = (row.stream, row.lines.as_bytes());
        is_made(&rt, &on, stream, row.messages, (lines, stream))?;
        has_lines(&rt, &on, Form::Text, stream, lines)?;
    }
    Ok(())
}
