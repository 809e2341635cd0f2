//! Streams that are cut behind each of their bytes, over both kinds of entries.

use crate::base::*;
use crate::decoding::steps::Step::Finish;
use crate::decoding::steps::count_in;
use stream_rows::cuts::{CUTS, Cut};
use stream_rows::modes::in_each_mode;

// A stream that is cut behind so many bytes, in each mode.
fn is_cut(rt: &impl Abort, on: &Loaded, row: &Cut, count: usize) -> Tried {
    let front = row.front(count);
    let fault = front.truncated();
    let stream = &row.stream[..count.min(row.stream.len())];
    for given in &in_each_mode(on.alloc, stream, fault.is_some())? {
        let end = End::of(given.moved(fault));
        let steps = list! { Feed(&given.stream, Whole), Finish(end) };
        let messages = count_in(rt, on, given.mode, steps)?;
        same(rt, messages as u64, front.messages);
    }
    Ok(())
}

#[test]
fn streams_that_are_cut(rt: HostRuntime) -> Tried {
    let on = worked(&rt, rt.alloc())?;
    for row in CUTS {
        for count in 1..=row.missing.len() {
            is_cut(&rt, &on, row, count)?;
        }
    }
    Ok(())
}
