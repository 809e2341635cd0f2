//! Long streams, over both kinds of entries.

use crate::base::*;
use crate::decoding::steps::{Task, both_fulfil};
use crate::decoding::streams::both_read;
use stream_rows::long::{LONG, LONG_BARE, LONG_SEQUENCES, Long, MANY, stream_of};
use stream_rows::modes::{InMode, in_each_mode};
use stream_rows::sent::messages;
use template_tests::texts::BARE;

// How the bytes of a stream come.
#[derive(Clone, Copy)]
pub(crate) enum Coming {
    Whole,
    // In reads of 4,096 bytes, and whole.
    Reads,
    ByteByByte,
    // In each way that a short stream is tried in.
    EachWay,
}

// Whether what is wanted of a stream comes so.
fn comes(on: &Loaded, coming: Coming, given: &InMode, want: Want) -> Tried<bool> {
    let InMode { mode, stream, .. } = given;
    let whole = Task::Cut(stream, b"", want);
    match coming {
        Coming::Whole => both_fulfil(on, *mode, whole),
        Coming::Reads => {
            Ok(both_read(on, *mode, stream, 4096, want)? && both_fulfil(on, *mode, whole)?)
        }
        Coming::ByteByByte => both_read(on, *mode, stream, 1, want),
        Coming::EachWay => agrees(on, *mode, stream, want),
    }
}

// What is wanted of a plain stream comes so in all modes.
fn are_read(rt: &impl Abort, on: &Loaded, coming: Coming, plain: &[u8], want: Want) -> Tried {
    for given in &in_each_mode(on.alloc, plain, want.1.is_some())? {
        let want = Want(want.0, given.moved(want.1));
        same(rt, comes(on, coming, given, want)?, true);
    }
    Ok(())
}

fn is_read(rt: &impl Abort, on: &Loaded, coming: Coming, row: &Long) -> Tried {
    let plain = stream_of(on.alloc, row.pieces)?;
    let want = messages(on.alloc, row.want)?;
    are_read(rt, on, coming, &plain, Want(&want, row.end.fault()))
}

pub(crate) fn all_read(rt: &impl Abort, on: &Loaded, coming: Coming, rows: &[Long]) -> Tried {
    for row in rows {
        is_read(rt, on, coming, row)?;
    }
    Ok(())
}

#[test]
fn long_strings(rt: HostRuntime) -> Tried {
    let on = worked(&rt, rt.alloc())?;
    all_read(&rt, &on, Coming::Reads, LONG)
}

// Streams of many nodes: what canonicalise and check make of them is tested in reads.
#[test]
fn long_streams_of_elements(rt: HostRuntime) -> Tried {
    let on = worked(&rt, rt.alloc())?;
    all_read(&rt, &on, Coming::Whole, LONG_SEQUENCES)
}

#[test]
fn long_streams_of_empty_elements(rt: HostRuntime) -> Tried {
    let on = loaded(&rt, rt.alloc(), BARE)?;
    all_read(&rt, &on, Coming::Whole, LONG_BARE)
}

// The quotes of the stream of many: each has the next number and a price that is higher by one.
fn quotes(alloc: Global) -> Tried<Vec<Message>> {
    let mut messages = Vec::new(alloc);
    for number in 1..10_002u32 {
        let mut message = quote(alloc, b"AB", -2, 99 + i64::from(number))?;
        if let Some(first) = message.fields.first_mut() {
            *first = Node::Value(Scalar::U32(number));
        }
        messages.push(message)?;
    }
    Ok(messages)
}

fn quotes_are_read(rt: &impl Abort, on: &Loaded) -> Tried {
    let plain = stream_of(on.alloc, MANY)?;
    let want = quotes(on.alloc)?;
    are_read(rt, on, Coming::Reads, &plain, Want(&want, None))
}

#[test]
fn long_streams_of_many_messages(rt: HostRuntime) -> Tried {
    let on = worked(&rt, rt.alloc())?;
    quotes_are_read(&rt, &on)
}
