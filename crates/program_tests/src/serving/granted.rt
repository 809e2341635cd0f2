//! Answers where memory is refused: such an answer ends a test, so that one whose allocations fail in turn ends with want
//! of memory or with its rows.

use crate::base::*;
use crate::serving::programs::Ended;
use std::alloc::AllocError;

/// What is said where memory is refused.
const MEMORY: &[u8] = b"fault memory\n";

/// The first line of what is said, without the line feed.
fn first_line(said: &[u8]) -> Option<&[u8]> {
    for (i, byte) in said.iter().enumerate() {
        if *byte == b'\n' {
            return said.get(..i);
        }
    }
    None
}

/// Whether the first line is said that is to be said, and not all that is to be.
fn says_less(said: &[u8], wanted: &[u8]) -> bool {
    match (first_line(said), first_line(wanted)) {
        (Some(line), Some(wanted_line)) => line == wanted_line && said != wanted,
        (_, _) => false,
    }
}

/// Whether bytes stand in front of others, but for a line feed behind them, as hex text that is refused has one.
fn is_front(out: &[u8], whole: &[u8]) -> bool {
    match out.get(..out.len().saturating_sub(1)) {
        Some(front) if out.ends_with(b"\n") => whole.starts_with(front),
        _ => whole.starts_with(out),
    }
}

/// What is told of packets before it is said that memory was refused, where that is not to be said.
fn told_before<'a>(said: &'a [u8], wanted: &[u8]) -> Option<&'a [u8]> {
    if said.ends_with(MEMORY) && !wanted.ends_with(MEMORY) {
        said.get(..said.len().saturating_sub(MEMORY.len()))
    } else {
        None
    }
}

/// Whether a command line asks for an explanation.
fn asks_to_explain(words: &[&str]) -> bool {
    for word in words {
        if *word == "--explain" {
            return true;
        }
    }
    false
}

/// Ends a test where memory was refused. Where that is said, what was written and told is a front of what else would be. Where a
/// refusal is said but less is explained, all else is as it would be. Where nothing can be said, the status tells it.
pub fn granted(rt: &impl Abort, case: &Case, ended: &Ended) -> Tried {
    let (said, wanted) = (ended.err.as_slice(), case.err.as_bytes());
    if said.starts_with(MEMORY) && !wanted.starts_with(MEMORY) {
        same_of(rt, case.words, ended.status, 3);
        same_of(rt, case.words, is_front(&ended.out, case.out), true);
        return Err(AllocError);
    }
    if let Some(told) = told_before(said, wanted) {
        same_of(rt, case.words, ended.status, 3);
        same_of(rt, case.words, is_front(&ended.out, case.out), true);
        same_of(rt, case.words, wanted.starts_with(told), true);
        return Err(AllocError);
    }
    if asks_to_explain(case.words) && says_less(said, wanted) {
        same_of(rt, case.words, ended.status, case.status);
        same_of(rt, case.words, ended.out.as_slice(), case.out);
        return Err(AllocError);
    }
    if case.err_room.0 == 0 && ended.status == 3 && case.status != 3 {
        return Err(AllocError);
    }
    Ok(())
}
