//! What is canonicalised is shown in JSON and written back.

use crate::base::*;
use crate::serving::programs::{Ended, nothing, serve_case};
use std::alloc::AllocError;

/// Whether a command line has a word.
fn has_word(words: &[&str], wanted: &str) -> bool {
    for word in words {
        if *word == wanted {
            return true;
        }
    }
    false
}

/// Whether a stream is canonicalised whole and over devices that do not fail. (Of a recording that is refused `show` has
/// more than `canon`: the messages of the refused packet before its fault.)
fn is_canonicalised(case: &Case) -> bool {
    has_word(case.words, "canon")
        && (case.status == 0 || case.status == 1 && !has_word(case.words, "--packets"))
        && case.width == 4096
        && case.room.0 == usize::MAX
        && matches!(case.input_end, After::End)
}

/// The words of a command over the same templates, with the same flags and without a word.
fn with_flags<'a>(alloc: Global, of: &'a str, words: &[&'a str], but: &str) -> Tried<Vec<&'a str>> {
    let mut list = Vec::new(alloc);
    list.push("fastcat")?;
    list.push(of)?;
    for word in words.get(2..).unwrap_or(&[]) {
        if *word != but {
            list.push(*word)?;
        }
    }
    Ok(list)
}

/// What comes of a case. Where memory is refused, the test ends.
pub fn ended(alloc: Global, case: &Case) -> Tried<Ended> {
    let mut ended = nothing(alloc)?;
    serve_case(alloc, case, &mut ended);
    if ended.status == 3 {
        return Err(AllocError);
    }
    Ok(ended)
}

/// A stream that is canonicalised is shown in JSON, and these lines are written as its canonical bytes.
pub fn is_written_back(rt: &impl Abort, alloc: Global, case: &Case) -> Tried {
    if !is_canonicalised(case) {
        return Ok(());
    }
    let mut words = with_flags(alloc, "show", case.words, "")?;
    words.push("--json")?;
    let shown = ended(alloc, &case.of(&words, case.input))?;
    let words = with_flags(alloc, "write", case.words, STREAM)?;
    let written = ended(alloc, &case.of(&words, &shown.out))?;
    same_of(rt, &words, written.status, 0);
    same_of(rt, &words, written.out.as_slice(), case.out);
    Ok(())
}
