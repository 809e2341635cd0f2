//! Feeds a file to a decoder, so many bytes at a time, and says how many messages it had: what `bench/feeds.py` measures.
//!
//! `feed_bench TEMPLATES STREAM BYTES`. Status 0: the stream was accepted; 1: it was not; 2: the words, or the templates, are
//! none; 3: a file or memory failed.
#![tactic(auto)]

ghost use Rattle.std.specs.Prelude.{◌≤◌, ◌<◌};

use fast_build::Load;
use fast_decoder::Decoder;
use fast_dictionary::{Entries, SlotEntries};
use fast_stream::{Framing, Message, Mode};
use fast_template::TemplateSet;
use fast_wire::Level;
use std::alloc::Global;
use std::process::ExitCode;
use std::{env, fs, println};

/// The usual level, and no blocks.
const PLAIN: Mode = Mode {
    level: Level::Usual,
    framing: Framing::Plain,
};

/// The most bytes that a stream may have here.
const LIMIT: u64 = 1 << 40;

/// Why there is no number of messages.
enum Failure {
    /// The stream is refused.
    Refused,
    /// The words or the templates are.
    Words,
    /// A file or memory failed.
    Machine,
}

/// How many messages a decoder makes of a stream that it is fed so many bytes at a time.
fn feed_all<E: Entries>(
    decoder: &mut Decoder<'_, E>,
    stream: &[u8],
    size: usize,
    messages: &mut Vec<Message>,
) -> Result<usize, Failure>
    requires { 0 < size }
{
    let mut count = 0usize;
    for chunk in stream.chunks(size) {
        if decoder.fed() > LIMIT || chunk.len() as u64 > LIMIT {
            return Err(Failure::Words);
        }
        if decoder.feed(chunk, messages).is_err() {
            return Err(Failure::Refused);
        }
        count = count.saturating_add(messages.len());
        messages.clear();
    }
    match decoder.finish() {
        Ok(()) => Ok(count),
        Err(_) => Err(Failure::Refused),
    }
}

/// How many messages a stream has that is fed so many bytes at a time.
fn count(alloc: Global, set: &TemplateSet, stream: &[u8], size: usize) -> Result<usize, Failure>
    requires { 0 < size }
{
    let Ok(entries) = SlotEntries::new(alloc, set) else {
        return Err(Failure::Machine);
    };
    let mut decoder = Decoder::new(alloc, set, PLAIN, entries);
    let mut messages = Vec::new(alloc);
    feed_all(&mut decoder, stream, size, &mut messages)
}

/// The same of files.
fn run(rt: &HostRuntime) -> Result<usize, Failure> {
    let Ok(args) = env::args(rt) else {
        return Err(Failure::Machine);
    };
    let words: Vec<String> = match args.collect(rt.alloc()) {
        Ok(words) => words,
        Err(_) => return Err(Failure::Machine),
    };
    let [_, templates, stream, size] = words.as_slice() else {
        return Err(Failure::Words);
    };
    let Ok(size) = size.parse::<usize>() else {
        return Err(Failure::Words);
    };
    if size == 0 {
        return Err(Failure::Words);
    }
    let Ok(text) = fs::read(rt, templates.as_str()) else {
        return Err(Failure::Machine);
    };
    let Ok(bytes) = fs::read(rt, stream.as_str()) else {
        return Err(Failure::Machine);
    };
    match TemplateSet::from_json(rt.alloc(), &text) {
        Ok(set) => count(rt.alloc(), &set, &bytes, size),
        Err(_) => Err(Failure::Words),
    }
}

fn main(rt: HostRuntime) -> ExitCode {
    match run(&rt) {
        Ok(count) => {
            if println!(&rt; "{count}").is_ok() {
                ExitCode::from(0)
            } else {
                ExitCode::from(3)
            }
        }
        Err(Failure::Refused) => ExitCode::from(1),
        Err(Failure::Words) => ExitCode::from(2),
        Err(Failure::Machine) => ExitCode::from(3),
    }
}
