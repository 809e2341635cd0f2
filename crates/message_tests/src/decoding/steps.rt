//! What a decoder is asked, one call behind the other.

ghost use Rattle.fast_walk.specs.Traversals.{ServesAll};

use crate::base::*;
use fast_decoder::{Decoder, Mode};

// A call, and what it answers.
#[derive(Clone, Copy)]
pub(crate) enum Step<'a> {
    Feed(&'a [u8], End),
    // A byte that is fed, whatever the answer, and so many bytes that are held behind it.
    Byte(u8, usize),
    Finish(End),
    Reset,
    Fed(u64),
    Held(usize),
}

// The messages of a stream, and then its fault, or none.
#[derive(Clone, Copy)]
pub(crate) struct Want<'a>(pub(crate) &'a [Message], pub(crate) Option<Fault>);

// A decoder, and the messages that it gave.
#[derive(Drop)]
struct Fed<'a, E: Entries> {
    decoder: Decoder<'a, E>,
    out: Vec<Message>,
}

// Whether a decoder that was fed little is fed these bytes with this fault, or none.
fn feeds<E: Entries>(fed: &mut Fed<E>, bytes: &[u8], end: End) -> Tried<bool> {
    if fed.decoder.fed() >= 100_000 || bytes.len() >= 100_000 {
        return Ok(false);
    }
    let fault = granted(fed.decoder.feed(bytes, &mut fed.out).err())?;
    Ok(fault == end.fault())
}

// Whether so many bytes are held after one byte more.
fn holds_behind<E: Entries>(fed: &mut Fed<E>, byte: u8, held: usize) -> Tried<bool> {
    if fed.decoder.fed() > 100_000 {
        return Ok(false);
    }
    granted(fed.decoder.feed(&[byte], &mut fed.out).err())?;
    Ok(fed.decoder.held() == held)
}

// Whether a fresh decoder is fed a stream that is cut in two with what is wanted.
fn is_cut_so<E: Entries>(fed: &mut Fed<E>, front: &[u8], back: &[u8], want: Want) -> Tried<bool> {
    fed.out.clear();
    if fed.decoder.fed() != 0 || front.len() > 100_000 || back.len() > 100_000 {
        return Ok(false);
    }
    let end = match fed.decoder.feed(front, &mut fed.out) {
        Err(fault) => Some(fault),
        Ok(()) => match fed.decoder.feed(back, &mut fed.out) {
            Err(fault) => Some(fault),
            Ok(()) => fed.decoder.finish().err(),
        },
    };
    Ok(granted(end)? == want.1 && fed.out.as_slice() == want.0)
}

fn takes<E: Entries>(fed: &mut Fed<E>, step: Step) -> Tried<bool> {
    match step {
        Step::Feed(bytes, end) => feeds(fed, bytes, end),
        Step::Byte(byte, held) => holds_behind(fed, byte, held),
        Step::Finish(end) => Ok(fed.decoder.finish().err() == end.fault()),
        Step::Reset => {
            fed.decoder.reset();
            Ok(true)
        }
        Step::Fed(count) => Ok(fed.decoder.fed() == count),
        Step::Held(count) => Ok(fed.decoder.held() == count),
    }
}

fn takes_all<E: Entries>(fed: &mut Fed<E>, steps: &[Step]) -> Tried<bool> {
    for step in steps {
        if !takes(fed, *step)? {
            return Ok(false);
        }
    }
    Ok(true)
}

// What a fresh decoder must do.
#[derive(Clone, Copy)]
pub(crate) enum Task<'a> {
    // Answer all steps so.
    Follow(&'a [Step<'a>]),
    // Give what is wanted of a stream that is cut in two.
    Cut(&'a [u8], &'a [u8], Want<'a>),
}

fn fulfils<E: Entries>(fed: &mut Fed<E>, task: Task) -> Tried<bool> {
    match task {
        Task::Follow(steps) => takes_all(fed, steps),
        Task::Cut(front, back, want) => is_cut_so(fed, front, back, want),
    }
}

// Whether a decoder does. Where memory was refused, it does after a reset, and the test ends.
fn fulfils_or_resets<E: Entries>(fed: &mut Fed<E>, task: Task) -> Tried<bool> {
    match fulfils(fed, task) {
        Ok(done) => Ok(done),
        Err(error) => {
            fed.decoder.reset();
            if fulfils(fed, task) == Ok(true) {
                Err(error)
            } else {
                Ok(false)
            }
        }
    }
}

// The messages of a decoder over these entries, where it does.
fn run_over<E: Entries>(on: &Loaded, mode: Mode, kept: E, task: Task) -> Tried<Option<Vec<Message>>>
    requires { ServesAll (E.serves kept) on.now.set }
{
    let decoder = Decoder::new(on.alloc, &on.set, mode, kept);
    let out = Vec::new(on.alloc);
    let mut fed = Fed { decoder, out };
    let done = fulfils_or_resets(&mut fed, task)?;
    Ok(if done { Some(fed.out) } else { None })
}

// Whether decoders over both kinds of entries do.
pub(crate) fn both_fulfil(on: &Loaded, mode: Mode, task: Task) -> Tried<bool> {
    let map = MapEntries::new(on.alloc);
    if run_over(on, mode, map, task)?.is_none() {
        return Ok(false);
    }
    Ok(run_over(on, mode, slots_of(on)?, task)?.is_some())
}

// The messages of a decoder that answers all steps so.
pub(crate) fn follow<E: Entries>(
    rt: &impl Abort,
    on: &Loaded,
    mode: Mode,
    entries: E,
    steps: &[Step],
) -> Tried<Vec<Message>>
    requires { ServesAll (E.serves entries) on.now.set }
{
    match run_over(on, mode, entries, Task::Follow(steps))? {
        Some(messages) => Ok(messages),
        None => panic!(rt; "not so"),
    }
}

// The number of messages of a decoder that answers all steps so, over both kinds of entries.
pub(crate) fn count_in(rt: &impl Abort, on: &Loaded, mode: Mode, steps: &[Step]) -> Tried<usize> {
    let messages = follow(rt, on, mode, MapEntries::new(on.alloc), steps)?;
    let others = follow(rt, on, mode, slots_of(on)?, steps)?;
    same(rt, others.as_slice() == messages.as_slice(), true);
    Ok(messages.len())
}

// The same of the worked templates and plain messages.
pub(crate) fn count(rt: &impl Abort, alloc: Global, steps: &[Step]) -> Tried<usize> {
    let on = worked(rt, alloc)?;
    count_in(rt, &on, PLAIN, steps)
}
