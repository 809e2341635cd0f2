//! Messages, and the calls that read one.

use crate::base::*;
use crate::decoding::steps::Step::{Fed, Finish, Held, Reset};
use crate::decoding::steps::{Step, count};
use stream_rows::quotes::QUOTE;
use stream_rows::sent::text;

// This text and nothing, in a vector with at least this much room.
fn texts(alloc: Global, characters: &[u8], room: usize) -> Tried<Vec<Node>> {
    let mut nodes = Vec::with_capacity(alloc, room)?;
    nodes.push(text(alloc, characters)?)?;
    nodes.push(Node::Absent)?;
    Ok(nodes)
}

// An empty group and a number.
fn others(alloc: Global) -> Tried<Vec<Node>> {
    Ok(vec![in alloc; Node::Group(Vec::new(alloc)), Node::Value(Scalar::U32(7))]?)
}

// Two elements, of which the first has this text, in vectors with at least this much room.
fn elements(alloc: Global, text: &[u8], room: usize) -> Tried<Vec<Vec<Node>>> {
    let mut elements = Vec::with_capacity(alloc, room)?;
    elements.push(texts(alloc, text, room)?)?;
    elements.push(others(alloc)?)?;
    Ok(elements)
}

// A message of them.
fn message(alloc: Global, text: &[u8], room: usize) -> Tried<Message> {
    let elements = elements(alloc, text, room)?;
    Ok(Message {
        template: 1,
        fields: vec![in alloc; Node::Sequence(elements)]?,
    })
}

// Whether a message of this text in vectors with at least this much room is equal to one.
fn equals(alloc: Global, one: &Message, text: &[u8], room: usize) -> Tried<bool> {
    let other = message(alloc, text, room)?;
    Ok(*one == other)
}

#[test]
fn messages_are_equal_by_their_contents(rt: HostRuntime) -> Tried {
    let one = message(rt.alloc(), b"GEM", 0)?;
    same(&rt, equals(rt.alloc(), &one, b"GEM", 9)?, true);
    same(&rt, equals(rt.alloc(), &one, b"GEM4", 0)?, false);
    Ok(())
}

const TAKEN: &[Step] = list! {
    Fed(0), Feed(QUOTE, Whole), Fed(8), Held(0), Finish(Whole)
};

// The stream gives this message alone, over both kinds of entries.
#[test]
fn a_stream_is_read(rt: HostRuntime) -> Tried {
    let want = quote(rt.alloc(), b"AB", -2, 100)?;
    let on = worked(&rt, rt.alloc())?;
    let messages = follow(&rt, &on, PLAIN, MapEntries::new(rt.alloc()), TAKEN)?;
    same(&rt, messages.len(), 1);
    same(&rt, messages.first(), Some(&want));
    let messages = follow(&rt, &on, PLAIN, slots_of(&on)?, TAKEN)?;
    same(&rt, messages.len(), 1);
    same(&rt, messages.first(), Some(&want));
    Ok(())
}

#[test]
fn a_stream_is_refused_and_begun_again(rt: HostRuntime) -> Tried {
    const REFUSED: End = At(D5, 1, 1, 0, 0);
    const STEPS: &[Step] = list! {
        Fed(0), Feed(&[0x80], REFUSED), Finish(REFUSED), Reset, Fed(0), Feed(QUOTE, Whole), Fed(8), Held(0),
        Finish(Whole)
    };
    same(&rt, count(&rt, rt.alloc(), STEPS)?, 1);
    Ok(())
}

// A stream that ends within the decimal, of which one byte has come.
#[test]
fn a_stream_that_is_cut_is_truncated(rt: HostRuntime) -> Tried {
    const STEPS: &[Step] = list! {
        Fed(0), Feed(&[0xF0, 0x81, 0x81, 0x41, 0xC2, 0xFE], Whole), Held(1), Finish(At(Truncated, 1, 5, 1, 3))
    };
    same(&rt, count(&rt, rt.alloc(), STEPS)?, 0);
    Ok(())
}
