//! Streams in blocks: their sizes, where they end, and that each worked stream is the same in them.

use crate::base::*;
use crate::decoding::steps::Step;
use crate::decoding::steps::Step::{Byte, Fed, Finish, Held, Reset};
use crate::decoding::streams::{Row, all_read_in};
use fast_decoder::Decoder;
use stream_rows::modes::{BLOCKS, STRICT_BLOCKS};
use stream_rows::quotes::{BOTH, ONE, QUOTE};

#[test]
fn streams_in_blocks(rt: HostRuntime) -> Tried {
    const READ_BLOCKS: &[Row] = rows! { Row { stream, want, end }:
        // blocks of messages
        b"", &[], Whole;
        b"\x88\xF0\x81\x81\x41\xC2\xFE\x00\xE4", ONE, Whole;
        b"\x8B\xF0\x81\x81\x41\xC2\xFE\x00\xE4\x80\x80\x81", BOTH, Whole;
        b"\x88\xF0\x81\x81\x41\xC2\xFE\x00\xE4\x83\x80\x80\x81", BOTH, Whole;
        // a size may be longer than it must be
        b"\x00\x88\xF0\x81\x81\x41\xC2\xFE\x00\xE4", ONE, Whole;
        b"\x00\x00\x00\x00\x00\x00\x00\x00\x00\x88\xF0\x81\x81\x41\xC2\xFE\x00\xE4", ONE, Whole;
        b"\x88\xF0\x81\x81\x41\xC2\xFE\x00\xE4\x00\x00\x83\x80\x80\x81", BOTH, Whole;
        // sizes
        b"\x80", &[], At(D12, 1, 0, 0, 0);
        b"\x88\xF0\x81\x81\x41\xC2\xFE\x00\xE4\x80", ONE, At(D12, 2, 9, 0, 0);
        b"\x00\x80", &[], At(D12, 1, 0, 0, 0);
        b"\x00\x00\x00\x00\x00\x00\x00\x00\x00\x80", &[], At(D12, 1, 0, 0, 0);
        b"\x00", &[], At(Truncated, 1, 0, 0, 0);
        b"\x00\x00\x00\x00\x00\x00\x00\x00\x00", &[], At(Truncated, 1, 0, 0, 0);
        b"\x00\x00\x00\x00\x00\x00\x00\x00\x00\x00", &[], At(Limit, 1, 0, 0, 0);
        b"\x88\xF0\x81\x81\x41\xC2\xFE\x00\xE4\x00\x00", ONE, At(Truncated, 2, 9, 0, 0);
        b"\x88\xF0\x81\x81\x41\xC2\xFE\x00\xE4\x00\x00\x00\x00\x00\x00\x00\x00\x00", ONE, At(Truncated, 2, 9, 0, 0);
        b"\x88\xF0\x81\x81\x41\xC2\xFE\x00\xE4\x00\x00\x00\x00\x00\x00\x00\x00\x00\x00", ONE, At(Limit, 2, 9, 0, 0);
        // of 2^63, 2^64, 2^69 and the greatest
        b"\x01\x00\x00\x00\x00\x00\x00\x00\x00\x80\xF0\x81\x81\x41\xC2\xFE\x00\xE4", ONE, At(Truncated, 2, 18, 0, 0);
        b"\x02\x00\x00\x00\x00\x00\x00\x00\x00\x80\xF0\x81\x81\x41\xC2\xFE\x00\xE4", ONE, At(Truncated, 2, 18, 0, 0);
        b"\x40\x00\x00\x00\x00\x00\x00\x00\x00\x80\xF0\x81\x81\x41\xC2\xFE\x00\xE4\x80\x80", ONE,
            At(Truncated, 2, 19, 1, 3);
        b"\x7F\x7F\x7F\x7F\x7F\x7F\x7F\x7F\x7F\xFF\xF0\x81\x81\x41\xC2\xFE\x00\xE4\x80\x80\x81", BOTH,
            At(Truncated, 3, 21, 0, 0);
        b"\x40\x00\x00\x00\x00\x00\x00\x00\x00\x80\x80", &[], At(D5, 1, 11, 0, 0);
        // ends of blocks
        b"\x87\xF0\x81\x81\x41\xC2\xFE\x00\xE4", &[], At(BlockEnd, 1, 6, 1, 3);
        b"\x88\xF0\x81\x81\x41\xC2\xFE\x00", &[], At(Truncated, 1, 6, 1, 3);
        b"\x89\xF0\x81\x81\x41\xC2\xFE\x00\xE4", ONE, At(Truncated, 2, 9, 0, 0);
        b"\x89\xF0\x81\x81\x41\xC2\xFE\x00\xE4\x80", ONE, At(BlockEnd, 2, 10, 1, 3);
        b"\x88\xF0\x81\x81\x41\xC2\xFE\x00\xE4\x82\x80\x80", ONE, At(BlockEnd, 2, 11, 1, 3);
        // a message does not go on in the next block
        b"\x84\xF0\x81\x81\x41\x84\xC2\xFE\x00\xE4", &[], At(BlockEnd, 1, 4, 1, 2);
        // a piece that needs a byte where none is left
        b"\x81\xC0", &[], At(BlockEnd, 1, 2, 0, 0);
        b"\x82\xF0\x81", &[], At(BlockEnd, 1, 3, 1, 1);
        // and one that needs none
        b"\x81\x80", &[], At(D5, 1, 2, 0, 0);
        b"\x82\xC0\x81", &[], At(D5, 1, 3, 1, 1);
        b"\x82\xC0\xE4", &[], At(D9, 1, 2, 0, 0);
        // a map, an integer, and the bytes of a vector that do not end in their block
        b"\x85\x00\x00\x00\x00\x00\x00\x00\x00\x00\x00", &[], At(BlockEnd, 1, 1, 0, 0);
        b"\x8A\x00\x00\x00\x00\x00\x00\x00\x00\x00\x00", &[], At(BlockEnd, 1, 1, 0, 0);
        b"\x8B\x00\x00\x00\x00\x00\x00\x00\x00\x00\x00", &[], At(Truncated, 1, 1, 0, 0);
        b"\x83\xF0\x81\x00", &[], At(BlockEnd, 1, 3, 1, 1);
        b"\x84\xF0\x81\x00", &[], At(Truncated, 1, 3, 1, 1);
        b"\x87\xF0\x81\x00\x00\x00\x00\x00\x00\x00\x00\x00\x00", &[], At(BlockEnd, 1, 3, 1, 1);
        b"\x8B\xF0\x81\x00\x00\x00\x00\x00\x00\x00\x00\x00", &[], At(BlockEnd, 1, 3, 1, 1);
        b"\x8C\xF0\x81\x00\x00\x00\x00\x00\x00\x00\x00\x00", &[], At(Truncated, 1, 3, 1, 1);
        b"\x8C\xF0\x81\x00\x00\x00\x00\x00\x00\x00\x00\x00\x00", &[], At(Limit, 1, 3, 1, 1);
        b"\x86\xE0\x8F\x00\xE4\x83\x0A\xFF", &[], At(BlockEnd, 1, 5, 15, 2);
        // a length is judged before its bytes
        b"\x85\xC0\x84\x04\x00\x81", &[], At(Limit, 1, 3, 4, 1);
        b"\x84\xC0\x84\x04\x00\x81", &[], At(BlockEnd, 1, 3, 4, 1);
        // the map of an element and of a group
        b"\x83\xC0\x85\x82\xC0", &[], At(BlockEnd, 1, 4, 5, 1);
        b"\x82\xF0\x8B\xC0\x85\x86", &[], At(BlockEnd, 1, 3, 11, 1);
    };
    const READ_STRICT_BLOCKS: &[Row] = rows! { Row { stream, want, end }:
        // strict blocks
        b"\x88\xF0\x81\x81\x41\xC2\xFE\x00\xE4", ONE, Whole;
        b"\x88\xF0\x81\x81\x41\xC2\xFE\x00\xE4\x83\x80\x80\x81", BOTH, Whole;
        b"\x00\x88\xF0\x81\x81\x41\xC2\xFE\x00\xE4", &[], At(R6, 1, 0, 0, 0);
        b"\x00\x80", &[], At(R6, 1, 0, 0, 0);
        b"\x80", &[], At(D12, 1, 0, 0, 0);
        b"\x00\x00\x00\x00\x00\x00\x00\x00\x00\x88\xF0\x81\x81\x41\xC2\xFE\x00\xE4", &[], At(R6, 1, 0, 0, 0);
        b"\x00\x00\x00\x00\x00\x00\x00\x00\x00\x00", &[], At(Limit, 1, 0, 0, 0);
        b"\x00", &[], At(Truncated, 1, 0, 0, 0);
        b"\x88\xF0\x81\x81\x41\xC2\xFE\x00\xE4\x00\x83\x80\x80\x81", ONE, At(R6, 2, 9, 0, 0);
        b"\x8A\xF0\x81\x00\x00\x81\x41\xC2\xFE\x00\xE4", &[], At(R6, 1, 3, 1, 1);
        b"\x8A\x70\x00\x80\x81\x81\x41\xC2\xFE\x00\xE4", &[], At(R7, 1, 1, 0, 0);
        // the end of a message needs no byte
        b"\x88\xF1\x81\x81\x41\xC2\xFE\x00\xE4", &[], At(R8, 1, 9, 1, 0);
        b"\x8B\xF0\x81\x81\x41\xC2\xFE\x00\xE4\x81\x80\x81", ONE, At(R8, 2, 12, 1, 0);
        b"\x87\xF1\x81\x81\x41\xC2\xFE\x00\xE4", &[], At(BlockEnd, 1, 6, 1, 3);
        // an overlong entity that ends in its block and one that does not
        b"\x84\xF0\x81\x00\x80", &[], At(R6, 1, 3, 1, 1);
        b"\x83\xF0\x81\x00\x80", &[], At(BlockEnd, 1, 3, 1, 1);
    };
    all_read_in(&rt, rt.alloc(), BLOCKS, READ_BLOCKS)?;
    all_read_in(&rt, rt.alloc(), STRICT_BLOCKS, READ_STRICT_BLOCKS)
}

// A size is held, and no byte between two blocks; `finish` is refused inside a block, and a reset begins outside of one.
#[test]
fn held_in_blocks(rt: HostRuntime) -> Tried {
    const STEPS: &[Step] = list! {
        Byte(0x00, 1), Byte(0x00, 2), Fed(2), Byte(0x89, 0), Fed(3), Feed(QUOTE, Whole), Held(0), Fed(11),
        Finish(At(Truncated, 2, 11, 0, 0)), Reset, Fed(0), Byte(0x88, 0), Feed(QUOTE, Whole), Finish(Whole),
        Byte(0x88, 0), Byte(0x80, 0), Byte(0x80, 1), Byte(0x00, 2), Fed(13), Finish(At(Truncated, 2, 11, 1, 3)), Reset,
        // a size that has not come whole
        Byte(0x40, 1), Byte(0x00, 2), Held(2), Finish(At(Truncated, 1, 0, 0, 0)), Held(0), Fed(2), Reset,
        // a block that ends inside a message
        Byte(0x81, 0), Feed(b"\xC0", At(BlockEnd, 1, 2, 0, 0)), Held(0), Feed(b"\x88", At(BlockEnd, 1, 2, 0, 0)), Reset,
        Byte(0x80, 0), Finish(At(D12, 1, 0, 0, 0))
    };
    let on = worked(&rt, rt.alloc())?;
    let map = MapEntries::new(rt.alloc());
    let messages = follow(&rt, &on, BLOCKS, map, STEPS)?;
    same(&rt, messages.len(), 2);
    Ok(())
}

// Appends a block with a size of one byte.
fn push_block(out: &mut Vec<u8>, size: usize, bytes: &[u8]) -> Tried {
    match u8::try_from(size) {
        Ok(size) if size < 128 => {
            out.push(128 | size)?;
            out.extend_from_slice(bytes)
        }
        _ => Err(AllocError),
    }
}

// The same fault behind so many sizes of one byte.
fn moved(fault: Option<Fault>, sizes: u64) -> Option<Fault> {
    let mut fault = fault?;
    fault.place.offset = fault.place.offset.saturating_add(sizes);
    Some(fault)
}

// All these bytes.
fn joined(alloc: Global, pieces: &[&[u8]]) -> Tried<Vec<u8>> {
    let mut whole = Vec::new(alloc);
    for piece in pieces {
        whole.extend_from_slice(piece)?;
    }
    Ok(whole)
}

// A block for each message. The last has room for so many bytes more.
fn block_each(alloc: Global, pieces: &[&[u8]], more: usize) -> Tried<Vec<u8>> {
    let mut stream = Vec::new(alloc);
    for (i, piece) in pieces.iter().enumerate() {
        let more = if pieces.len() - i == 1 { more } else { 0 };
        push_block(&mut stream, piece.len().saturating_add(more), piece)?;
    }
    Ok(stream)
}

// The messages of a plain stream, and how it ends.
fn plain_read(on: &Loaded, plain: &[u8], want: &mut Vec<Message>) -> Tried<Option<Fault>> {
    let mut decoder = Decoder::new(on.alloc, &on.set, PLAIN, MapEntries::new(on.alloc));
    if decoder.fed() != 0 || plain.len() > 100_000 {
        return Ok(None);
    }
    granted(match decoder.feed(plain, want) {
        Err(fault) => Some(fault),
        Ok(()) => decoder.finish().err(),
    })
}

// Whether messages, the last of which may be refused, are the same in one block, and in a block each, as they are in the
// plain stream. A block that is refused has room for one byte more, so that none ends too early.
fn same_in_blocks(on: &Loaded, pieces: &[&[u8]]) -> Tried<bool> {
    let plain = joined(on.alloc, pieces)?;
    let mut want = Vec::new(on.alloc);
    let fault = plain_read(on, &plain, &mut want)?;
    let more = if fault.is_some() { 1 } else { 0 };
    let mut block = Vec::new(on.alloc);
    push_block(&mut block, plain.len().saturating_add(more), &plain)?;
    let blocks = block_each(on.alloc, pieces, more)?;
    let in_one = Want(&want, moved(fault, 1));
    let in_each = Want(&want, moved(fault, pieces.len() as u64));
    Ok(agrees(on, BLOCKS, &block, in_one)? && agrees(on, BLOCKS, &blocks, in_each)?)
}

fn all_same_in_blocks(rt: &impl Abort, alloc: Global, rows: &[&[&[u8]]]) -> Tried {
    let on = worked(rt, alloc)?;
    for pieces in rows {
        same(rt, same_in_blocks(&on, pieces)?, true);
    }
    Ok(())
}

#[test]
fn worked_streams_in_blocks(rt: HostRuntime) -> Tried {
    // the messages of each stream
    const ROWS: &[&[&[u8]]] = rows! {
        &[b"\xF0\x81\x81\x41\xC2\xFE\x00\xE4"];
        &[b"\xF0\x81\x81\x41\xC2\xFE\x00\xE4", b"\xF8\x81\x82\x41\xC2\x80\x81\x80"];
        &[b"\xF0\x81\x81\x41\xC2\xFE\x00\xE4", b"\x80\x80\x81"];
        &[b"\x80"];
        &[b"\xC0\xE4"];
        &[b"\xF0"];
        &[b"\xF0\x81"];
        &[b"\xF0\x81\x81"];
        &[b"\xF0\x81\x81\x41"];
        &[b"\xF0\x81\x81\x41\xC2"];
        &[b"\xF0\x81\x81\x41\xC2\xFE"];
        &[b"\xF0\x81\x81\x41\xC2\xFE\x00"];
        &[b"\xF0\x81\x00\x00\x81\x41\xC2\xFE\x00\xE4"];
        &[b"\xC0\x8A\x80\x47\x45\x48\xB6", b"\x80\x82\x4D\xB6", b"\x80\xFD\x45\xD3"];
        &[b"\xC0\x8A\x80\x47\x45\x48\xB6", b"\x80\x82\x4D\xB6", b"\x80\xFD\x45\xD3", b"\x80\x85\x80"];
        &[b"\xC0\x8A\x80\x47\x45\x48\xB6", b"\x80\x82\x4D\xB6", b"\x80\xFD\x45\xD3", b"\x80\xFF\x80"];
        &[b"\xE0\x88\x78\x61\xE2", b"\xA0\x00\x00\x00\xE2"];
        &[b"\xE0\x89\x80", b"\xA0\x00\x80"];
        &[b"\xE0\x82\x0F\x7F\x7F\x7F\xFF\x0F\x7F\x7F\x7F\xFF", b"\x80\x80", b"\x80\x81"];
        &[b"\xF0\x83\x80\x85", b"\x90\x39\x45\xA3"];
        &[b"\xF0\x83\x80\x85", b"\xB0\x83\x39\x45\xA3"];
        &[b"\xC0\x84\x80", b"\x80\x81", b"\x80\x83\x85\x86"];
        &[b"\xC0\x85\x82\xC0\x85\x80"];
        &[b"\xC0\x84\x04\x00\x81"];
        &[b"\xF0\x87\x85\xC1", b"\x80"];
        &[b"\xF0\x87\x85\xC1", b"\xB0\x86\xC1"];
        &[b"\x70\x00\x80\x81\x81\x41\xC2\xFE\x00\xE4"];
        &[b"\xF1\x81\x81\x41\xC2\xFE\x00\xE4"];
        &[b"\xE0\x90\x85\x86", b"\xE0\x90\x87\x86"];
        &[b"\xF0\x8B\xC0\x85\x86", b"\x80", b"\xA0\x80"];
        &[b"\xE0\x8C\x82\xC3\xA9", b"\xA0\x81\xA8", b"\xA0\x81\x41"];
        &[b"\xC0\x8D\x85"];
        &[b"\xE0\x8E", b"\x80", b"\x90\x83", b"\x90\x10\x00\x00\x00\x80"];
        &[b"\xE0\x8F\x00\xE4\x83\x0A\xFF", b"\x80\x81"];
        &[b"\xF0\x81\x81\x41\xC2\x00\xC0"];
        &[b"\xF0\x81\x00\x00\x00\x00\x00\x00\x00\x00\x00"];
        &[b"\xF0\x81\x00\x00\x00\x00\x00\x00\x00\x00\x00\x00"];
    };
    all_same_in_blocks(&rt, rt.alloc(), ROWS)
}
