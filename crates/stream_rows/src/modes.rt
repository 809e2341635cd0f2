//! How streams are read.

use fast_stream::{Fault, Framing, Mode};
use fast_wire::Level;
use std::alloc::Global;
use test_rows::Tried;

/// Plain messages, at the usual level.
pub const PLAIN: Mode = Mode {
    level: Level::Usual,
    framing: Framing::Plain,
};

/// Plain messages, at the strict level.
pub const STRICT: Mode = Mode {
    level: Level::Strict,
    framing: Framing::Plain,
};

/// Blocks, at the usual level.
pub const BLOCKS: Mode = Mode {
    level: Level::Usual,
    framing: Framing::Blocks,
};

/// Blocks, at the strict level.
pub const STRICT_BLOCKS: Mode = Mode {
    level: Level::Strict,
    framing: Framing::Blocks,
};

/// A stream as a mode has it: with so many bytes in front of the plain one.
#[derive(Drop)]
pub struct InMode {
    pub mode: Mode,
    pub stream: Vec<u8>,
    pub front: usize,
}

impl InMode {
    /// The fault of the plain stream, where this one has it.
    pub fn moved(&self, fault: Option<Fault>) -> Option<Fault> {
        let mut fault = fault?;
        fault.place.offset = fault.place.offset.saturating_add(self.front as u64);
        Some(fault)
    }
}

// A stream without a size.
fn plainly(alloc: Global, mode: Mode, plain: &[u8]) -> Tried<InMode> {
    Ok(InMode {
        mode,
        stream: plain.to_vec(alloc)?,
        front: 0,
    })
}

// The size of a block, in one byte or in three.
fn size_of(alloc: Global, size: usize) -> Tried<Vec<u8>> {
    let last = 128 | (size % 128) as u8;
    if size < 128 {
        return Ok(vec![in alloc; last]?);
    }
    Ok(vec![in alloc; (size / 16_384 % 128) as u8, (size / 128 % 128) as u8, last]?)
}

// A stream in one block that has room for so many bytes more.
fn in_block(alloc: Global, plain: &[u8], more: usize) -> Tried<InMode> {
    let mut stream = size_of(alloc, plain.len().saturating_add(more))?;
    let front = stream.len();
    stream.extend_from_slice(plain)?;
    Ok(InMode {
        mode: BLOCKS,
        stream,
        front,
    })
}

/// A stream in plain framing at both levels, and in one block. A stream that is refused has a block with room for one
/// byte more, so that it does not end too early.
pub fn in_each_mode(alloc: Global, plain: &[u8], is_refused: bool) -> Tried<Vec<InMode>> {
    let mut streams = Vec::new(alloc);
    streams.push(plainly(alloc, PLAIN, plain)?)?;
    streams.push(plainly(alloc, STRICT, plain)?)?;
    let more = if is_refused { 1 } else { 0 };
    streams.push(in_block(alloc, plain, more)?)?;
    Ok(streams)
}
