//! Worked streams in blocks through each command. What is written is plain.

use crate::base::*;
use crate::streams::{
    QUOTE_LINE, REFUSALS, ROWS, Refusal, Row, TWO_LINES, all_end, all_stop, gives, made_before,
    refused,
};
use stream_rows::modes::{BLOCKS, STRICT_BLOCKS};

#[test]
fn blocks_of_messages(rt: HostRuntime) -> Tried {
    const STREAMS: &[Row] = rows! { Row { stream, messages, lines, told, canonical }:
        b"", 0, "", "ok messages=0 bytes=0 canonical=0\n", b"";
        b"\x88\xf0\x81\x81\x41\xc2\xfe\x00\xe4", 1, QUOTE_LINE, "ok messages=1 bytes=9 canonical=8\n", QUOTE;
        b"\x8b\xf0\x81\x81\x41\xc2\xfe\x00\xe4\x80\x80\x81", 2, TWO_LINES, "ok messages=2 bytes=12 canonical=11\n",
            TWO_SHORT;
        b"\x88\xf0\x81\x81\x41\xc2\xfe\x00\xe4\x83\x80\x80\x81", 2, TWO_LINES, "ok messages=2 bytes=13 canonical=11\n",
            TWO_SHORT;
        b"\x00\x88\xf0\x81\x81\x41\xc2\xfe\x00\xe4", 1, QUOTE_LINE, "ok messages=1 bytes=10 canonical=8\n", QUOTE;
        b"\x90\xf0\x81\x81\x41\xc2\xfe\x00\xe4\xf8\x81\x82\x41\xc2\x80\x81\x80", 2, TWO_LINES,
            "ok messages=2 bytes=17 canonical=11\n", TWO_SHORT;
    };
    all_end(&rt, rt.alloc(), BLOCKS, STREAMS)
}

#[test]
fn blocks_that_are_refused(rt: HostRuntime) -> Tried {
    const USUALLY: &[Refusal] = rows! { Refusal { stream, messages, lines, canonical, cause, at }:
        b"\x80", 0, "", b"", Cause::D12, At(0, 0, 0);
        b"\x88\xf0\x81\x81\x41\xc2\xfe\x00\xe4\x80", 1, QUOTE_LINE, QUOTE, Cause::D12, At(9, 0, 0);
        b"\x87\xf0\x81\x81\x41\xc2\xfe\x00\xe4", 0, "", b"", Cause::BlockEnd, At(6, 1, 3);
        b"\x88\xf0\x81\x81\x41\xc2\xfe\x00", 0, "", b"", Cause::Truncated, At(6, 1, 3);
        b"\x89\xf0\x81\x81\x41\xc2\xfe\x00\xe4", 1, QUOTE_LINE, QUOTE, Cause::Truncated, At(9, 0, 0);
        b"\x89\xf0\x81\x81\x41\xc2\xfe\x00\xe4\x80", 1, QUOTE_LINE, QUOTE, Cause::BlockEnd, At(10, 1, 3);
        b"\x81\xc0", 0, "", b"", Cause::BlockEnd, At(2, 0, 0);
        b"\x81\x80", 0, "", b"", Cause::D5, At(2, 0, 0);
        b"\x88\xf0\x81\x81\x41\xc2\xfe\x00\xe4\x00\x00\x00\x00\x00\x00\x00\x00\x00\x00", 1, QUOTE_LINE, QUOTE,
            Cause::Limit, At(9, 0, 0);
        b"\x85\x00\x00\x00\x00\x00\x00\x00\x00\x00\x00", 0, "", b"", Cause::BlockEnd, At(1, 0, 0);
        b"\x84\xf0\x81\x81\x41\x84\xc2\xfe\x00\xe4", 0, "", b"", Cause::BlockEnd, At(4, 1, 2);
        b"\x02\x00\x00\x00\x00\x00\x00\x00\x00\x80\xf0\x81\x81\x41\xc2\xfe\x00\xe4", 1, QUOTE_LINE, QUOTE,
            Cause::Truncated, At(18, 0, 0);
        b"\x40\x00\x00\x00\x00\x00\x00\x00\x00\x80\xf0\x81\x81\x41\xc2\xfe\x00\xe4", 1, QUOTE_LINE, QUOTE,
            Cause::Truncated, At(18, 0, 0);
    };
    const STRICTLY: &[Refusal] = rows! { Refusal { stream, messages, lines, canonical, cause, at }:
        b"\x00\x88\xf0\x81\x81\x41\xc2\xfe\x00\xe4", 0, "", b"", Cause::R6, At(0, 0, 0);
        b"\x00\x80", 0, "", b"", Cause::R6, At(0, 0, 0);
        b"\x88\xf1\x81\x81\x41\xc2\xfe\x00\xe4", 0, "", b"", Cause::R8, At(9, 1, 0);
        b"\x88\xf0\x81\x81\x41\xc2\xfe\x00\xe4\x00\x83\x80\x80\x81", 1, QUOTE_LINE, QUOTE, Cause::R6, At(9, 0, 0);
    };
    all_stop(&rt, rt.alloc(), BLOCKS, USUALLY)?;
    all_stop(&rt, rt.alloc(), STRICT_BLOCKS, STRICTLY)
}

/// A stream in one block, whose size has one byte.
fn in_block(alloc: Global, size: usize, stream: &[u8]) -> Tried<Vec<u8>> {
    let mut block = Vec::new(alloc);
    match u8::try_from(size) {
        Ok(size) if size < 128 => {
            block.push(128 | size)?;
            block.extend_from_slice(stream)?;
            Ok(block)
        }
        _ => Err(AllocError),
    }
}

/// What each command makes of a stream in one block: what it makes of the plain one, but for the byte of the size.
fn ends_in_block(rt: &impl Abort, on: &Loaded, mode: Mode, row: &Row, step: usize) -> Tried {
    if row.stream.is_empty() {
        return Ok(());
    }
    let block = in_block(on.alloc, row.stream.len(), row.stream)?;
    let told = told(on.alloc, row.messages, block.len(), row.canonical.len())?;
    let texts = [row.lines.as_bytes(), told.as_bytes(), row.canonical];
    let made = made_of(row.messages, block.len(), texts);
    makes(rt, on, in_mode(mode, &block, step), made)
}

#[test]
fn worked_streams_in_blocks(rt: HostRuntime) -> Tried {
    let on = worked(&rt, rt.alloc())?;
    for row in ROWS {
        ends_in_block(&rt, &on, BLOCKS, row, 1)?;
        ends_in_block(&rt, &on, BLOCKS, row, 4096)?;
        let mut canonical = *row;
        canonical.stream = row.canonical;
        ends_in_block(&rt, &on, STRICT_BLOCKS, &canonical, 2)?;
    }
    Ok(())
}

/// The same of a stream that is refused. Its block has room for one byte more, so that it does not end too early.
fn stops_in_block(rt: &impl Abort, on: &Loaded, row: &Refusal, step: usize) -> Tried {
    let block = in_block(on.alloc, row.stream.len().saturating_add(1), row.stream)?;
    let At(offset, template, instruction) = row.at;
    let at = At(offset.saturating_add(1), template, instruction);
    let answer = refused(row.cause, row.messages.saturating_add(1), at);
    let made = made_before(row.lines.as_bytes(), row.canonical, answer);
    makes(rt, on, in_mode(BLOCKS, &block, step), made)
}

#[test]
fn worked_refusals_in_blocks(rt: HostRuntime) -> Tried {
    let on = worked(&rt, rt.alloc())?;
    for row in REFUSALS {
        stops_in_block(&rt, &on, row, 1)?;
        stops_in_block(&rt, &on, row, 4096)?;
    }
    Ok(())
}

// As many elements as there may be, each empty, in a block.
#[test]
fn a_long_message_in_a_block(rt: HostRuntime) -> Tried {
    let on = worked(&rt, rt.alloc())?;
    let given = in_mode(BLOCKS, b"\x85\xc0\x86\x03\x7f\xff", 2);
    let told = b"ok messages=1 bytes=6 canonical=5\n";
    gives(&rt, &on, given.to(Command::Check), told, counted(1, 6, 5))
}

#[test]
fn long_streams_in_blocks(rt: HostRuntime) -> Tried {
    let plain = stream_of(rt.alloc(), MANY)?;
    let on = worked(&rt, rt.alloc())?;
    // a block whose size has three bytes, and one for each message
    let one = &[
        (b"\x01\x6a\xb8".as_slice(), 1),
        (QUOTE, 1),
        (b"\x80\x80\x81", 10_000),
    ];
    let stream = stream_of(rt.alloc(), one)?;
    let given = in_mode(STRICT_BLOCKS, &stream, 4096).to(Command::Canon);
    gives(&rt, &on, given, &plain, counted(10_001, 30_011, 30_008))?;
    let each = &[
        (b"\x88".as_slice(), 1),
        (QUOTE, 1),
        (b"\x83\x80\x80\x81", 10_000),
    ];
    let stream = stream_of(rt.alloc(), each)?;
    let given = in_mode(STRICT_BLOCKS, &stream, 1000).to(Command::Canon);
    gives(&rt, &on, given, &plain, counted(10_001, 40_009, 30_008))
}
