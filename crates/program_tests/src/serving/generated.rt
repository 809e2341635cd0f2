//! Generated streams that are shown in JSON and written back: plain, strictly, in blocks and in packets.

use crate::base::*;
use crate::serving::back::{ended, is_written_back};
use crate::serving::programs::CANON;
use crate::serving::strict::CANON_STRICTLY;
use crate::serving::{blocks, packets};

/// Messages of the worked templates that can be read from any entries that these leave.
const MESSAGES: &[&[u8]] = list! {
    b"\xf0\x81\x81\x41\xc2\x80\x00\xe4", b"\xf8\x81\x81\x41\xc2\x80\xff\x88", b"\xe0\x82\x85\x81", b"\xf0\x83\x80\x85",
    b"\xc0\x84\x80", b"\xc0\x84\x81", b"\xc0\x84\x83\x85\x01\xff", b"\xc0\x85\x82\xc0\x87\x80", b"\xc0\x86\x83",
    b"\xe0\x88\x61\xe2", b"\xc0\x8a\x80\x47\x45\x48\xb6", b"\xf0\x8b\xc0\x85\x86", b"\xd0\x8b\x86", b"\xc0\x8e",
    b"\xf0\x8e\x84", b"\xe0\x8f\x00\xe4\x83\x0a\xff", b"\xe0\x90\x85\x86"
};

/// A stream, and the same in blocks or packets of one message to three.
#[derive(Drop)]
struct Generated {
    plain: Vec<u8>,
    framed: Vec<u8>,
}

/// The next number of a row of numbers that look as if they were drawn.
fn next_of(number: u64) -> u64 {
    number
        .wrapping_mul(6_364_136_223_846_793_005)
        .wrapping_add(1_442_695_040_888_963_407)
}

/// A stream of so many runs of messages.
fn streams_of(alloc: Global, seed: u64, runs: u64) -> Tried<Generated> {
    let mut number = next_of(seed);
    let mut plain = Vec::new(alloc);
    let mut framed = Vec::new(alloc);
    for _ in 0..runs {
        let mut run = Vec::new(alloc);
        for _ in 0..=(number >> 50) % 3 {
            number = next_of(number);
            let place = (number >> 40) % 17;
            run.extend_from_slice(MESSAGES.get(place as usize).copied().unwrap_or(b""))?;
        }
        framed.push(u8::try_from(run.len()).unwrap_or(0) | 0x80)?;
        framed.extend_from_slice(&run)?;
        plain.extend_from_slice(&run)?;
    }
    Ok(Generated { plain, framed })
}

/// What a command line that canonicalises writes of a stream, which is accepted, is written back.
fn goes_back<'a>(rt: &impl Abort, alloc: Global, words: &'a [&'a str], input: &'a [u8]) -> Tried {
    let case = over(Templates::Worked).of(words, input);
    let made = ended(alloc, &case)?;
    same_of(rt, words, made.err.as_slice(), b"".as_slice());
    let out = &made.out;
    is_written_back(rt, alloc, &Case { out, ..case })
}

#[test]
fn generated_streams_go_back(rt: HostRuntime) -> Tried {
    for seed in 0..24 {
        let streams = streams_of(rt.alloc(), seed, 8)?;
        goes_back(&rt, rt.alloc(), CANON, &streams.plain)?;
        goes_back(&rt, rt.alloc(), CANON_STRICTLY, &streams.plain)?;
        goes_back(&rt, rt.alloc(), blocks::CANON, &streams.framed)?;
        goes_back(&rt, rt.alloc(), packets::CANON, &streams.framed)?;
    }
    Ok(())
}
