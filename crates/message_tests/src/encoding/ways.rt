//! Generated streams, and streams cut out of them, that are read and written at once, whole and in pieces: canonical bytes,
//! faults and places are those of a decoder and an encoder, of which each goes field by field.

ghost use Rattle.std.specs.Prelude.{◌≡◌, ◌<◌};

use crate::base::*;
use crate::encoding::relaying::Relaying;
use fast_decoder::Decoder;
use fast_encoder::{EncodeCause, Encoder};
use fast_field::{FieldFault, read_field};
use fast_machine::Machine;
use fast_template::{FieldPart, Flat, FlatTemplate, TemplateSet, part_needs_bit};
use fast_walk::Output;
use fast_wire::{Level, write_map};
use fast_writer::Writer;
use template_tests::generated::{Numbers, put_sent};

// More than the bytes of any stream here; a decoder asks how many it is fed.
const LONGEST: usize = 65_536;

// How many messages a stream has at most, and how often a field is tried.
const MESSAGES: u32 = 24;

const TRIES: u32 = 24;

// Templates with each operator, type and presence, and with decimals in parts.
const TEMPLATES: &str = r#"{"templates":[
{"name":"Numbers","id":1,"instructions":[{"kind":"uInt32","name":"NA","operator":"copy"},
 {"kind":"uInt32","name":"NB","presence":"optional","operator":"increment"},
 {"kind":"int32","name":"NC","operator":"delta"},
 {"kind":"int32","name":"ND","presence":"optional","operator":"default","value":"-3"},
 {"kind":"uInt64","name":"NE","presence":"optional"},{"kind":"uInt64","name":"NF","operator":"default","value":"7"},
 {"kind":"int64","name":"NG","presence":"optional","operator":"delta"},
 {"kind":"int64","name":"NH","operator":"increment","value":"5"},
 {"kind":"uInt32","name":"NI","operator":"constant","value":"9"},
 {"kind":"uInt32","name":"NJ","presence":"optional","operator":"constant","value":"9"},{"kind":"int32","name":"NK"},
 {"kind":"uInt64","name":"NL","presence":"optional","operator":"copy","value":"1"}]},
{"name":"Texts","id":2,"instructions":[{"kind":"string","name":"TA","operator":"delta"},
 {"kind":"string","name":"TB","presence":"optional","operator":"tail"},
 {"kind":"string","name":"TC","operator":"copy","value":"AB"},{"kind":"string","name":"TD","presence":"optional"},
 {"kind":"string","charset":"unicode","name":"TE","operator":"copy"},
 {"kind":"string","charset":"unicode","name":"TF","presence":"optional","operator":"delta"},
 {"kind":"byteVector","name":"TG","operator":"tail"},
 {"kind":"byteVector","name":"TH","presence":"optional","operator":"default","value":"4142"},
 {"kind":"string","name":"TI","presence":"optional","operator":"constant","value":"A"},
 {"kind":"byteVector","name":"TJ"}]},
{"name":"Decimals","id":3,"instructions":[{"kind":"decimal","name":"DA"},
 {"kind":"decimal","name":"DB","presence":"optional","operator":"copy"},
 {"kind":"decimal","name":"DC","operator":"delta"},
 {"kind":"decimal","name":"DD","presence":"optional","exponent":{"operator":"default","value":"-2"},"mantissa":{"operator":"delta"}},
 {"kind":"decimal","name":"DE","exponent":{"operator":"copy"},"mantissa":{"operator":"copy"}},
 {"kind":"decimal","name":"DF","presence":"optional","operator":"default","value":"15e-1"}]}]}"#;

// A message that is made: the bits that were asked for, and the bytes behind their map.
#[derive(Drop)]
struct Made {
    bits: Vec<bool>,
    body: Vec<u8>,
}

// Appends a part that has a reading, and answers whether its value is there; none where none was found.
fn append_part(
    alloc: Global,
    numbers: &mut Numbers,
    part: &FieldPart,
    entries: &mut MapEntries,
    made: &mut Made,
) -> Tried<Option<bool>> {
    let needs = part_needs_bit(part);
    for _ in 0..TRIES {
        let bit = !needs || numbers.below(2) > 0;
        let mut bytes = Vec::new(alloc);
        if bit {
            put_sent(part, numbers, &mut bytes)?;
        }
        let kept = entries.get(&part.key);
        match read_field(alloc, part, kept, bit, Level::Usual, &bytes, 0) {
            Err(FieldFault::Memory) => return Err(AllocError),
            Err(_) => {}
            Ok((value, after, next)) => {
                made.body.extend_from_slice(&bytes[..next])?;
                if needs {
                    made.bits.push(bit)?;
                }
                *entries.entry_mut(&part.key)? = after;
                return Ok(Some(value.is_some()));
            }
        }
    }
    Ok(None)
}

// Appends a field that has a reading; answers false where none was found.
fn append_field(
    alloc: Global,
    numbers: &mut Numbers,
    flat: &Flat,
    entries: &mut MapEntries,
    made: &mut Made,
) -> Tried<bool> {
    let there = match flat {
        Flat::Field { whole, .. } => append_part(alloc, numbers, whole, entries, made)?,
        Flat::Parts {
            exponent,
            mantissa,
            ..
        } => match append_part(alloc, numbers, exponent, entries, made)? {
            Some(true) => append_part(alloc, numbers, mantissa, entries, made)?,
            there => there,
        },
        Flat::Group { .. } | Flat::Sequence { .. } => None,
    };
    Ok(there.is_some())
}

// Appends a message that has a reading, its map at times longer than need be; answers false where none was found.
fn append_message(
    alloc: Global,
    numbers: &mut Numbers,
    id: u8,
    template: &FlatTemplate,
    entries: &mut MapEntries,
    stream: &mut Vec<u8>,
) -> Tried<bool>
    requires { id < 128 }
{
    let mut made = Made {
        bits: Vec::new(alloc),
        body: Vec::new(alloc),
    };
    made.bits.push(true)?;
    made.body.push(128 + id)?;
    for flat in &template.members {
        if !append_field(alloc, numbers, flat, entries, &mut made)? {
            return Ok(false);
        }
    }
    if write_map(&made.bits, stream).is_err() {
        return Err(AllocError);
    }
    if numbers.below(4) == 0
        && let Some(last) = stream.last_mut()
    {
        *last %= 128;
        stream.push(128)?;
    }
    stream.extend_from_slice(&made.body)?;
    Ok(true)
}

// Some messages that have a reading, one after the other.
fn generated(alloc: Global, numbers: &mut Numbers, set: &TemplateSet) -> Tried<Vec<u8>> {
    let mut entries = MapEntries::new(alloc);
    let mut stream = Vec::new(alloc);
    for _ in 0..MESSAGES {
        let id = 1 + numbers.below(3);
        match set.find(u32::from(id)) {
            Some(template)
                if append_message(alloc, numbers, id, template, &mut entries, &mut stream)? => {}
            _ => return Ok(stream),
        }
    }
    Ok(stream)
}

// What a decoder makes of a stream: the messages before its first fault, and that.
fn decoded(on: &Loaded, stream: &[u8]) -> Tried<(Vec<Message>, Option<Fault>)> {
    let mut decoder = Decoder::new(on.alloc, &on.set, PLAIN, slots_of(on)?);
    let mut messages = Vec::new(on.alloc);
    if stream.len() > LONGEST {
        return Err(AllocError);
    }
    let fault = match decoder.feed(stream, &mut messages) {
        Err(fault) => Some(fault),
        Ok(()) => decoder.finish().err(),
    };
    Ok((messages, granted(fault)?))
}

// The canonical bytes that an encoder makes of messages.
fn encoded(rt: &impl Abort, on: &Loaded, messages: &[Message]) -> Tried<Vec<u8>> {
    let mut encoder = Encoder::new(on.alloc, &on.set, slots_of(on)?);
    let mut canonical = Vec::new(on.alloc);
    for message in messages {
        if let Err(fault) = encoder.encode(message, &mut canonical) {
            same(rt, fault.cause, EncodeCause::Memory);
            return Err(AllocError);
        }
    }
    Ok(canonical)
}

// The first fault of a stream that a machine is fed in pieces of so many bytes.
fn fault_in_pieces(machine: &mut Relaying, stream: &[u8], size: usize) -> Tried<Option<Fault>>
    requires { 0 < size }
{
    for piece in stream.chunks(size) {
        if machine.fed() > LONGEST as u64 || piece.len() > LONGEST {
            return Err(AllocError);
        }
        if let Err(fault) = machine.feed(piece) {
            return granted(Some(fault));
        }
    }
    granted(machine.finish().err())
}

// A stream that is read and written at once has the canonical bytes, and the fault, of one that is decoded and encoded.
fn goes_both_ways(rt: &impl Abort, on: &Loaded, stream: &[u8]) -> Tried {
    let (messages, fault) = decoded(on, stream)?;
    let canonical = encoded(rt, on, &messages)?;
    for size in [LONGEST, 1, 2, 7] {
        let entries = slots_of(on)?;
        let mut machine = Machine::new(on.alloc, &on.set, PLAIN, Writer::new(on.alloc), entries);
        same(rt, fault_in_pieces(&mut machine, stream, size)?, fault);
        same(rt, machine.receiver.finished(), canonical.as_slice());
        same(rt, machine.messages(), messages.len() as u64);
    }
    Ok(())
}

// The same of a stream with another byte at a place, and of what stands in front of that.
fn goes_on_both_ways(rt: &impl Abort, on: &Loaded, stream: &[u8], at: usize, other: u8) -> Tried {
    let mut changed = stream.to_vec(on.alloc)?;
    if let Some(byte) = changed.get_mut(at) {
        *byte = other;
    }
    goes_both_ways(rt, on, &changed)?;
    goes_both_ways(rt, on, &stream[..at.min(stream.len())])
}

#[test]
fn generated_streams_go_the_same_both_ways(rt: HostRuntime) -> Tried {
    let on = loaded(&rt, rt.alloc(), TEMPLATES)?;
    let mut numbers = Numbers::new(2);
    let mut bytes = 0usize;
    for _ in 0..24u8 {
        let stream = generated(rt.alloc(), &mut numbers, &on.set)?;
        bytes = bytes.saturating_add(stream.len());
        goes_both_ways(&rt, &on, &stream)?;
        for _ in 0..6u8 {
            let at = stream.len().saturating_mul(usize::from(numbers.below(255))) / 255;
            goes_on_both_ways(&rt, &on, &stream, at, numbers.below(255))?;
        }
    }
    // (they are no streams of a message or two)
    same(&rt, bytes > 4096, true);
    Ok(())
}
