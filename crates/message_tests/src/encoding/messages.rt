//! Messages through the calls of an encoder and of a stream of messages.

ghost use Rattle.fast_walk.specs.Traversals.{ServesAll};

use crate::base::*;
use crate::encoding::relaying::STREAMS;
use fast_encoder::{EncodeCause, EncodeFault, Encoder, MessageOutputStream};
use fast_io::{ByteOutput, Counted, ScriptOutput as Script};
use fast_template::UnicodeText;
use std::str::from_utf8;
use stream_rows::sent::text;

// The messages of a stream.
fn decoded(rt: &impl Abort, on: &Loaded, stream: &[u8]) -> Tried<Vec<Message>> {
    let steps = [Feed(stream, Whole)];
    follow(rt, on, PLAIN, MapEntries::new(on.alloc), &steps)
}

// Whether an answer is that of refused memory.
fn is_for_memory(answer: Result<(), EncodeFault>) -> bool {
    match answer {
        Ok(()) => false,
        Err(fault) => fault.cause == EncodeCause::Memory,
    }
}

// An encoder, and what it appended.
#[derive(Drop)]
struct Fed<'a, E: Entries> {
    encoder: Encoder<'a, E>,
    out: Vec<u8>,
}

// Whether an encoder answers this to a message. Where memory was refused, nothing was appended, the same call answers
// it, and the test ends.
fn answers<E: Entries>(
    fed: &mut Fed<E>,
    message: &Message,
    want: Result<(), EncodeFault>,
) -> Tried<bool> {
    let size = fed.out.len();
    let given = fed.encoder.encode(message, &mut fed.out);
    if !is_for_memory(given) {
        return Ok(given == want);
    }
    if fed.out.len() == size && fed.encoder.encode(message, &mut fed.out) == want {
        return Err(AllocError);
    }
    Ok(false)
}

// Whether all messages are encoded.
fn encodes_all<E: Entries>(fed: &mut Fed<E>, messages: &[Message]) -> Tried<bool> {
    for message in messages {
        if !answers(fed, message, Ok(()))? {
            return Ok(false);
        }
    }
    Ok(true)
}

// Whether a refusal leaves the entries as they were, and a reset makes them undefined, and what is written.
fn goes_on<E: Entries>(fed: &mut Fed<E>, long: &Message, short: &Message) -> Tried<bool> {
    const WANT: &[u8] = b"\xe0\x88\x78\x61\xe2\x80\xe0\x88\x78\x61\xe2";
    let first = answers(fed, long, Ok(()))?;
    let second = fed.encoder.encode(short, &mut fed.out).is_err();
    let third = answers(fed, long, Ok(()))?;
    fed.encoder.reset();
    let fourth = answers(fed, long, Ok(()))?;
    Ok(first && second && third && fourth && fed.out.as_slice() == WANT)
}

// What an encoder that is new must do.
#[derive(Clone, Copy)]
pub(crate) enum Task<'a> {
    // Give messages these canonical bytes.
    Encode(&'a [Message], &'a [u8]),
    // Refuse a message for this behind others, and append nothing.
    Refuse(&'a [Message], &'a Message, EncodeFault),
    // Go on with a long string behind a short one that it refuses.
    GoOn(&'a Message, &'a Message),
}

// Whether it does.
fn fulfils<E: Entries>(fed: &mut Fed<E>, task: &Task) -> Tried<bool> {
    match task {
        Task::Encode(messages, canonical) => {
            Ok(encodes_all(fed, messages)? && fed.out.as_slice() == *canonical)
        }
        Task::Refuse(before, message, fault) => {
            if !encodes_all(fed, before)? {
                return Ok(false);
            }
            let size = fed.out.len();
            Ok(answers(fed, message, Err(*fault))? && fed.out.len() == size)
        }
        Task::GoOn(long, short) => goes_on(fed, long, short),
    }
}

// The same over these entries.
fn fulfils_over<E: Entries>(on: &Loaded, entries: E, task: &Task) -> Tried<bool>
    requires { ServesAll (E.serves entries) on.now.set }
{
    let encoder = Encoder::new(on.alloc, &on.set, entries);
    let out = Vec::new(on.alloc);
    fulfils(&mut Fed { encoder, out }, task)
}

// Encoders over both kinds of entries do.
pub(crate) fn both_fulfil(rt: &impl Abort, on: &Loaded, task: &Task) -> Tried {
    let map = MapEntries::new(on.alloc);
    same(rt, fulfils_over(on, map, task)?, true);
    let slots = slots_of(on)?;
    same(rt, fulfils_over(on, slots, task)?, true);
    Ok(())
}

// The messages of a stream have these canonical bytes.
pub(crate) fn has_canonical(rt: &impl Abort, on: &Loaded, stream: &[u8], wanted: &[u8]) -> Tried {
    let messages = decoded(rt, on, stream)?;
    both_fulfil(rt, on, &Task::Encode(&messages, wanted))
}

#[test]
fn canonical_messages(rt: HostRuntime) -> Tried {
    let on = worked(&rt, rt.alloc())?;
    for row in STREAMS {
        if !row.refused {
            has_canonical(&rt, &on, row.stream, row.canonical)?;
        }
    }
    Ok(())
}

pub(crate) fn message(template: u32, fields: Vec<Node>) -> Message {
    Message { template, fields }
}

// A message of one string.
fn string(alloc: Global, template: u32, characters: &[u8]) -> Tried<Message> {
    let string = text(alloc, characters)?;
    Ok(message(template, vec![in alloc; string]?))
}

// The first nodes of a Quote with this symbol, whose exponent is out of its range.
fn far_quote(alloc: Global, symbol: &[u8], nodes: usize) -> Tried<Message> {
    let mut quote = quote(alloc, symbol, 64, 1)?;
    quote.fields.truncate(nodes);
    Ok(quote)
}

// The same with a symbol that is too long.
fn long_quote(alloc: Global, nodes: usize) -> Tried<Message> {
    let symbol = vec![in alloc; b'A'; 65_536]?;
    far_quote(alloc, &symbol, nodes)
}

// A message of constants with another first value.
fn constants(alloc: Global) -> Tried<Message> {
    let fields = vec![in alloc;
        Node::Value(Scalar::U32(8)),
        Node::Absent,
        Node::Value(Scalar::U32(3)),
    ]?;
    Ok(message(14, fields))
}

// A message whose decimal has another exponent than the constant one.
fn fixed(alloc: Global) -> Tried<Message> {
    let decimal = Scalar::Decimal {
        exponent: -1,
        mantissa: 100,
    };
    let fields = vec![in alloc; Node::Value(decimal), Node::Absent]?;
    Ok(message(15, fields))
}

// A message whose first field makes the entry empty that its second one needs.
fn emptied(alloc: Global) -> Tried<Message> {
    let fields = vec![in alloc; Node::Absent, Node::Value(Scalar::U32(5))]?;
    Ok(message(13, fields))
}

// A message of one character beyond ASCII.
fn unicode(alloc: Global) -> Tried<Message> {
    let value = UnicodeText::from_string("é".to_string(alloc)?);
    let fields = vec![in alloc; Node::Value(Scalar::Unicode(value))]?;
    Ok(message(12, fields))
}

// A message that is refused, in short.
#[derive(Clone, Copy)]
enum Odd {
    // Of no template.
    Unknown,
    // The first nodes of a Quote with this symbol and an exponent out of its range.
    Far(&'static [u8], usize),
    // The same with a symbol that is too long.
    Long(usize),
    Constants,
    Fixed,
    Emptied,
    Unicode,
    // A string that is shorter than its base.
    Short,
}

impl Odd {
    fn message(self, alloc: Global) -> Tried<Message> {
        match self {
            Odd::Unknown => Ok(message(100, Vec::new(alloc))),
            Odd::Far(symbol, nodes) => far_quote(alloc, symbol, nodes),
            Odd::Long(nodes) => long_quote(alloc, nodes),
            Odd::Constants => constants(alloc),
            Odd::Fixed => fixed(alloc),
            Odd::Emptied => emptied(alloc),
            Odd::Unicode => unicode(alloc),
            Odd::Short => string(alloc, 8, b"x"),
        }
    }
}

// A message, why it is refused, and the instruction.
struct Refused(Odd, EncodeCause, u32);

fn all_refused(rt: &impl Abort, on: &Loaded, before: &[Message], rows: &[Refused]) -> Tried {
    for Refused(odd, cause, instruction) in rows {
        let message = odd.message(on.alloc)?;
        let (cause, instruction) = (*cause, *instruction);
        let fault = EncodeFault { cause, instruction };
        both_fulfil(rt, on, &Task::Refuse(before, &message, fault))?;
    }
    Ok(())
}

#[test]
fn messages_that_are_refused(rt: HostRuntime) -> Tried {
    const ROWS: &[Refused] = rows! { Refused:
        // a message is judged before its fields
        Odd::Unknown, EncodeCause::D9, 0;
        Odd::Far(b"AB", 3), EncodeCause::Mismatch, 0;
        Odd::Far(b"A\x80", 4), EncodeCause::Mismatch, 0;
        Odd::Long(4), EncodeCause::Limit, 0;
        Odd::Long(3), EncodeCause::Mismatch, 0;
        // its template, shape and limits are as they must be, and the exponent of its decimal is out of its range
        Odd::Far(b"AB", 4), EncodeCause::R1, 3;
        Odd::Far(&[], 4), EncodeCause::R1, 3;
        // fields without a form
        Odd::Constants, EncodeCause::NotConstant, 1;
        Odd::Fixed, EncodeCause::D3, 1;
        Odd::Emptied, EncodeCause::D6, 2;
    };
    all_refused(&rt, &worked(&rt, rt.alloc())?, &[], ROWS)
}

// The same behind a message of a string.
#[test]
fn messages_that_are_refused_behind_another(rt: HostRuntime) -> Tried {
    const ROWS: &[Refused] = rows! { Refused:
        Odd::Unicode, EncodeCause::D4, 1;
        Odd::Short, EncodeCause::TooShort, 1;
    };
    let before = string(rt.alloc(), 8, b"xab")?;
    all_refused(&rt, &worked(&rt, rt.alloc())?, &[before], ROWS)
}

#[test]
fn a_refusal_changes_nothing(rt: HostRuntime) -> Tried {
    let long = string(rt.alloc(), 8, b"xab")?;
    let short = string(rt.alloc(), 8, b"x")?;
    let on = worked(&rt, rt.alloc())?;
    both_fulfil(&rt, &on, &Task::GoOn(&long, &short))
}

const WRITE: EncodeFault = EncodeFault {
    cause: EncodeCause::Write,
    instruction: 0,
};

// A stream of messages over a script.
type Output<'a, 'o> = MessageOutputStream<'a, Counted<&'o mut Script>, MapEntries>;

// Whether a write fails.
fn fails(stream: &mut Output, first: &Message) -> Tried<bool> {
    let answer = stream.write_message(first);
    if is_for_memory(answer) {
        return Err(AllocError);
    }
    Ok(answer == Err(WRITE))
}

// Whether a message is written. Where memory was refused, to the stream or to the writer, the test ends.
fn writes(stream: &mut Output, message: &Message) -> Tried<bool> {
    let answer = stream.write_message(message);
    if is_for_memory(answer) || answer == Err(WRITE) {
        return Err(AllocError);
    }
    Ok(answer.is_ok())
}

// What a stream of messages meets.
#[derive(Clone, Copy)]
enum Writer<'a> {
    // A writer that fails at this message: the failure is kept, also behind a reset.
    Fails(&'a Message),
    // A writer that takes all of these one behind the other, and the first anew behind a reset.
    Takes(&'a [Message]),
}

fn meets(stream: &mut Output, writer: Writer) -> Tried<bool> {
    match writer {
        Writer::Fails(first) => {
            let once = fails(stream, first)?;
            let twice = fails(stream, first)?;
            stream.reset();
            Ok(once && twice && fails(stream, first)?)
        }
        Writer::Takes(two) => {
            for message in two {
                if !writes(stream, message)? {
                    return Ok(false);
                }
            }
            stream.reset();
            match two.first() {
                Some(first) => writes(stream, first),
                None => Ok(false),
            }
        }
    }
}

// Whether a stream of messages that is new meets it.
fn writes_to(on: &Loaded, writer: Writer, out: &mut Script) -> Tried<bool> {
    let (counted, map) = (Counted::new(out), MapEntries::new(on.alloc));
    let mut stream = MessageOutputStream::new(on.alloc, counted, &on.set, map);
    meets(&mut stream, writer)
}

// A writer keeps failing, and has taken these bytes, or a front of them where its own memory was refused.
fn fails_on(rt: &impl Abort, on: &Loaded, first: &Message, mut out: Script, taken: &[u8]) -> Tried {
    same(rt, writes_to(on, Writer::Fails(first), &mut out)?, true);
    same(rt, taken.starts_with(out.bytes()), true);
    if out.bytes() != taken {
        return Err(AllocError);
    }
    Ok(())
}

#[test]
fn a_writer_that_fails(rt: HostRuntime) -> Tried {
    let on = worked(&rt, rt.alloc())?;
    let messages = decoded(&rt, &on, b"\xf0\x81\x81\x41\xc2\xfe\x00\xe4")?;
    match messages.first() {
        Some(first) => {
            let full = Script::new(rt.alloc(), 3, false, false);
            fails_on(&rt, &on, first, full, &[0xf0, 0x81, 0x81])?;
            let none = Script::new(rt.alloc(), 0, true, false);
            fails_on(&rt, &on, first, none, &[])
        }
        None => panic!(rt; "no message"),
    }
}

#[test]
fn a_writer_that_takes_all(rt: HostRuntime) -> Tried {
    const TWO: &[u8] = b"\xf0\x81\x81\x41\xc2\xfe\x00\xe4\x80\x80\x81";
    const WANT: &[u8] =
        b"\xf0\x81\x81\x41\xc2\xfe\x00\xe4\x80\x80\x81\xf0\x81\x81\x41\xc2\xfe\x00\xe4";
    let on = worked(&rt, rt.alloc())?;
    let two = decoded(&rt, &on, TWO)?;
    let mut out = Script::new(rt.alloc(), 100, false, false);
    let written = writes_to(&on, Writer::Takes(&two), &mut out);
    // also where memory was refused
    same(&rt, WANT.starts_with(out.bytes()), true);
    same(&rt, written?, true);
    same(&rt, out.bytes(), WANT);
    Ok(())
}

// The last digit of a number, as a character.
fn digit(number: u32) -> u8 {
    b'0' + (number % 10) as u8
}

// A mandatory copy field with this number in its name.
fn push_field(text: &mut Vec<u8>, number: u32) -> Tried {
    let digits = [
        digit(number / 1000),
        digit(number / 100),
        digit(number / 10),
        digit(number),
    ];
    if number > 0 {
        text.extend_from_slice(b",")?;
    }
    text.extend_from_slice(b"{\"kind\":\"uInt32\",\"operator\":\"copy\",\"name\":\"f")?;
    text.extend_from_slice(&digits)?;
    text.extend_from_slice(b"\"}")?;
    Ok(())
}

// A template of so many such fields.
fn wide_template(alloc: Global, fields: u32) -> Tried<Vec<u8>> {
    let mut text = Vec::new(alloc);
    text.extend_from_slice(b"{\"templates\":[{\"name\":\"Wide\",\"id\":1,\"instructions\":[")?;
    for number in 0..fields {
        push_field(&mut text, number)?;
    }
    text.extend_from_slice(b"]}]}")?;
    Ok(text)
}

// Its message, in which each field is 1.
fn wide_message(alloc: Global, fields: u32) -> Tried<Message> {
    let mut nodes = Vec::new(alloc);
    for _ in 0..fields {
        nodes.push(Node::Value(Scalar::U32(1)))?;
    }
    Ok(message(1, nodes))
}

#[test]
fn a_map_without_room(rt: HostRuntime) -> Tried {
    const LIMIT: EncodeFault = EncodeFault {
        cause: EncodeCause::Limit,
        instruction: 0,
    };
    let template = wide_template(rt.alloc(), 1792)?;
    let wide = wide_message(rt.alloc(), 1792)?;
    let on = loaded(&rt, rt.alloc(), from_utf8(&template).unwrap_or(""))?;
    let task = Task::Refuse(&[], &wide, LIMIT);
    let map = MapEntries::new(rt.alloc());
    same(&rt, fulfils_over(&on, map, &task)?, true);
    Ok(())
}
