//! Lines of messages of the worked templates, and messages that have none.

use crate::base::*;
use crate::streams::{REFUSALS, ROWS};
use fast_command::{ShowFault, show_line};
use fast_decoder::Decoder;
use fast_dictionary::MapEntries;
use fast_stream::{Message, Node};
use fast_template::Scalar;
use stream_rows::sent::text;

/// The lines of the messages of a stream, each of which is at hand.
pub(crate) fn lines_of(on: &Loaded, form: Form, stream: &[u8]) -> Result<Vec<u8>, Fail> {
    let mut decoder = Decoder::new(on.alloc, &on.set, PLAIN, MapEntries::new(on.alloc));
    let (mut messages, mut lines) = (Vec::new(on.alloc), Vec::new(on.alloc));
    if decoder.fed() == 0 {
        decoder.feed(&stream[..stream.len().min(1_000_000)], &mut messages)?;
    }
    for message in messages.iter() {
        show_line(form, &on.set, message, &mut lines)?;
    }
    Ok(lines)
}

/// These are the lines of a stream in this form.
pub(crate) fn has_lines(
    rt: &impl Abort,
    on: &Loaded,
    form: Form,
    stream: &[u8],
    lines: &[u8],
) -> Result<(), Fail> {
    same(rt, lines_of(on, form, stream)?.as_slice(), lines);
    Ok(())
}

#[test]
fn worked_streams_have_their_lines(rt: HostRuntime) -> Result<(), Fail> {
    let on = worked(&rt, rt.alloc())?;
    for row in ROWS {
        has_lines(&rt, &on, Form::Text, row.stream, row.lines.as_bytes())?;
    }
    for row in REFUSALS {
        has_lines(&rt, &on, Form::Text, row.canonical, row.lines.as_bytes())?;
    }
    let stream = b"\xe0\x8e\x80\x90\x83\x90";
    let lines = b"14 Const K=7 O=9 D=3\n14 Const K=7 O=- D=3\n14 Const K=7 O=- D=3\n";
    has_lines(&rt, &on, Form::Text, stream, lines)
}

fn number(value: u32) -> Node {
    Node::Value(Scalar::U32(value))
}

/// A message of these nodes is answered this, and this stands behind what was there before. Want of memory ends a test.
fn shows(
    rt: &impl Abort,
    on: &Loaded,
    form: Form,
    message: &Message,
    (wanted, line): (Result<(), ShowFault>, &[u8]),
) -> Tried {
    let mut out = Vec::from_slice(on.alloc, b"before")?;
    let given = show_line(form, &on.set, message, &mut out);
    if given.is_err() {
        same(rt, out.as_slice(), b"before".as_slice());
    }
    if given == Err(ShowFault::Memory) {
        return Err(AllocError);
    }
    same(rt, given, wanted);
    same(rt, out.as_slice(), line);
    Ok(())
}

/// A message of these nodes has no line, and what was there stays.
pub(crate) fn is_refused(
    rt: &impl Abort,
    on: &Loaded,
    form: Form,
    template: u32,
    fields: Vec<Node>,
) -> Tried {
    let message = Message { template, fields };
    let answer = (Err(ShowFault::Mismatch), b"before".as_slice());
    shows(rt, on, form, &message, answer)
}

/// The same of one node.
pub(crate) fn one_is_refused(rt: &impl Abort, on: &Loaded, template: u32, node: Node) -> Tried {
    let fields = vec![in on.alloc; node]?;
    is_refused(rt, on, Form::Text, template, fields)
}

#[test]
fn a_message_of_no_template_has_no_line(rt: HostRuntime) -> Tried {
    let on = worked(&rt, rt.alloc())?;
    // no such template
    one_is_refused(&rt, &on, 100, number(5))?;
    // too few nodes
    one_is_refused(&rt, &on, 16, number(5))?;
    // a mandatory field is absent, behind one that is there
    let fields = vec![in rt.alloc(); number(5), Node::Absent]?;
    is_refused(&rt, &on, Form::Text, 16, fields)?;
    // a mandatory sequence is absent
    one_is_refused(&rt, &on, 6, Node::Absent)
}

#[test]
fn a_value_of_another_type_has_no_line(rt: HostRuntime) -> Tried {
    let on = worked(&rt, rt.alloc())?;
    let signed = Node::Value(Scalar::I32(6));
    let fields = vec![in rt.alloc(); number(5), signed]?;
    is_refused(&rt, &on, Form::Text, 16, fields)?;
    // no character of ASCII
    one_is_refused(&rt, &on, 8, text(rt.alloc(), b"\x80")?)?;
    // a group for a sequence
    one_is_refused(&rt, &on, 6, Node::Group(Vec::new(rt.alloc())))
}

#[test]
fn a_line_stands_behind_what_was_there(rt: HostRuntime) -> Tried {
    let on = worked(&rt, rt.alloc())?;
    // a quote, a backslash, `~` and DEL
    let message = Message {
        template: 8,
        fields: vec![in rt.alloc(); text(rt.alloc(), b"\"\\~\x7f")?]?,
    };
    let line = b"before8 Tail S=\"\\x22\\x5c~\\x7f\"\n".as_slice();
    shows(&rt, &on, Form::Text, &message, (Ok(()), line))
}
