//! Lines in JSON: which bytes they are, and what they are read back as.

use crate::base::*;
use crate::lines::{has_lines, is_refused};
use crate::streams::gives;
use fast_stream::Node;
use serde_json::Value;

/// A stream of one message, its line, and another spelling of what that stands for.
pub(crate) struct Row {
    pub(crate) stream: &'static [u8],
    pub(crate) line: &'static str,
    read_as: &'static str,
}

pub(crate) const WORKED_ROWS: &[Row] = rows! { Row { stream, line, read_as }:
    b"\xf0\x81\x81\x41\xc2\xfe\x00\xe4", "{\"template\":\"Quote\",\"id\":1,\"fields\":\
            {\"Seq\":1,\"Sym\":\"AB\",\"Px\":100e-2,\"Qty\":null}}\n", r#"{"id": 1, "template": "Quote",
            "fields": {"Qty": null, "Px": 1.0, "Sym": "AB", "Seq": 1}}"#;
    b"\xf0\x83\x80\x85", "{\"template\":\"Opt\",\"id\":3,\"fields\":{\"Px\":null,\"Flag\":5}}\n",
        r#"{"id": 3, "template": "Opt", "fields": {"Flag": 5, "Px": null}}"#;
    b"\xc0\x84\x80", "{\"template\":\"Legs\",\"id\":4,\"fields\":{\"L\":null}}\n",
        r#"{"id": 4, "template": "Legs", "fields": {"L": null}}"#;
    b"\xc0\x84\x81", "{\"template\":\"Legs\",\"id\":4,\"fields\":{\"L\":[]}}\n",
        r#"{"id": 4, "template": "Legs", "fields": {"L": []}}"#;
    b"\xc0\x84\x83\x85\x86", "{\"template\":\"Legs\",\"id\":4,\"fields\":{\"L\":[{\"P\":5},{\"P\":6}]}}\n",
        r#"{"id": 4, "template": "Legs", "fields": {"L": [{"P": 5}, {"P": 6}]}}"#;
    b"\xf0\x8b\xc0\x85\x86", "{\"template\":\"Grp\",\"id\":11,\"fields\":{\"Hd\":{\"A\":5},\"B\":6}}\n",
        r#"{"id": 11, "template": "Grp", "fields": {"B": 6, "Hd": {"A": 5}}}"#;
    b"\xd0\x8b\x86", "{\"template\":\"Grp\",\"id\":11,\"fields\":{\"Hd\":null,\"B\":6}}\n",
        r#"{"id": 11, "template": "Grp", "fields": {"B": 6, "Hd": null}}"#;
    b"\xe0\x8f\x00\xe4\x83\x0a\xff", "{\"template\":\"Fixed\",\"id\":15,\"fields\":{\"Px\":100e-2,\"Raw\":\"0aff\"}}\n",
        r#"{"id": 15, "template": "Fixed", "fields": {"Raw": "0aff", "Px": 1.0}}"#;
};

/// A template with a field of each type, two of one name, names that are escaped, and a group in a group.
pub(crate) const KINDS: &str = r#"{"templates":[
{"name":"K\"\\","id":4294967295,"instructions":[{"kind":"uInt32","name":"u32"},{"kind":"int32","name":"i32"},
 {"kind":"uInt64","name":"u64"},{"kind":"int64","name":"i64"},{"kind":"decimal","name":"d"},
 {"kind":"string","name":"a"},{"kind":"string","charset":"unicode","name":"t"},{"kind":"byteVector","name":"b"},
 {"kind":"uInt32","name":"twice","presence":"optional"},{"kind":"uInt32","name":"twice","presence":"optional"},
 {"kind":"group","name":"g","instructions":[{"kind":"group","name":"\"","instructions":[]}]},
 {"kind":"sequence","name":"s","instructions":[{"kind":"int32","name":"\\"}]}]}]}"#;

pub(crate) const KIND_ROWS: &[Row] = rows! { Row { stream, line, read_as }:
    // what is farthest from nought, and strings that are escaped
    b"\xc0\x0f\x7f\x7f\x7f\xff\x0f\x7f\x7f\x7f\xff\x78\x00\x00\x00\x80\x01\x7f\x7f\x7f\x7f\x7f\
            \x7f\x7f\x7f\xff\x7f\x00\x00\x00\x00\x00\x00\x00\x00\x80\xc1\x00\x7f\x7f\x7f\x7f\x7f\x7f\
            \x7f\x7f\xff\x22\x5c\x7e\x7f\x00\x9f\x88\x22\x0a\xc3\xa9\xf0\x9f\x99\x82\x82\x0a\xff\x86\
            \x80\x82\xff\x80", "{\"template\":\"K\\\"\\\\\",\"id\":4294967295,\"fields\":{\"u32\":4294967295,\
            \"i32\":-2147483648,\"u64\":18446744073709551615,\"i64\":-9223372036854775808,\
            \"d\":9223372036854775807e-63,\"a\":\"\\\"\\\\~\\u007f\\u0000\\u001f\",\
            \"t\":\"\\\"\\u000aé🙂\",\"b\":\"0aff\",\"twice\":5,\"twice\":null,\
            \"g\":{\"\\\"\":{}},\"s\":[{\"\\\\\":-1},{\"\\\\\":0}]}}\n",
        r#"{"template": "\u004b\u0022\u005c", "id": 4294967295, "fields": {
            "u32": 4294967295, "i32": -2147483648, "u64": 18446744073709551615,
            "i64": -9223372036854775808, "d": 9.223372036854775807e-45,
            "a": "\u0022\u005c\u007e\u007f\u0000\u001f", "t": "\u0022\n\u00e9\ud83d\ude42",
            "b": "0aff", "twice": null, "g": {"\u0022": {}},
            "s": [{"\u005c": -1}, {"\u005c": 0}]}}"#;
    // what is empty, and a string that is looked at in several steps
    b"\xc0\x0f\x7f\x7f\x7f\xff\x80\x07\x7f\x7f\x7f\xff\x80\x00\x7f\x7f\x7f\x7f\x7f\x7f\x7f\x7f\
            \xff\xbf\xfb\x61\x62\x63\x64\x65\x66\x67\x68\x22\x6a\x6b\x6c\x6d\x6e\x6f\x70\x71\x72\x73\
            \xf4\x80\x80\x80\x10\x00\x00\x00\x80\x80",
        "{\"template\":\"K\\\"\\\\\",\"id\":4294967295,\"fields\":{\"u32\":0,\
            \"i32\":2147483647,\"u64\":0,\"i64\":9223372036854775807,\"d\":-5e63,\
            \"a\":\"abcdefgh\\\"jklmnopqrst\",\"t\":\"\",\"b\":\"\",\
            \"twice\":null,\"twice\":4294967295,\"g\":{\"\\\"\":{}},\"s\":[]}}\n",
        r#"{"template": "\u004b\u0022\u005c", "id": 4294967295, "fields": {
            "u32": 0, "i32": 2147483647, "u64": 0, "i64": 9223372036854775807,
            "d": -50e62, "a": "abcdefgh\u0022jklmnopqrst", "t": "", "b": "",
            "twice": 4294967295, "g": {"\u0022": {}}, "s": []}}"#;
};

/// This is what `show` writes of a stream in JSON, in steps of one size.
fn is_written(rt: &impl Abort, on: &Loaded, stream: &[u8], step: usize, line: &[u8]) -> Tried {
    let mut given = plainly(stream, step);
    given.form = Form::Json;
    gives(rt, on, given, line, counted(1, stream.len(), line.len()))
}

/// The line is read as the other spelling.
fn is_read_as(rt: &impl Abort, alloc: Global, row: &Row) -> Result<(), Fail> {
    let read = Value::from_slice(alloc, row.line.as_bytes())?;
    same(rt, read, Value::from_str(alloc, row.read_as)?);
    Ok(())
}

/// The line is that of the message at hand and of its stream, and is read as the other spelling.
fn is_shown(rt: &impl Abort, on: &Loaded, row: &Row) -> Result<(), Fail> {
    let line = row.line.as_bytes();
    has_lines(rt, on, Form::Json, row.stream, line)?;
    is_written(rt, on, row.stream, 1, line)?;
    is_written(rt, on, row.stream, 4096, line)?;
    is_read_as(rt, on.alloc, row)
}

/// Each row is shown of the templates of a text.
fn are_shown(rt: &impl Abort, alloc: Global, text: &str, rows: &[Row]) -> Result<(), Fail> {
    let on = loaded(rt, alloc, text)?;
    for row in rows {
        is_shown(rt, &on, row)?;
    }
    Ok(())
}

#[test]
fn each_line_is_read_as_its_message(rt: HostRuntime) -> Result<(), Fail> {
    are_shown(&rt, rt.alloc(), WORKED, WORKED_ROWS)?;
    are_shown(&rt, rt.alloc(), KINDS, KIND_ROWS)?;
    // a mandatory sequence that is absent has no line
    let on = worked(&rt, rt.alloc())?;
    let fields = vec![in rt.alloc(); Node::Absent]?;
    Ok(is_refused(&rt, &on, Form::Json, 6, fields)?)
}
