//! What refusals mean: the lines behind a refusal's own, with `--explain`.

use crate::base::*;
use crate::serving::devices::{FOLDER, FORBIDDEN, Full};
use crate::serving::programs::{EXPLAINED_HEX, cases_are_served, each_is_served};
use template_tests::texts::DOUBLED;

const SHOW: &[&str] = &["fastcat", "show", "--templates", TEMPLATES, "--explain"];

const STRICT: &[&str] =
    list! { "fastcat", "show", "--strict", "--templates", TEMPLATES, "--explain" };

const BLOCKS: &[&str] =
    list! { "fastcat", "show", "--blocks", "--templates", TEMPLATES, "--explain" };

pub const MANY: &str = r#"{"templates":[{"name":"Mixed","id":1,"instructions":[
 {"kind":"uInt32","name":"N","operator":"copy","key":"K"},{"kind":"string","name":"S","operator":"copy","key":"K"}]},
 {"name":"Gone","id":2,"instructions":[{"kind":"uInt32","name":"O","presence":"optional","operator":"copy","key":"P"},
 {"kind":"uInt32","name":"M","operator":"copy","key":"P"}]},{"name":"Cut","id":3,"instructions":[
 {"kind":"string","name":"D","operator":"delta"}]},{"name":"Price","id":4,"instructions":[
 {"kind":"decimal","name":"X"}]},{"name":"Words","id":5,"instructions":[
 {"kind":"string","charset":"unicode","name":"U"}]},{"name":"Nest","id":6,"instructions":[
 {"kind":"group","name":"G","instructions":[{"kind":"sequence","name":"L","instructions":[
 {"kind":"uInt32","name":"E"}]}]}]}]}"#;

const EXPLAINED: Case = Case {
    words: SHOW,
    status: 1,
    ..CASE
};

const OVER_MANY: Case = Case {
    templates: Templates::Many,
    ..EXPLAINED
};

#[test]
fn refused_streams(rt: HostRuntime) -> Tried {
    const ROWS: &[Case] = rows! { Case { .. }:
        EXPLAINED, input: b"\x80", err: "refused D5 message=1 offset=1 template=0 instruction=0\n\
                explain: message 1, offset 1: the message has no template identifier, and none came before; read the stream from its start\n\
                explain: if the stream is in blocks, each behind its size, give --blocks, or --packets where each begins with undefined entries; if other bytes stand before each message, take them out\n";
        EXPLAINED, input: b"\xc0\x90\x85", err: "refused D5 message=1 offset=3 template=16 instruction=2\n\
                explain: message 1, offset 3, field \"B\" of template \"First\": the field is mandatory and left out, and no earlier value stands for it; read the stream from its start, or compare the field with the sender's templates\n\
                explain: if the stream is in blocks, each behind its size, give --blocks, or --packets where each begins with undefined entries; if other bytes stand before each message, take them out\n";
        EXPLAINED, input: b"\xe0\x90\x10\x00\x00\x00\x80",
            err: "refused D2 message=1 offset=2 template=16 instruction=1\n\
                explain: message 1, offset 2, field \"A\" of template \"First\": the integer is out of the bounds of its type; compare the type with the sender's templates\n";
        EXPLAINED, input: b"\xc0\xe4", err: "refused D9 message=1 offset=1 template=0 instruction=0\n\
                explain: message 1, offset 1: no template has the identifier 100; add the template, or see that the stream begins where a message does\n\
                explain: if the stream is in blocks, each behind its size, give --blocks, or --packets where each begins with undefined entries; if other bytes stand before each message, take them out\n";
        EXPLAINED, input: b"\xc0\x00\x00\x07\xe8", err: "refused D9 message=1 offset=1 template=0 instruction=0\n\
                explain: message 1, offset 1: no template has the identifier 1000; add the template, or see that the stream begins where a message does\n\
                explain: if the stream is in blocks, each behind its size, give --blocks, or --packets where each begins with undefined entries; if other bytes stand before each message, take them out\n";
        EXPLAINED, input: b"\xe0\x90\x00\x00\x00\x00\x00\x00\x00\x00\x00\x00",
            err: "refused Limit message=1 offset=2 template=16 instruction=1\n\
                explain: message 1, offset 2, field \"A\" of template \"First\": more bytes, characters, elements or nodes stand there than are read; compare the templates with the sender's\n";
        EXPLAINED, input: b"\xe0\x90", err: "refused Truncated message=1 offset=2 template=16 instruction=1\n\
                explain: message 1, offset 2, field \"A\" of template \"First\": the stream ends inside a message or a block; see that it was copied whole\n\
                explain: if the stream is in blocks, each behind its size, give --blocks, or --packets where each begins with undefined entries; if other bytes stand before each message, take them out\n";
        EXPLAINED, input: b"e0 90 85 86", err: "refused Truncated message=1 offset=0 template=0 instruction=0\n\
                explain: message 1, offset 0: the stream ends inside a message or a block; see that it was copied whole\n\
                explain: the standard input begins with hex digits alone; for hex text give --hex\n";
        EXPLAINED, words: EXPLAINED_HEX, input: b"c0 e4", out: b"\n",
            err: "refused D9 message=1 offset=1 template=0 instruction=0\n\
                explain: message 1, offset 1: no template has the identifier 100; add the template, or see that the stream begins where a message does\n\
                explain: if the stream is in blocks, each behind its size, give --blocks, or --packets where each begins with undefined entries; if other bytes stand before each message, take them out\n";
        EXPLAINED, words: STRICT, input: b"\xe0\x90\x00\x85",
            err: "refused R6 message=1 offset=2 template=16 instruction=1\n\
                explain: message 1, offset 2, field \"A\" of template \"First\": the integer, length or size has more bytes than it needs; leave out --strict to read it\n";
        EXPLAINED, words: STRICT, input: b"\x60\x80", err: "refused R7 message=1 offset=0 template=0 instruction=0\n\
                explain: message 1, offset 0: the presence map has more bytes than it needs; leave out --strict to read it\n";
        EXPLAINED, words: STRICT, input: b"\xf0\x90\x85\x86",
            err: "refused R8 message=1 offset=4 template=16 instruction=0\n\
                explain: message 1, offset 4, template \"First\": a bit of the presence map is 1 that no instruction asked for; compare the templates with the sender's, or leave out --strict\n";
        EXPLAINED, words: BLOCKS, input: b"\x80", err: "refused D12 message=1 offset=0 template=0 instruction=0\n\
                explain: message 1, offset 0: the size of the block is zero; if the stream has no blocks, leave out --blocks\n";
        EXPLAINED, words: BLOCKS, input: b"\x83\xe0\x90\x85",
            err: "refused BlockEnd message=1 offset=4 template=16 instruction=2\n\
                explain: message 1, offset 4, field \"B\" of template \"First\": the block ends inside a message; if the stream has no blocks, leave out --blocks, else compare the templates with the sender's\n";
        OVER_MANY, input: b"\xe0\x81\x85", err: "refused D4 message=1 offset=3 template=1 instruction=2\n\
                explain: message 1, offset 3, field \"S\" of template \"Mixed\": the previous value is of another type; give fields of one key one type, or keys of their own\n";
        OVER_MANY, input: b"\xe0\x82\x80", err: "refused D6 message=1 offset=3 template=2 instruction=2\n\
                explain: message 1, offset 3, field \"M\" of template \"Gone\": the field is mandatory and needs its previous value, which is absent; compare presence and operator with the sender's templates\n";
        OVER_MANY, input: b"\xc0\x83\x85", err: "refused D7 message=1 offset=2 template=3 instruction=1\n\
                explain: message 1, offset 2, field \"D\" of template \"Cut\": more is taken away than the previous value has, or the subtraction length is no int32; read the stream from its start, or compare the operator with the sender's templates\n";
        OVER_MANY, input: b"\xc0\x84\x00\xc0", err: "refused R1 message=1 offset=2 template=4 instruction=1\n\
                explain: message 1, offset 2, field \"X\" of template \"Price\": the exponent is outside -63..63, or the mantissa outside int64; compare the field with the sender's templates\n";
        OVER_MANY, input: b"\xc0\x85\x81\xff", err: "refused R2 message=1 offset=2 template=5 instruction=1\n\
                explain: message 1, offset 2, field \"U\" of template \"Words\": the charset is unicode, and the bytes are not UTF-8; give the field the kind byteVector to read such bytes\n";
        OVER_MANY, words: STRICT, input: b"\xc0\x83\x80\x00\xc1",
            err: "refused R9 message=1 offset=2 template=3 instruction=1\n\
                explain: message 1, offset 2, field \"D\" of template \"Cut\": the string has a preamble that it does not need; leave out --strict to read it\n";
        OVER_MANY, input: b"\xc0\x86\x82\x85", err: "refused Truncated message=1 offset=4 template=6 instruction=3\n\
                explain: message 1, offset 4, field \"E\" of template \"Nest\": the stream ends inside a message or a block; see that it was copied whole\n\
                explain: if the stream is in blocks, each behind its size, give --blocks, or --packets where each begins with undefined entries; if other bytes stand before each message, take them out\n";
        OVER_MANY, input: b"\xc0\x86", err: "refused Truncated message=1 offset=2 template=6 instruction=2\n\
                explain: message 1, offset 2, field \"L\" of template \"Nest\": the stream ends inside a message or a block; see that it was copied whole\n\
                explain: if the stream is in blocks, each behind its size, give --blocks, or --packets where each begins with undefined entries; if other bytes stand before each message, take them out\n";
        EXPLAINED, words: BLOCKS, input: b"\x82\xc0\xe4",
            err: "refused D9 message=1 offset=2 template=0 instruction=0\n\
                explain: message 1, offset 2: no template has the identifier 100; add the template, or see that the stream begins where a message does\n\
                explain: if the stream has no blocks, leave out --blocks; if other bytes stand before each block, take them out\n";
    };
    each_is_served(&rt, rt.alloc(), ROWS)
}

#[test]
fn files_of_other_kinds(rt: HostRuntime) -> Tried {
    const ROWS: &[Case] = rows! { Case { ..EXPLAINED }:
        input: b"\xd4\xc3\xb2\xa1\x02\x00\x04\x00", err: "refused D9 message=1 offset=1 template=0 instruction=0\n\
                explain: message 1, offset 1: no template has the identifier 67; add the template, or see that the stream begins where a message does\n\
                explain: the standard input is a capture file (pcap); take its packets out by tools/pcap-packets, and read them with --packets\n";
        input: b"\x0a\x0d\x0d\x0a", err: "refused Truncated message=1 offset=0 template=0 instruction=0\n\
                explain: message 1, offset 0: the stream ends inside a message or a block; see that it was copied whole\n\
                explain: the standard input is a capture file (pcapng); take its packets out by tools/pcap-packets, and read them with --packets\n";
        input: b"\x1f\x8b\x08\x00", err: "refused D5 message=1 offset=2 template=0 instruction=0\n\
                explain: message 1, offset 2: the message has no template identifier, and none came before; read the stream from its start\n\
                explain: the standard input is compressed (gzip); give what gzip -dc writes of it\n";
    };
    cases_are_served(&rt, rt.alloc(), ROWS)
}

#[test]
fn refused_templates(rt: HostRuntime) -> Tried {
    const REFUSED: Case = Case {
        words: SHOW,
        width: 1,
        status: 2,
        ..CASE
    };
    const ROWS: &[Case] = rows! { Case { ..REFUSED }:
        templates: Templates::Text(""), err: "templates refused S1 template=0 instruction=0\n\
            explain: the templates' file \"templates.json\" is no JSON text from line 1 column 0 on\n\
            explain: it ends before its last bracket; see that it was copied whole\n";
        templates: Templates::Text(r#"{"templates":["#), err: "templates refused S1 template=0 instruction=0\n\
            explain: the templates' file \"templates.json\" is no JSON text from line 1 column 14 on\n\
            explain: it ends before its last bracket; see that it was copied whole\n";
        templates: Templates::Text("\n <templates/>"), err: "templates refused S1 template=0 instruction=0\n\
            explain: the templates' file \"templates.json\" is no JSON text from line 2 column 2 on\n\
            explain: it begins with <; if it is XML, convert it by tools/xml-templates FILE.xml\n";
        templates: Templates::Text("\u{feff}{\"templates\":[]}"), err: "templates refused S1 template=0 instruction=0\n\
            explain: the templates' file \"templates.json\" is no JSON text from line 1 column 1 on\n\
            explain: it begins with a byte order mark; save it as UTF-8 without one\n";
        templates: Templates::Text("{\"templates\":[{},\n ]}"), err: "templates refused S1 template=0 instruction=0\n\
            explain: the templates' file \"templates.json\" is no JSON text from line 2 column 2 on\n\
            explain: a comma stands before the bracket there; take it out\n";
        templates: Templates::Text(r#"{"templates":[],}"#), err: "templates refused S1 template=0 instruction=0\n\
            explain: the templates' file \"templates.json\" is no JSON text from line 1 column 17 on\n\
            explain: a comma stands before the bracket there; take it out\n";
        templates: Templates::Text(r#"{"templates":x}"#), err: "templates refused S1 template=0 instruction=0\n\
            explain: the templates' file \"templates.json\" is no JSON text from line 1 column 14 on\n";
        templates: Templates::Text(r#"{"templates":{}}"#), err: "templates refused S1 template=0 instruction=0\n\
            explain: the templates' file \"templates.json\": \"templates\" is to be an array\n";
        templates: Templates::Text(r#"{"templates":[{"name":"T"}]}"#),
            err: "templates refused S1 template=1 instruction=0\n\
            explain: template 1 \"T\", line 1 column 15: the key \"instructions\" is missing\n";
        templates: Templates::Text(r#"{"templates":[{"name":"T","instructions":[]},7]}"#),
            err: "templates refused S1 template=2 instruction=0\n\
            explain: template 2, line 1 column 46: it is no object\n";
        templates: Templates::Text(r#"{"templates":[{"name":"T","id":1,"instructions":[{"kind":"group","name":"G","instructions":[{"kind":"uInt32","name":"A"},{"kind":"uint32","name":"B"}]}]}]}"#),
            err: "templates refused S1 template=1 instruction=3\n\
            explain: template 1 \"T\", instruction 3 \"B\", line 1 column 122: \"uint32\" is no kind; the nearest is \"uInt32\"\n";
        templates: Templates::Text(r#"{"templates":[{"name":"T","id":1,"instructions":[{"kind":"uInt32","name":"A"},{"kind":"uInt32"}]}]}"#),
            err: "templates refused S1 template=1 instruction=2\n\
            explain: template 1 \"T\", instruction 2, line 1 column 79: the key \"name\" is missing\n";
        templates: Templates::Text(r#"{"templates":[{"name":"T","id":1,"instructions":[{"kind":"string","name":"A","operator":"increment"}]}]}"#),
            err: "templates refused S2 template=1 instruction=1\n\
            explain: template 1 \"T\", instruction 1 \"A\", line 1 column 50: increment is for integers, tail for strings and byte vectors; take another operator or kind\n";
        templates: Templates::Text(r#"{"templates":[{"name":"T","id":1,"instructions":[{"kind":"int32","name":"A","operator":"copy","value":"x"}]}]}"#),
            err: "templates refused S3 template=1 instruction=1\n\
            explain: template 1 \"T\", instruction 1 \"A\", line 1 column 50: \"value\" spells no value of the kind; an integer is as -5, a decimal as 100e-2, a byte vector as 0a0b\n";
        templates: Templates::Text(r#"{"templates":[{"name":"T","id":1,"instructions":[{"kind":"int32","name":"A","operator":"constant"}]}]}"#),
            err: "templates refused S4 template=1 instruction=1\n\
            explain: template 1 \"T\", instruction 1 \"A\", line 1 column 50: a constant needs a \"value\"\n";
        templates: Templates::Text(r#"{"templates":[{"name":"T","id":1,"instructions":[{"kind":"uInt32","name":"A"},{"kind":"int32","name":"B","operator":"default"}]}]}"#),
            err: "templates refused S5 template=1 instruction=2\n\
            explain: template 1 \"T\", instruction 2 \"B\", line 1 column 79: a mandatory default needs a \"value\"; give it one, or make the field optional\n";
        templates: Templates::Text(r#"{"templates":[{"name":"T","id":1,"instructions":[{"kind":"templateRef","name":"Other"}]}]}"#),
            err: "templates refused D8 template=1 instruction=1\n\
            explain: template 1 \"T\", instruction 1 \"Other\", line 1 column 50: no template has the name of the reference; add the template, or mend the name\n";
        templates: Templates::Text(r#"{"templates":[{"name":"T","instructions":[]},{"name":"T","instructions":[]}]}"#),
            err: "templates refused DuplicateName template=2 instruction=0\n\
            explain: template 2 \"T\", line 1 column 46: an earlier template has the same name; give one of them another\n";
        templates: Templates::Text(r#"{"templates":[{"name":"T","id":1,"instructions":[]},{"name":"U","id":1,"instructions":[]}]}"#),
            err: "templates refused DuplicateId template=2 instruction=0\n\
            explain: template 2 \"U\", line 1 column 53: an earlier template has the same \"id\"; give one of them another\n";
        templates: Templates::Text(r#"{"templates":[{"name":"T","id":1,"instructions":[{"kind":"templateRef","name":"T"}]}]}"#),
            err: "templates refused Cycle template=1 instruction=0\n\
            explain: template 1 \"T\", line 1 column 15: its references lead back to itself; take one of them out\n";
        templates: Templates::Text(r#"{"templates":[{"name":"T","id":1,"instructions":[{"kind":"group","name":"G","instructions":[{"kind":"group","name":"G","instructions":[{"kind":"group","name":"G","instructions":[{"kind":"group","name":"G","instructions":[{"kind":"group","name":"G","instructions":[{"kind":"group","name":"G","instructions":[{"kind":"group","name":"G","instructions":[{"kind":"group","name":"G","instructions":[{"kind":"group","name":"G","instructions":[{"kind":"uInt32","name":"A"}]}]}]}]}]}]}]}]}]}]}]}"#),
            err: "templates refused TooDeep template=1 instruction=0\n\
            explain: template 1 \"T\", line 1 column 15: groups and sequences nest in more than 8 levels; take some out\n";
        templates: Templates::Text(DOUBLED), err: "templates refused TooMany template=1 instruction=0\n\
            explain: template 1 \"N1\", line 1 column 15: up to here there are more than 65535 instructions, those behind references included; leave out templates that the stream does not need\n";
        templates: Templates::Text("{\"templates\":[\n {\"name\":\"T\",\"id\":\"1\",\"instructions\":[]}]}"),
            err: "templates refused S1 template=1 instruction=0\n\
            explain: template 1 \"T\", line 2 column 2: \"id\" is to be a whole number from 0 to 4294967295, in digits alone\n";
        templates: Templates::Text(r#"{"templates":[{"name":"T","instructions":[{"kind":"uInt32","nmae":"A"}]}]}"#),
            err: "templates refused S1 template=1 instruction=1\n\
            explain: template 1 \"T\", instruction 1, line 1 column 43: the key \"nmae\" is unknown there; the nearest is \"name\"\n";
        templates: Templates::Text(r#"{"templates":[{"name":"T","instructions":[{"kind":"string","name":"A","operator":"Copy"}]}]}"#),
            err: "templates refused S1 template=1 instruction=1\n\
            explain: template 1 \"T\", instruction 1 \"A\", line 1 column 43: \"Copy\" is no operator; the nearest is \"copy\"\n";
        templates: Templates::Text(r#"{"templates":[{"name":"T","instructions":[{"kind":"string","name":"A","value":"x"}]}]}"#),
            err: "templates refused S1 template=1 instruction=1\n\
            explain: template 1 \"T\", instruction 1 \"A\", line 1 column 43: \"value\" stands without \"operator\"\n";
        templates: Templates::Text(r#"{"templates":[{"name":"T","instructions":[{"kind":"string","name":"A B","presence":"must"}]}]}"#),
            err: "templates refused S1 template=1 instruction=1\n\
            explain: template 1 \"T\", instruction 1 \"A B\", line 1 column 43: \"must\" is no presence\n";
        templates: Templates::Text(r#"{"templates":[{"name":"T","instructions":[{"kind":"string","name":"A B"}]}]}"#),
            err: "templates refused S1 template=1 instruction=1\n\
            explain: template 1 \"T\", instruction 1 \"A B\", line 1 column 43: \"name\" is no name, which is 1 to 255 characters from ! to ~\n";
        templates: Templates::Text(r#"{"templates":[{"name":"T","instructions":[{"kind":"decimal","name":"A","operator":"copy","exponent":{}}]}]}"#),
            err: "templates refused S1 template=1 instruction=1\n\
            explain: template 1 \"T\", instruction 1 \"A\", line 1 column 43: \"operator\" stands beside \"exponent\" or \"mantissa\", which have their own\n";
        templates: Templates::Text(r#"{"templates":[{"name":"T","instructions":[{"kind":"sequence","name":"A","instructions":[],"length":{"operator":"cpoy"}}]}]}"#),
            err: "templates refused S1 template=1 instruction=1\n\
            explain: template 1 \"T\", instruction 1 \"A\", line 1 column 43: in \"length\", \"cpoy\" is no operator; the nearest is \"copy\"\n";
        templates: Templates::Text(r#"{"templates":[],"dictionary":" "}"#),
            err: "templates refused S1 template=0 instruction=0\n\
            explain: the templates' file \"templates.json\": \"dictionary\" is no name, which is 1 to 255 characters from ! to ~\n";
    };
    cases_are_served(&rt, rt.alloc(), ROWS)
}

#[test]
fn refused_machines(rt: HostRuntime) -> Tried {
    const NO_TEMPLATES: &[&str] = &["fastcat", "show", "--templates", "none", "--explain"];
    const NO_STREAM: &[&str] =
        list! { "fastcat", "show", "none", "--templates", TEMPLATES, "--explain" };
    const FILE: &[&str] =
        list! { "fastcat", "check", STREAM, "--templates", TEMPLATES, "--explain", "--hex" };
    const FAILED: Case = Case {
        words: SHOW,
        stream: b"\x80",
        width: 1,
        turns: 9,
        status: 3,
        ..CASE
    };
    const ROWS: &[Case] = rows! { Case { ..FAILED }:
        words: NO_TEMPLATES, err: "fault open\n\
                explain: the templates' file \"none\" cannot be opened; no file has this name\n";
        words: NO_STREAM, err: "fault open\n\
                explain: the stream's file \"none\" cannot be opened; no file has this name\n";
        words: list! { "fastcat", "show", FOLDER, "--templates", TEMPLATES, "--explain" }, err: "fault open\n\
                explain: the stream's file \"folder\" cannot be opened; it is a folder\n";
        words: &["fastcat", "show", "--templates", FORBIDDEN, "--explain"], err: "fault open\n\
                explain: the templates' file \"forbidden\" cannot be opened; it may not be read by this user\n";
        templates_end: After::Error, err: "fault read\n\
                explain: the templates' file \"templates.json\" cannot be read to its end: a read failed; see that its disk or device is well\n";
        input: b"\xe0", input_end: After::Error, err: "fault read\n\
                explain: the standard input cannot be read to its end: a read failed in message 1; see that its disk or device is well\n";
        words: EXPLAINED_HEX, input: b"e0", input_end: After::Error, err: "fault read\n\
                explain: the standard input cannot be read to its end: a read failed; see that its disk or device is well\n";
        turns: 1, err: "fault turns\n\
                explain: the templates' file \"templates.json\" has no end within the reads that are made; cut it into shorter ones\n";
        input: b"\xe0\x90\x85", turns: 2, err: "fault turns\n\
                explain: the standard input has no end within the reads that are made in message 1; cut it into shorter ones\n";
        words: EXPLAINED_HEX, input: b"e0", turns: 2, err: "fault turns\n\
                explain: the standard input has no end within the reads that are made; cut it into shorter ones\n";
        words: EXPLAINED_HEX, input: b"\xe0\x90", status: 2, err: "input is not hex\n\
                explain: the standard input has bytes that are not ASCII; if they are the stream's own, leave out --hex\n";
        words: FILE, status: 2, err: "input is not hex\n\
                explain: the stream's file \"stream.fast\" has bytes that are not ASCII; if they are the stream's own, leave out --hex\n";
        words: EXPLAINED_HEX, input: b"e0\n9z", status: 2, err: "input is not hex\n\
                explain: the standard input has a character that is no hex digit and no blank, at line 2 column 2; take it out\n";
        words: EXPLAINED_HEX, input: b"e0 9", status: 2, err: "input is not hex\n\
                explain: the standard input has an odd number of hex digits; see that it was copied whole\n";
        input: b"\xe0\x90\x85\x86", room: (0, Full::Error), err: "fault write\n\
                explain: the standard output took no more bytes; see that its disk has room, and its reader goes on\n";
    };
    cases_are_served(&rt, rt.alloc(), ROWS)
}
