//! The order book and the trade feed of examples/: their lines and canonical bytes, and those of these bytes.

use crate::base::*;
use crate::serving::programs::served;

// The text of book.json.
pub const BOOK: &str = r#"{"templates":[{"name":"Book","id":1,"instructions":[
 {"kind":"uInt32","name":"Seq","operator":"increment"},{"kind":"string","name":"Symbol","operator":"copy"},
 {"kind":"sequence","name":"Entries","instructions":[{"kind":"uInt32","name":"Side","operator":"copy"},
 {"kind":"decimal","name":"Price","exponent":{"operator":"default","value":"-2"},"mantissa":{"operator":"delta"}},
 {"kind":"uInt32","name":"Size","operator":"copy"}]}]}]}"#;

// The text of trade.json.
pub const TRADE: &str = r#"{"templates":[
{"name":"Trade","id":2,"instructions":[{"kind":"uInt64","name":"Time","operator":"delta"},
 {"kind":"string","name":"Symbol","operator":"delta"},{"kind":"decimal","name":"Price","operator":"delta"},
 {"kind":"uInt32","name":"Size","operator":"default","value":"100"},
 {"kind":"byteVector","name":"Buyer","presence":"optional","operator":"copy"}]}]}"#;

const SHOW: &[&str] = &["fastcat", "show", "--hex", "--templates", TEMPLATES, STREAM];

const CHECK: &[&str] = list! { "fastcat", "check", "--hex", "--templates", TEMPLATES, STREAM };

const CANON: &[&str] = list! { "fastcat", "canon", "--hex", "--templates", TEMPLATES, STREAM };

const SHOW_STRICTLY: &[&str] =
    list! { "fastcat", "show", "--strict", "--hex", "--templates", TEMPLATES, STREAM };

const CANON_STRICTLY: &[&str] =
    list! { "fastcat", "canon", "--strict", "--hex", "--templates", TEMPLATES, STREAM };

// Serves a line over templates and a stream in hex text.
fn is_served<'a>(
    rt: &impl Abort,
    alloc: Global,
    words: &'a [&'a str],
    templates: Templates<'a>,
    stream: &'a str,
    want: &'a str,
) -> Tried {
    let case = Case {
        stream: stream.as_bytes(),
        ..over(templates)
            .of(words, b"")
            .answered(0, want.as_bytes(), "")
    };
    served(rt, alloc, &case)
}

// An example, and the same of its canonical bytes, at both levels.
fn example(
    rt: &impl Abort,
    alloc: Global,
    templates: Templates,
    stream: &str,
    (lines, canon, told): (&str, &str, &str),
) -> Tried {
    for words in [SHOW, SHOW_STRICTLY] {
        is_served(rt, alloc, words, templates, stream, lines)?;
        is_served(rt, alloc, words, templates, canon, lines)?;
    }
    for words in [CANON, CANON_STRICTLY] {
        is_served(rt, alloc, words, templates, stream, canon)?;
        is_served(rt, alloc, words, templates, canon, canon)?;
    }
    is_served(rt, alloc, CHECK, templates, stream, told)
}

#[test]
fn an_order_book(rt: HostRuntime) -> Tried {
    let stream = "f0 81 81 45 d3 82 d0 80 1b 3b e9 8a c0 81 99\nf0 81 82 45 d3 81 d0 81 99 84\n";
    let lines = concat!(
        "1 Book Seq=1 Symbol=\"ES\" Entries=[{Side=0 Price=450025e-2 Size=10} ",
        "{Side=1 Price=450050e-2 Size=10}]\n",
        "1 Book Seq=2 Symbol=\"ES\" Entries=[{Side=1 Price=450075e-2 Size=4}]\n",
    );
    let canon = "f0818145d382d0801b3be98ac081998081909984\n";
    let told = "ok messages=2 bytes=25 canonical=20\n";
    let wanted = (lines, canon, told);
    example(&rt, rt.alloc(), Templates::Book, stream, wanted)
}

#[test]
fn a_trade_feed(rt: HostRuntime) -> Tried {
    let stream = concat!(
        "c0 82 10 27 33 c0 80 45 53 5a b6 fe 1b 3b e9\n",
        "b0 8f 80 80 80 99 01 fa 83 0a ff\n",
        "a0 80 84 45 53 48 b7 80 80 e4\n",
    );
    let lines = concat!(
        "2 Trade Time=34200000 Symbol=\"ESZ6\" Price=450025e-2 Size=100 Buyer=-\n",
        "2 Trade Time=34200015 Symbol=\"ESZ6\" Price=450050e-2 Size=250 Buyer=x0aff\n",
        "2 Trade Time=34200015 Symbol=\"ESH7\" Price=450050e-2 Size=100 Buyer=x0aff\n",
    );
    let canon = "c082102733c08045535ab6fe1b3be9b08f8080809901fa830aff80808248b78080\n";
    let told = "ok messages=3 bytes=36 canonical=33\n";
    let wanted = (lines, canon, told);
    example(&rt, rt.alloc(), Templates::Trade, stream, wanted)
}
