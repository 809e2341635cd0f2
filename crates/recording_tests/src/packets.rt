//! Recordings that are accepted: each packet from undefined entries.

use crate::runs::{Answer, Call, Given, SHOW, counted, gives, loaded, usually};
use std::process::Abort;
use template_tests::loaded::Loaded;
use template_tests::texts::WORKED;
use test_rows::{Tried, rows};

// A recording that is canonical itself, what it has and its lines.
struct Row {
    bytes: &'static [u8],
    packets: u64,
    messages: u64,
    lines: &'static str,
}

// Two types under one key, and an optional field and a mandatory delta under another.
const TWO_TYPES: &str = r#"{"templates":[
{"name":"Int","id":1,"instructions":[{"kind":"int32","name":"Size","operator":"delta"}]},
{"name":"Dec","id":2,"instructions":[{"kind":"decimal","name":"Size","operator":"delta"}]},
{"name":"May","id":3,"instructions":[{"kind":"uInt32","name":"Seq","presence":"optional","operator":"copy"}]},
{"name":"Must","id":4,"instructions":[{"kind":"uInt32","name":"Seq","operator":"delta"}]}]}"#;

// The row's recording through each call.
fn all_accept(rt: &impl Abort, on: &Loaded, rows: &[Row]) -> Tried {
    for row in rows {
        let given = usually(row.bytes);
        let read = row.bytes.len() as u64;
        let (counts, lines) = ((row.packets, 0, row.messages), row.lines.as_bytes());
        let shown = counted(counts, read, lines.len() as u64);
        let counts = counted(counts, read, read);
        gives(rt, on, SHOW, given, shown, lines, "")?;
        gives(rt, on, Call::Check, given, counts, b"", "")?;
        gives(rt, on, Call::Canon, given, counts, row.bytes, "")?;
    }
    Ok(())
}

#[test]
fn packets_are_read_from_undefined_entries(rt: HostRuntime) -> Tried {
    const ROWS: &[Row] = rows! { Row { bytes, packets, messages, lines }:
        b"", 0, 0, "";
        // one quote twice
        b"\x88\xf0\x81\x81\x41\xc2\xfe\x00\xe4\x88\xf0\x81\x81\x41\xc2\xfe\x00\xe4", 2, 2,
            "1 Quote Seq=1 Sym=\"AB\" Px=100e-2 Qty=-\n1 Quote Seq=1 Sym=\"AB\" Px=100e-2 Qty=-\n";
        // two quotes, the second of which stands on the first
        b"\x8b\xf0\x81\x81\x41\xc2\xfe\x00\xe4\x80\x80\x81\x88\xf0\x81\x81\x41\xc2\xfe\x00\xe4", 2, 3,
            "1 Quote Seq=1 Sym=\"AB\" Px=100e-2 Qty=-\n1 Quote Seq=2 Sym=\"AB\" Px=101e-2 Qty=-\n1 Quote Seq=1 Sym=\"AB\" Px=100e-2 Qty=-\n";
        // a tail that is shorter than the one of the packet before: no plain stream carries these two
        b"\x88\xe0\x88\x41\x42\x43\x44\x45\xc6\x84\xe0\x88\x58\xd9", 2, 2, "8 Tail S=\"ABCDEF\"\n8 Tail S=\"XY\"\n";
    };
    let on = loaded(&rt, rt.alloc(), WORKED)?;
    all_accept(&rt, &on, ROWS)
}

#[test]
fn packets_that_no_plain_stream_carries(rt: HostRuntime) -> Tried {
    const ROWS: &[Row] = rows! { Row { bytes, packets, messages, lines }:
        // a key of one type, and then of another
        b"\x83\xc0\x81\x85\x85\xc0\x82\xfe\x00\xe4", 2, 2, "1 Int Size=5\n2 Dec Size=100e-2\n";
        // an absent field, and then a delta
        b"\x82\xc0\x83\x83\xc0\x84\x85", 2, 2, "3 May Seq=-\n4 Must Seq=5\n";
    };
    let on = loaded(&rt, rt.alloc(), TWO_TYPES)?;
    all_accept(&rt, &on, ROWS)
}

// A recording is checked and made canonical, with these counts.
fn is_made(rt: &impl Abort, on: &Loaded, given: Given, counts: Answer, made: &[u8]) -> Tried {
    gives(rt, on, Call::Check, given, counts, b"", "")?;
    gives(rt, on, Call::Canon, given, counts, made, "")
}

#[test]
fn sizes_with_more_groups_than_they_need(rt: HostRuntime) -> Tried {
    let on = loaded(&rt, rt.alloc(), WORKED)?;
    let given = usually(b"\x00\x00\x88\xf0\x81\x81\x41\xc2\xfe\x00\xe4");
    let canonical = b"\x88\xf0\x81\x81\x41\xc2\xfe\x00\xe4";
    is_made(&rt, &on, given, counted((1, 0, 1), 11, 9), canonical)
}

// The size is the canonical packet's, and not that of the packet that was read.
#[test]
fn packets_that_are_longer_than_they_need(rt: HostRuntime) -> Tried {
    let on = loaded(&rt, rt.alloc(), WORKED)?;
    let given = usually(b"\x90\xf0\x81\x81\x41\xc2\xfe\x00\xe4\xf8\x81\x82\x41\xc2\x80\x81\x80");
    let canonical = b"\x8b\xf0\x81\x81\x41\xc2\xfe\x00\xe4\x80\x80\x81";
    is_made(&rt, &on, given, counted((1, 0, 2), 17, 12), canonical)
}
