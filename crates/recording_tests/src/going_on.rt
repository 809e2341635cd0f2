//! Recordings whose refused packets are told of, and behind which the next one is read.

use crate::refusals::QUOTE_LINE;
use crate::runs::{Call, SHOW, counted, gives, going_on, loaded, refused};
use fast_lines::Form;
use fast_stream::Cause;
use template_tests::texts::WORKED;
use test_rows::{Tried, rows};

// How many packets are refused, what is shown and told, and the counts.
struct Row {
    bytes: &'static [u8],
    counts: (u64, u64, u64),
    read: u64,
    canonical: u64,
    quotes: usize,
    told: &'static str,
}

#[test]
fn refused_packets_are_told(rt: HostRuntime) -> Tried {
    const ROWS: &[Row] = rows! { Row { bytes, counts, read, canonical, quotes, told }:
        b"\x88\xf0\x81\x81\x41\xc2\xfe\x00\xe4", (1, 0, 1), 9, 9, 1, "";
        // an unknown template between two quotes
        b"\x88\xf0\x81\x81\x41\xc2\xfe\x00\xe4\x84\xc0\xff\x81\x82\x88\xf0\x81\x81\x41\xc2\xfe\x00\xe4", (3, 1, 2), 23,
            18, 2, "refused D9 packet=2 message=1 offset=11 template=0 instruction=0\n";
        // a packet ends inside a message, and its entries are not those of the next one
        b"\x8a\xf0\x81\x81\x41\xc2\xfe\x00\xe4\x80\x80\x83\x80\x80\x81\x88\xf0\x81\x81\x41\xc2\xfe\x00\xe4", (3, 2, 2),
            24, 9, 2,
            "refused BlockEnd packet=1 message=2 offset=10 template=1 instruction=3\nrefused D5 packet=2 message=1 offset=13 template=0 instruction=0\n";
        // a size ends the run: behind it no packet is known
        b"\x88\xf0\x81\x81\x41\xc2\xfe\x00\xe4\x80\x88\xf0\x81\x81\x41\xc2\xfe\x00\xe4", (2, 1, 1), 9, 9, 1,
            "refused D12 packet=2 message=1 offset=9 template=0 instruction=0\n";
        // a size that is not whole
        b"\x88\xf0\x81\x81\x41\xc2\xfe\x00\xe4\x01", (2, 1, 1), 9, 9, 1,
            "refused Truncated packet=2 message=1 offset=9 template=0 instruction=0\n";
        // a packet that is not whole
        b"\x90\xf0\x81\x81\x41\xc2\xfe\x00\xe4", (1, 1, 1), 9, 0, 1,
            "refused Truncated packet=1 message=2 offset=9 template=0 instruction=0\n";
        // one that is not whole, and is refused for what has come of it
        b"\x90\xc0\xff\x81", (1, 1, 0), 4, 0, 0, "refused D9 packet=1 message=1 offset=2 template=0 instruction=0\n";
    };
    let on = loaded(&rt, rt.alloc(), WORKED)?;
    for row in ROWS {
        let mut lines = Vec::new(rt.alloc());
        for _ in 0..row.quotes {
            lines.extend_from_slice(QUOTE_LINE.as_bytes())?;
        }
        let shown = counted(row.counts, row.read, lines.len() as u64);
        let checked = counted(row.counts, row.read, row.canonical);
        for step in [1, 2, 7, 4096] {
            let given = going_on(row.bytes).in_steps(step);
            gives(&rt, &on, SHOW, given, shown, &lines, row.told)?;
            gives(&rt, &on, Call::Check, given, checked, b"", row.told)?;
        }
    }
    Ok(())
}

// A read that fails ends the run, behind what was told.
#[test]
fn devices_end_the_run(rt: HostRuntime) -> Tried {
    let on = loaded(&rt, rt.alloc(), WORKED)?;
    let bytes = b"\x82\xc0\xff\x88\xf0\x81\x81\x41\xc2\xfe\x00\xe4";
    let told = "refused D9 packet=1 message=1 offset=2 template=0 instruction=0\n";
    let given = going_on(bytes).that_fails(9);
    let unread = refused(Cause::Read, 2, 1, (7, 1, 2));
    gives(&rt, &on, Call::Check, given, unread, b"", told)?;
    // what has come of a packet is refused, and told
    let given = going_on(b"\x90\xc0\xff\x81\x81").that_fails(5);
    let unread = refused(Cause::Read, 2, 1, (4, 0, 0));
    gives(&rt, &on, Call::Check, given, unread, b"", told)
}

// A line of JSON says its packet first, also behind one that is refused.
#[test]
fn lines_of_json_say_their_packet(rt: HostRuntime) -> Tried {
    let on = loaded(&rt, rt.alloc(), WORKED)?;
    let bytes =
        b"\x8b\xf0\x81\x81\x41\xc2\xfe\x00\xe4\x80\x80\x81\x84\xc0\xff\x81\x82\x88\xf0\x81\x81\x41\xc2\xfe\x00\xe4";
    let lines =
        b"{\"packet\":1,\"template\":\"Quote\",\"id\":1,\"fields\":{\"Seq\":1,\"Sym\":\"AB\",\"Px\":100e-2,\"Qty\":null}}\n\
{\"packet\":1,\"template\":\"Quote\",\"id\":1,\"fields\":{\"Seq\":2,\"Sym\":\"AB\",\"Px\":101e-2,\"Qty\":null}}\n\
{\"packet\":3,\"template\":\"Quote\",\"id\":1,\"fields\":{\"Seq\":1,\"Sym\":\"AB\",\"Px\":100e-2,\"Qty\":null}}\n";
    let told = "refused D9 packet=2 message=1 offset=14 template=0 instruction=0\n";
    for step in [1, 2, 4096] {
        let given = going_on(bytes).in_steps(step);
        let shown = counted((3, 1, 3), bytes.len() as u64, lines.len() as u64);
        gives(&rt, &on, Call::Show(Form::Json), given, shown, lines, told)?;
    }
    Ok(())
}
