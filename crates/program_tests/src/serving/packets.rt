//! The program over recordings of packets: its exit status, what it writes, and what it says.

use crate::base::*;
use crate::serving::strict::OVER_QUOTES;

const SHOW: &[&str] = &["fastcat", "show", "--packets", "--templates", TEMPLATES];

const SHOW_JSON: &[&str] =
    list! { "fastcat", "show", "--json", "--packets", "--templates", TEMPLATES };

const CHECK: &[&str] = &["fastcat", "check", "--packets", "--templates", TEMPLATES];

pub const CANON: &[&str] = &["fastcat", "canon", "--packets", "--templates", TEMPLATES];

const CANON_STRICTLY: &[&str] =
    list! { "fastcat", "canon", "--strict", "--packets", "--templates", TEMPLATES };

const CANON_HEX: &[&str] =
    list! { "fastcat", "canon", "--packets", "--hex", "--templates", TEMPLATES };

const CHECK_HEX: &[&str] =
    list! { "fastcat", "check", "--hex", "--packets", "--templates", TEMPLATES };

const SHOW_ON: &[&str] =
    list! { "fastcat", "show", "--packets", "--keep-going", "--templates", TEMPLATES };

const JSON_ON: &[&str] =
    list! { "fastcat", "show", "--keep-going", "--json", "--packets", "--templates", TEMPLATES };

const CHECK_ON: &[&str] =
    list! { "fastcat", "check", "--keep-going", "--packets", "--templates", TEMPLATES };

const CHECK_STRICTLY_ON: &[&str] =
    list! { "fastcat", "check", "--strict", "--keep-going", "--packets", "--templates", TEMPLATES };

const EXPLAINED: &[&str] =
    list! { "fastcat", "check", "--packets", "--explain", "--templates", TEMPLATES };

#[test]
fn recordings(rt: HostRuntime) -> Tried {
    const ROWS: &[Row] = rows! {
        SHOW, b"", 0, b"", "";
        CHECK, b"", 0, b"ok packets=0 messages=0 bytes=0 canonical=0\n", "";
        CANON, b"", 0, b"", "";
        SHOW, b"\x88\xf0\x81\x81\x41\xc2\xfe\x00\xe4\x88\xf0\x81\x81\x41\xc2\xfe\x00\xe4", 0,
            b"1 Quote Seq=1 Sym=\"AB\" Px=100e-2 Qty=-\n1 Quote Seq=1 Sym=\"AB\" Px=100e-2 Qty=-\n", "";
        SHOW_JSON, b"\x88\xf0\x81\x81\x41\xc2\xfe\x00\xe4\x88\xf0\x81\x81\x41\xc2\xfe\x00\xe4", 0,
            b"{\"packet\":1,\"template\":\"Quote\",\"id\":1,\"fields\":{\"Seq\":1,\"Sym\":\"AB\",\"Px\":100e-2,\"Qty\":null}}\n{\"packet\":2,\"template\":\"Quote\",\"id\":1,\"fields\":{\"Seq\":1,\"Sym\":\"AB\",\"Px\":100e-2,\"Qty\":null}}\n",
            "";
        CHECK, b"\x88\xf0\x81\x81\x41\xc2\xfe\x00\xe4\x88\xf0\x81\x81\x41\xc2\xfe\x00\xe4", 0,
            b"ok packets=2 messages=2 bytes=18 canonical=18\n", "";
        CANON, b"\x88\xf0\x81\x81\x41\xc2\xfe\x00\xe4\x88\xf0\x81\x81\x41\xc2\xfe\x00\xe4", 0,
            b"\x88\xf0\x81\x81\x41\xc2\xfe\x00\xe4\x88\xf0\x81\x81\x41\xc2\xfe\x00\xe4", "";
        CHECK, b"\x00\x88\xf0\x81\x81\x41\xc2\xfe\x00\xe4", 0, b"ok packets=1 messages=1 bytes=10 canonical=9\n", "";
        CANON, b"\x00\x88\xf0\x81\x81\x41\xc2\xfe\x00\xe4", 0, b"\x88\xf0\x81\x81\x41\xc2\xfe\x00\xe4", "";
        CANON_STRICTLY, b"\x00\x88\xf0\x81\x81\x41\xc2\xfe\x00\xe4", 1, b"",
            "refused R6 packet=1 message=1 offset=0 template=0 instruction=0\n";
        CANON_STRICTLY, b"\x88\xf0\x81\x81\x41\xc2\xfe\x00\xe4", 0, b"\x88\xf0\x81\x81\x41\xc2\xfe\x00\xe4", "";
        SHOW, b"\x88\xf0\x81\x81\x41\xc2\xfe\x00\xe4\x83\x80\x80\x81", 1, b"1 Quote Seq=1 Sym=\"AB\" Px=100e-2 Qty=-\n",
            "refused D5 packet=2 message=1 offset=11 template=0 instruction=0\n";
        CANON, b"\x88\xf0\x81\x81\x41\xc2\xfe\x00\xe4\x83\x80\x80\x81", 1, b"\x88\xf0\x81\x81\x41\xc2\xfe\x00\xe4",
            "refused D5 packet=2 message=1 offset=11 template=0 instruction=0\n";
        CHECK, b"\x88\xf0\x81\x81\x41\xc2\xfe\x00\xe4\x83\x80\x80\x81", 1, b"",
            "refused D5 packet=2 message=1 offset=11 template=0 instruction=0\n";
        CHECK, b"\x88\xf0\x81\x81\x41\xc2\xfe\x00\xe4\x80", 1, b"",
            "refused D12 packet=2 message=1 offset=9 template=0 instruction=0\n";
        CHECK, b"\x04\x00\x80", 1, b"", "refused Limit packet=1 message=1 offset=0 template=0 instruction=0\n";
        CHECK, b"\x87\xf0\x81\x81\x41\xc2\xfe\x00\xe4", 1, b"",
            "refused BlockEnd packet=1 message=1 offset=6 template=1 instruction=3\n";
        CHECK, b"\x89\xf0\x81\x81\x41\xc2\xfe\x00\xe4", 1, b"",
            "refused Truncated packet=1 message=2 offset=9 template=0 instruction=0\n";
    };
    rows_are_served(&rt, rt.alloc(), &OVER_QUOTES, ROWS)
}

#[test]
fn recordings_in_hex(rt: HostRuntime) -> Tried {
    const ROWS: &[Row] = rows! {
        CANON_HEX, b"00 88 f0818141c2fe00e4", 0, b"88f0818141c2fe00e4\n", "";
        CANON_HEX, b"88f0818141c2fe00e4 83808081", 1, b"88f0818141c2fe00e4\n",
            "refused D5 packet=2 message=1 offset=11 template=0 instruction=0\n";
        CANON_HEX, b"88f", 2, b"", "input is not hex\n";
        CHECK_HEX, b"88f0818141c2fe00e4", 0, b"ok packets=1 messages=1 bytes=9 canonical=9\n", "";
    };
    rows_are_served(&rt, rt.alloc(), &OVER_QUOTES, ROWS)
}

#[test]
fn refused_packets_are_told(rt: HostRuntime) -> Tried {
    const ROWS: &[Row] = rows! {
        CHECK_ON, b"\x88\xf0\x81\x81\x41\xc2\xfe\x00\xe4\x88\xf0\x81\x81\x41\xc2\xfe\x00\xe4", 0,
            b"ok packets=2 messages=2 bytes=18 canonical=18\n", "";
        CHECK_ON, b"\x88\xf0\x81\x81\x41\xc2\xfe\x00\xe4\x84\xc0\xff\x81\x82\x88\xf0\x81\x81\x41\xc2\xfe\x00\xe4", 1,
            b"packets=3 refused=1 messages=2 bytes=23 canonical=18\n",
            "refused D9 packet=2 message=1 offset=11 template=0 instruction=0\n";
        SHOW_ON, b"\x88\xf0\x81\x81\x41\xc2\xfe\x00\xe4\x84\xc0\xff\x81\x82\x88\xf0\x81\x81\x41\xc2\xfe\x00\xe4", 1,
            b"1 Quote Seq=1 Sym=\"AB\" Px=100e-2 Qty=-\n1 Quote Seq=1 Sym=\"AB\" Px=100e-2 Qty=-\n",
            "refused D9 packet=2 message=1 offset=11 template=0 instruction=0\n";
        JSON_ON, b"\x88\xf0\x81\x81\x41\xc2\xfe\x00\xe4\x84\xc0\xff\x81\x82\x88\xf0\x81\x81\x41\xc2\xfe\x00\xe4", 1,
            b"{\"packet\":1,\"template\":\"Quote\",\"id\":1,\"fields\":{\"Seq\":1,\"Sym\":\"AB\",\"Px\":100e-2,\"Qty\":null}}\n{\"packet\":3,\"template\":\"Quote\",\"id\":1,\"fields\":{\"Seq\":1,\"Sym\":\"AB\",\"Px\":100e-2,\"Qty\":null}}\n",
            "refused D9 packet=2 message=1 offset=11 template=0 instruction=0\n";
        SHOW_ON, b"\x8a\xf0\x81\x81\x41\xc2\xfe\x00\xe4\xc0\xff\x88\xf0\x81\x81\x41\xc2\xfe\x00\xe4", 1,
            b"1 Quote Seq=1 Sym=\"AB\" Px=100e-2 Qty=-\n1 Quote Seq=1 Sym=\"AB\" Px=100e-2 Qty=-\n",
            "refused D9 packet=1 message=2 offset=10 template=0 instruction=0\n";
        CHECK_ON, b"\x88\xf0\x81\x81\x41\xc2\xfe\x00\xe4\x80\x88\xf0\x81\x81\x41\xc2\xfe\x00\xe4", 1,
            b"packets=2 refused=1 messages=1 bytes=9 canonical=9\n",
            "refused D12 packet=2 message=1 offset=9 template=0 instruction=0\n";
        CHECK_STRICTLY_ON, b"\x88\xf0\x81\x81\x41\xc2\xfe\x00\xe4\x00\x88\xf0\x81\x81\x41\xc2\xfe\x00\xe4", 1,
            b"packets=2 refused=1 messages=1 bytes=9 canonical=9\n",
            "refused R6 packet=2 message=1 offset=9 template=0 instruction=0\n";
        CHECK_ON, b"\x90\xf0\x81\x81\x41\xc2\xfe\x00\xe4", 1, b"packets=1 refused=1 messages=1 bytes=9 canonical=0\n",
            "refused Truncated packet=1 message=2 offset=9 template=0 instruction=0\n";
    };
    rows_are_served(&rt, rt.alloc(), &OVER_QUOTES, ROWS)
}

#[test]
fn refused_packets_are_explained(rt: HostRuntime) -> Tried {
    const ROWS: &[Row] = rows! {
        EXPLAINED, b"\x88\xf0\x81\x81\x41\xc2\xfe\x00\xe4\x84\xc0\xff\x81\x82", 1, b"",
            "refused D9 packet=2 message=1 offset=11 template=0 instruction=0\n\
                explain: packet 2, message 1, offset 11: no template has the identifier 127; add the template, or see that the stream begins where a message does\n\
                explain: if the input has no packets, leave out --packets; if entries go on from packet to packet, give --blocks; if other bytes stand before each packet\'s messages, take them out\n";
    };
    rows_are_served(&rt, rt.alloc(), &OVER_QUOTES, ROWS)
}
