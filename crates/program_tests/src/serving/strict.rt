//! The program at the strict level: its exit status, what it writes, and what it says.

use crate::base::*;
use crate::serving::programs::{CANON, SHOW};

// Two of the worked templates.
pub const QUOTES: &str = r#"{"templates":[{"name":"Quote","id":1,"instructions":[
 {"kind":"uInt32","name":"Seq","operator":"increment"},{"kind":"string","name":"Sym","operator":"copy"},
 {"kind":"decimal","name":"Px","operator":"delta"},
 {"kind":"uInt32","name":"Qty","presence":"optional","operator":"copy"}]},{"name":"Opt","id":3,"instructions":[
 {"kind":"decimal","name":"Px","presence":"optional","exponent":{"operator":"default","value":"2"},
 "mantissa":{"operator":"copy"}},{"kind":"uInt32","name":"Flag","operator":"copy"}]}]}"#;

pub const OVER_QUOTES: Case = Case {
    templates: Templates::Quotes,
    ..CASE
};

pub const SHOW_STRICTLY: &[&str] = &["fastcat", "show", "--strict", "--templates", TEMPLATES];

const CHECK_STRICTLY: &[&str] = &["fastcat", "check", "--templates", TEMPLATES, "--strict"];

pub const CANON_STRICTLY: &[&str] = &["fastcat", "canon", "--strict", "--templates", TEMPLATES];

pub const QUOTE_LINE: &[u8] = b"1 Quote Seq=1 Sym=\"AB\" Px=100e-2 Qty=-\n";

#[test]
fn overlong_streams(rt: HostRuntime) -> Tried {
    const ROWS: &[Row] = rows! {
        SHOW_STRICTLY, b"\xf0\x81\x00\x00\x81\x41\xc2\xfe\x00\xe4", 1, b"",
            "refused R6 message=1 offset=2 template=1 instruction=1\n";
        CHECK_STRICTLY, b"\x70\x00\x80\x81\x81\x41\xc2\xfe\x00\xe4", 1, b"",
            "refused R7 message=1 offset=0 template=0 instruction=0\n";
        CANON_STRICTLY, b"\xf1\x81\x81\x41\xc2\xfe\x00\xe4", 1, b"",
            "refused R8 message=1 offset=8 template=1 instruction=0\n";
        SHOW_STRICTLY, b"\xf0\x81\x81\x00\xc1\xfe\x00\xe4", 1, b"",
            "refused R9 message=1 offset=3 template=1 instruction=2\n";
        CHECK_STRICTLY, b"\xf8\x81\x81\x41\xc2\xfe\x00\xe4\x00\x80", 1, b"",
            "refused R6 message=1 offset=8 template=1 instruction=4\n";
        CANON_STRICTLY, b"\xf0\x81\x81\x41\xc2\x7f\xfe\x00\xe4", 1, b"",
            "refused R6 message=1 offset=5 template=1 instruction=3\n";
        SHOW_STRICTLY, b"\xf8\x83\x80\x85", 1, b"", "refused R8 message=1 offset=4 template=3 instruction=0\n";
        SHOW_STRICTLY, b"\xf0\x81\x81\x41\xc2\xfe\x00\xe4\x80\x80\x00\x81", 1, QUOTE_LINE,
            "refused R6 message=2 offset=9 template=1 instruction=3\n";
        CANON_STRICTLY, b"\xf0\x81\x81\x41\xc2\xfe\x00\xe4\x80\x80\x00\x81", 1, b"\xf0\x81\x81\x41\xc2\xfe\x00\xe4",
            "refused R6 message=2 offset=9 template=1 instruction=3\n";
        CHECK_STRICTLY, b"\xf0\x81\x81\x41\xc2\xfe\x00\xe4\x80\x80\x00\x81", 1, b"",
            "refused R6 message=2 offset=9 template=1 instruction=3\n";
    };
    const OTHERS: &[Row] = rows! {
        SHOW_STRICTLY, b"\xe0\x90\x85\x86\xe0\x90\x00\x87\x86", 1, b"16 First A=5 B=6\n",
            "refused R6 message=2 offset=6 template=16 instruction=1\n";
    };
    rows_are_served(&rt, rt.alloc(), &OVER_QUOTES, ROWS)?;
    rows_are_served(&rt, rt.alloc(), &CASE, OTHERS)
}

#[test]
fn streams_that_are_not_overlong(rt: HostRuntime) -> Tried {
    const ROWS: &[Row] = rows! {
        SHOW_STRICTLY, b"\xf8\x83\x83\x39\x45\xa3\x85", 0, b"3 Opt Px=942755e2 Flag=5\n", "";
        CANON_STRICTLY, b"\xf8\x83\x83\x39\x45\xa3\x85", 0, b"\xd8\x83\x39\x45\xa3\x85", "";
        CHECK_STRICTLY, b"\xf8\x83\x83\x39\x45\xa3\x85", 0, b"ok messages=1 bytes=7 canonical=6\n", "";
        SHOW_STRICTLY, b"\xf8\x83\x83\x00\x40\x81\x85", 0, b"3 Opt Px=8193e2 Flag=5\n", "";
        SHOW_STRICTLY, b"\xf8\x83\x83\x7f\x3f\xff\x85", 0, b"3 Opt Px=-8193e2 Flag=5\n", "";
        SHOW_STRICTLY, b"\xf0\x81\x81\x41\xc2\xfe\x00\xe4", 0, QUOTE_LINE, "";
        CANON, b"\xf0\x81\x81\x00\xc1\xfe\x00\xe4", 0, b"\xf0\x81\x81\xc1\xfe\x00\xe4", "";
        SHOW, b"\xf0\x81\x81\x00\xc1\xfe\x00\xe4", 0, b"1 Quote Seq=1 Sym=\"A\" Px=100e-2 Qty=-\n", "";
        SHOW, b"\xf1\x81\x81\x41\xc2\xfe\x00\xe4", 0, QUOTE_LINE, "";
        SHOW, b"\xf8\x83\x80\x85", 0, b"3 Opt Px=- Flag=5\n", "";
    };
    rows_are_served(&rt, rt.alloc(), &OVER_QUOTES, ROWS)
}
