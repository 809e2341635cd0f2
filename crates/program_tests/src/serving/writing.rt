//! The program over lines that are written: its exit status, what it writes, and what it says.

use crate::base::*;
use crate::serving::strict::OVER_QUOTES;

const WRITE: &[&str] = &["fastcat", "write", "--templates", TEMPLATES];

const WRITE_HEX: &[&str] = &["fastcat", "write", "--hex", "--templates", TEMPLATES];

pub const WRITE_PACKETS: &[&str] = &["fastcat", "write", "--packets", "--templates", TEMPLATES];

#[test]
fn lines_are_written(rt: HostRuntime) -> Tried {
    const ROWS: &[Row] = rows! {
        WRITE, b"", 0, b"", "";
        WRITE, b"{\"template\":\"Quote\",\"id\":1,\"fields\":{\"Seq\":1,\"Sym\":\"AB\",\"Px\":100e-2,\"Qty\":null}}\n",
            0, b"\xf0\x81\x81\x41\xc2\xfe\x00\xe4", "";
        WRITE, b" {\"fields\":{\"Px\":1.00,\"Sym\":\"A\\u0042\",\"Seq\":\"1\"},\"id\":1}", 0,
            b"\xf0\x81\x81\x41\xc2\xfe\x00\xe4", "";
        WRITE,
            b"{\"template\":\"Quote\",\"id\":1,\"fields\":{\"Seq\":1,\"Sym\":\"AB\",\"Px\":100e-2,\"Qty\":null}}\n\r\n{\"template\":\"Quote\",\"id\":1,\"fields\":{\"Seq\":2,\"Sym\":\"AB\",\"Px\":101e-2,\"Qty\":null}}\n",
            0, b"\xf0\x81\x81\x41\xc2\xfe\x00\xe4\x80\x80\x81", "";
        WRITE_HEX,
            b"{\"template\":\"Quote\",\"id\":1,\"fields\":{\"Seq\":1,\"Sym\":\"AB\",\"Px\":100e-2,\"Qty\":null}}\n", 0,
            b"f0818141c2fe00e4\n", "";
        WRITE_PACKETS,
            b"{\"packet\":1,\"template\":\"Quote\",\"id\":1,\"fields\":{\"Seq\":1,\"Sym\":\"AB\",\"Px\":100e-2,\"Qty\":null}}\n{\"packet\":2,\"template\":\"Quote\",\"id\":1,\"fields\":{\"Seq\":1,\"Sym\":\"AB\",\"Px\":100e-2,\"Qty\":null}}\n",
            0, b"\x88\xf0\x81\x81\x41\xc2\xfe\x00\xe4\x88\xf0\x81\x81\x41\xc2\xfe\x00\xe4", "";
        WRITE_PACKETS,
            b"{\"packet\":3,\"template\":\"Quote\",\"id\":1,\"fields\":{\"Seq\":1,\"Sym\":\"AB\",\"Px\":100e-2,\"Qty\":null}}\n{\"packet\":3,\"template\":\"Quote\",\"id\":1,\"fields\":{\"Seq\":2,\"Sym\":\"AB\",\"Px\":101e-2,\"Qty\":null}}\n",
            0, b"\x8b\xf0\x81\x81\x41\xc2\xfe\x00\xe4\x80\x80\x81", "";
        WRITE,
            b"{\"template\":\"Quote\",\"id\":1,\"fields\":{\"Seq\":1,\"Sym\":\"AB\",\"Px\":100e-2,\"Qty\":null}}\n{\"template\":\"Quote\",\"id\":1,\"fields\":{\"Seq\":true,\"Sym\":\"AB\",\"Px\":100e-2,\"Qty\":null}}\n",
            1, b"\xf0\x81\x81\x41\xc2\xfe\x00\xe4", "refused Mismatch line=2 template=1 instruction=1\n";
        WRITE,
            b"{\"template\":\"Quote\",\"id\":1,\"fields\":{\"Seq\":4294967296,\"Sym\":\"AB\",\"Px\":100e-2,\"Qty\":null}}\n",
            1, b"", "refused D2 line=1 template=1 instruction=1\n";
        WRITE, b"{\n", 1, b"", "refused Json line=1 template=0 instruction=0\n";
        WRITE,
            b"{\"packet\":1,\"template\":\"Quote\",\"id\":1,\"fields\":{\"Seq\":1,\"Sym\":\"AB\",\"Px\":100e-2,\"Qty\":null}}\n",
            1, b"", "refused Line line=1 template=0 instruction=0\n";
        WRITE_PACKETS,
            b"{\"template\":\"Quote\",\"id\":1,\"fields\":{\"Seq\":1,\"Sym\":\"AB\",\"Px\":100e-2,\"Qty\":null}}\n", 1,
            b"", "refused Line line=1 template=0 instruction=0\n";
        WRITE_PACKETS,
            b"{\"packet\":2,\"template\":\"Quote\",\"id\":1,\"fields\":{\"Seq\":1,\"Sym\":\"AB\",\"Px\":100e-2,\"Qty\":null}}\n{\"packet\":1,\"template\":\"Quote\",\"id\":1,\"fields\":{\"Seq\":1,\"Sym\":\"AB\",\"Px\":100e-2,\"Qty\":null}}\n",
            1, b"\x88\xf0\x81\x81\x41\xc2\xfe\x00\xe4", "refused Line line=2 template=0 instruction=0\n";
    };
    rows_are_served(&rt, rt.alloc(), &OVER_QUOTES, ROWS)
}
