//! Quotes of the worked templates.

use crate::sent::Shown::{Absent, Decimal, Number, Text};
use crate::sent::{Sent, text};
use fast_stream::{Message, Node};
use fast_template::Scalar;
use std::alloc::Global;
use test_rows::{Tried, rows};

/// Seq=1 Sym="AB" Px=100e-2, and no Qty.
pub const QUOTE: &[u8] = b"\xF0\x81\x81\x41\xC2\xFE\x00\xE4";

/// Two quotes, the second one spelled out, and its canonical bytes.
pub const TWO: &[u8] = b"\xf0\x81\x81\x41\xc2\xfe\x00\xe4\xf8\x81\x82\x41\xc2\x80\x81\x80";

pub const TWO_SHORT: &[u8] = b"\xf0\x81\x81\x41\xc2\xfe\x00\xe4\x80\x80\x81";

/// The first quote.
pub const ONE: &[Sent] = rows! { Sent:
    1, &[Number(1), Text(b"AB"), Decimal(-2, 100), Absent];
};

/// And a second one.
pub const BOTH: &[Sent] = rows! { Sent:
    1, &[Number(1), Text(b"AB"), Decimal(-2, 100), Absent];
    1, &[Number(2), Text(b"AB"), Decimal(-2, 101), Absent];
};

/// A message of the template Quote with this symbol and this price, and no quantity.
pub fn quote(alloc: Global, symbol: &[u8], exponent: i32, mantissa: i64) -> Tried<Message> {
    let price = Node::Value(Scalar::Decimal { exponent, mantissa });
    let (first, symbol) = (Node::Value(Scalar::U32(1)), text(alloc, symbol)?);
    let fields = vec![in alloc; first, symbol, price, Node::Absent]?;
    let template = 1;
    Ok(Message { template, fields })
}
