//! The least and the greatest value of each number's type, under each operator and bit.

use std::alloc::Global;
use test_rows::{Tried, rows};

/// Of each type a template with fields that may be absent and fields that may not: without an operator, with copy,
/// increment (of integers), delta, default and constant. The initial value is the greatest, and the least where a field
/// may be absent.
pub const EXTREMES: &str =
    r#"{"templates":[{"name":"I32","id":1,"instructions":[{"kind":"int32","name":"A"},
 {"kind":"int32","name":"B","presence":"optional"},{"kind":"int32","name":"C","operator":"copy"},
 {"kind":"int32","name":"D","presence":"optional","operator":"copy"},{"kind":"int32","name":"E","operator":"increment"},
 {"kind":"int32","name":"F","presence":"optional","operator":"increment"},
 {"kind":"int32","name":"G","operator":"delta"},{"kind":"int32","name":"H","presence":"optional","operator":"delta"},
 {"kind":"int32","name":"I","operator":"default","value":"2147483647"},
 {"kind":"int32","name":"J","presence":"optional","operator":"default","value":"-2147483648"},
 {"kind":"int32","name":"K","operator":"constant","value":"2147483647"},
 {"kind":"int32","name":"L","presence":"optional","operator":"constant","value":"-2147483648"}]},
 {"name":"U32","id":2,"instructions":[{"kind":"uInt32","name":"A"},{"kind":"uInt32","name":"B","presence":"optional"},
 {"kind":"uInt32","name":"C","operator":"copy"},{"kind":"uInt32","name":"D","presence":"optional","operator":"copy"},
 {"kind":"uInt32","name":"E","operator":"increment"},
 {"kind":"uInt32","name":"F","presence":"optional","operator":"increment"},
 {"kind":"uInt32","name":"G","operator":"delta"},{"kind":"uInt32","name":"H","presence":"optional","operator":"delta"},
 {"kind":"uInt32","name":"I","operator":"default","value":"4294967295"},
 {"kind":"uInt32","name":"J","presence":"optional","operator":"default","value":"0"},
 {"kind":"uInt32","name":"K","operator":"constant","value":"4294967295"},
 {"kind":"uInt32","name":"L","presence":"optional","operator":"constant","value":"0"}]},
 {"name":"I64","id":3,"instructions":[{"kind":"int64","name":"A"},{"kind":"int64","name":"B","presence":"optional"},
 {"kind":"int64","name":"C","operator":"copy"},{"kind":"int64","name":"D","presence":"optional","operator":"copy"},
 {"kind":"int64","name":"E","operator":"increment"},
 {"kind":"int64","name":"F","presence":"optional","operator":"increment"},
 {"kind":"int64","name":"G","operator":"delta"},{"kind":"int64","name":"H","presence":"optional","operator":"delta"},
 {"kind":"int64","name":"I","operator":"default","value":"9223372036854775807"},
 {"kind":"int64","name":"J","presence":"optional","operator":"default","value":"-9223372036854775808"},
 {"kind":"int64","name":"K","operator":"constant","value":"9223372036854775807"},
 {"kind":"int64","name":"L","presence":"optional","operator":"constant","value":"-9223372036854775808"}]},
 {"name":"U64","id":4,"instructions":[{"kind":"uInt64","name":"A"},{"kind":"uInt64","name":"B","presence":"optional"},
 {"kind":"uInt64","name":"C","operator":"copy"},{"kind":"uInt64","name":"D","presence":"optional","operator":"copy"},
 {"kind":"uInt64","name":"E","operator":"increment"},
 {"kind":"uInt64","name":"F","presence":"optional","operator":"increment"},
 {"kind":"uInt64","name":"G","operator":"delta"},{"kind":"uInt64","name":"H","presence":"optional","operator":"delta"},
 {"kind":"uInt64","name":"I","operator":"default","value":"18446744073709551615"},
 {"kind":"uInt64","name":"J","presence":"optional","operator":"default","value":"0"},
 {"kind":"uInt64","name":"K","operator":"constant","value":"18446744073709551615"},
 {"kind":"uInt64","name":"L","presence":"optional","operator":"constant","value":"0"}]},
 {"name":"D","id":5,"instructions":[{"kind":"decimal","name":"A"},{"kind":"decimal","name":"B","presence":"optional"},
 {"kind":"decimal","name":"C","operator":"copy"},{"kind":"decimal","name":"D","presence":"optional","operator":"copy"},
 {"kind":"decimal","name":"E","operator":"delta"},
 {"kind":"decimal","name":"F","presence":"optional","operator":"delta"},
 {"kind":"decimal","name":"G","operator":"default","value":"9223372036854775807e63"},
 {"kind":"decimal","name":"H","presence":"optional","operator":"default","value":"-9223372036854775808e-63"},
 {"kind":"decimal","name":"I","operator":"constant","value":"9223372036854775807e63"},
 {"kind":"decimal","name":"J","presence":"optional","operator":"constant","value":"-9223372036854775808e-63"}]}]}"#;

/// Four messages of such a template, of the greatest value, twice of the least, and of the greatest: with bit 1 wherever it
/// may stand, and the canonical bytes. The constant that may be absent is so in the last.
pub struct Extreme {
    pub template: &'static str,
    /// the names of the fields that are no constants, and of those
    pub fields: &'static str,
    pub constants: [&'static str; 2],
    pub least: &'static str,
    pub greatest: &'static str,
    pub stream: &'static [(&'static [u8], usize)],
    pub canonical: &'static [(&'static [u8], usize)],
}

impl Extreme {
    /// The lines of the messages.
    pub fn lines(&self, alloc: Global) -> Tried<String> {
        let mut lines = String::new(alloc);
        self.push_line(alloc, self.greatest, self.least, &mut lines)?;
        self.push_line(alloc, self.least, self.least, &mut lines)?;
        self.push_line(alloc, self.least, self.least, &mut lines)?;
        self.push_line(alloc, self.greatest, "-", &mut lines)?;
        Ok(lines)
    }

    // The line of a message with this value, and this one of the constant that may be absent.
    fn push_line(&self, alloc: Global, value: &str, last: &str, lines: &mut String) -> Tried {
        lines.push_str(self.template)?;
        for name in self.fields.chars() {
            lines.push_str(&format!(in alloc; " {name}={value}")?)?;
        }
        let [first, second] = self.constants;
        let greatest = self.greatest;
        lines.push_str(&format!(in alloc; " {first}={greatest} {second}={last}\n")?)
    }
}

/// Rows of these templates, each from reset.
pub const EXTREME_ROWS: &[Extreme] = rows! {
    Extreme { template, fields, constants, least, greatest, stream, canonical }:
    "1 I32", "ABCDEFGHIJ", ["K", "L"], "-2147483648", "2147483647",
        &[(b"\x7f\xc0\x81", 1), (b"\x07\x7f\x7f\x7f\xff\x08\x00\x00\x00\x80", 5), (b"\x7f\xc0\x81", 1),
            (b"\x78\x00\x00\x00\x80", 6), (b"\x70\x00\x00\x00\x81", 2), (b"\x78\x00\x00\x00\x80", 2),
            (b"\x7f\xc0\x81", 1), (b"\x78\x00\x00\x00\x80", 6), (b"\x80\x81", 1), (b"\x78\x00\x00\x00\x80", 2),
            (b"\xff\x81", 1), (b"\x07\x7f\x7f\x7f\xff\x08\x00\x00\x00\x80", 3),
            (b"\x0f\x7f\x7f\x7f\xff\x10\x00\x00\x00\x80\x07\x7f\x7f\x7f\xff\x08\x00\x00\x00\x80", 1)],
        &[(b"\x7d\xc0\x81", 1), (b"\x07\x7f\x7f\x7f\xff\x08\x00\x00\x00\x80", 4),
            (b"\x08\x00\x00\x00\x80\x32\xc0", 1), (b"\x78\x00\x00\x00\x80", 4), (b"\x70\x00\x00\x00\x81", 2),
            (b"\x78\x00\x00\x00\x80\x0e\xc0", 1), (b"\x78\x00\x00\x00\x80", 4),
            (b"\x80\x81\x78\x00\x00\x00\x80\xbd", 1), (b"\x07\x7f\x7f\x7f\xff\x08\x00\x00\x00\x80", 3),
            (b"\x0f\x7f\x7f\x7f\xff\x10\x00\x00\x00\x80\x08\x00\x00\x00\x80", 1)];
    "2 U32", "ABCDEFGHIJ", ["K", "L"], "0", "4294967295",
        &[(b"\x7f\xc0\x82", 1), (b"\x0f\x7f\x7f\x7f\xff\x10\x00\x00\x00\x80", 5), (b"\x7f\xc0\x82", 1),
            (b"\x80\x81", 3), (b"\x70\x00\x00\x00\x81", 2), (b"\x80\x81\x7f\xc0\x82", 1), (b"\x80\x81", 5),
            (b"\xff\x82", 1), (b"\x0f\x7f\x7f\x7f\xff\x10\x00\x00\x00\x80", 5)],
        &[(b"\x7d\xc0\x82", 1), (b"\x0f\x7f\x7f\x7f\xff\x10\x00\x00\x00\x80", 4),
            (b"\x10\x00\x00\x00\x80\x32\xc0", 1), (b"\x80\x81", 2), (b"\x70\x00\x00\x00\x81", 2),
            (b"\x80\x0e\xc0", 1), (b"\x80\x81", 3), (b"\x80\xbd", 1),
            (b"\x0f\x7f\x7f\x7f\xff\x10\x00\x00\x00\x80", 4), (b"\x10\x00\x00\x00\x80", 1)];
    "3 I64", "ABCDEFGHIJ", ["K", "L"], "-9223372036854775808", "9223372036854775807",
        &[(b"\x7f\xc0\x83", 1),
            (b"\x00\x7f\x7f\x7f\x7f\x7f\x7f\x7f\x7f\xff\x01\x00\x00\x00\x00\x00\x00\x00\x00\x80", 5),
            (b"\x7f\xc0\x83", 1), (b"\x7f\x00\x00\x00\x00\x00\x00\x00\x00\x80", 6),
            (b"\x7e\x00\x00\x00\x00\x00\x00\x00\x00\x81", 2), (b"\x7f\x00\x00\x00\x00\x00\x00\x00\x00\x80", 2),
            (b"\x7f\xc0\x83", 1), (b"\x7f\x00\x00\x00\x00\x00\x00\x00\x00\x80", 6), (b"\x80\x81", 1),
            (b"\x7f\x00\x00\x00\x00\x00\x00\x00\x00\x80", 2), (b"\xff\x83", 1),
            (b"\x00\x7f\x7f\x7f\x7f\x7f\x7f\x7f\x7f\xff\x01\x00\x00\x00\x00\x00\x00\x00\x00\x80", 3),
            (b"\x01\x7f\x7f\x7f\x7f\x7f\x7f\x7f\x7f\xff\x02\x00\x00\x00\x00\x00\x00\x00\x00\x80", 1),
            (b"\x00\x7f\x7f\x7f\x7f\x7f\x7f\x7f\x7f\xff\x01\x00\x00\x00\x00\x00\x00\x00\x00\x80", 1)],
        &[(b"\x7d\xc0\x83", 1),
            (b"\x00\x7f\x7f\x7f\x7f\x7f\x7f\x7f\x7f\xff\x01\x00\x00\x00\x00\x00\x00\x00\x00\x80", 4),
            (b"\x01\x00\x00\x00\x00\x00\x00\x00\x00\x80\x32\xc0", 1),
            (b"\x7f\x00\x00\x00\x00\x00\x00\x00\x00\x80", 4), (b"\x7e\x00\x00\x00\x00\x00\x00\x00\x00\x81", 2),
            (b"\x7f\x00\x00\x00\x00\x00\x00\x00\x00\x80\x0e\xc0", 1),
            (b"\x7f\x00\x00\x00\x00\x00\x00\x00\x00\x80", 4),
            (b"\x80\x81\x7f\x00\x00\x00\x00\x00\x00\x00\x00\x80\xbd", 1),
            (b"\x00\x7f\x7f\x7f\x7f\x7f\x7f\x7f\x7f\xff\x01\x00\x00\x00\x00\x00\x00\x00\x00\x80", 3),
            (b"\x01\x7f\x7f\x7f\x7f\x7f\x7f\x7f\x7f\xff\x02\x00\x00\x00\x00\x00\x00\x00\x00\x80", 1),
            (b"\x01\x00\x00\x00\x00\x00\x00\x00\x00\x80", 1)];
    "4 U64", "ABCDEFGHIJ", ["K", "L"], "0", "18446744073709551615",
        &[(b"\x7f\xc0\x84", 1),
            (b"\x01\x7f\x7f\x7f\x7f\x7f\x7f\x7f\x7f\xff\x02\x00\x00\x00\x00\x00\x00\x00\x00\x80", 5),
            (b"\x7f\xc0\x84", 1), (b"\x80\x81", 3), (b"\x7e\x00\x00\x00\x00\x00\x00\x00\x00\x81", 2),
            (b"\x80\x81\x7f\xc0\x84", 1), (b"\x80\x81", 5), (b"\xff\x84", 1),
            (b"\x01\x7f\x7f\x7f\x7f\x7f\x7f\x7f\x7f\xff\x02\x00\x00\x00\x00\x00\x00\x00\x00\x80", 5)],
        &[(b"\x7d\xc0\x84", 1),
            (b"\x01\x7f\x7f\x7f\x7f\x7f\x7f\x7f\x7f\xff\x02\x00\x00\x00\x00\x00\x00\x00\x00\x80", 4),
            (b"\x02\x00\x00\x00\x00\x00\x00\x00\x00\x80\x32\xc0", 1), (b"\x80\x81", 2),
            (b"\x7e\x00\x00\x00\x00\x00\x00\x00\x00\x81", 2), (b"\x80\x0e\xc0", 1), (b"\x80\x81", 3),
            (b"\x80\xbd", 1),
            (b"\x01\x7f\x7f\x7f\x7f\x7f\x7f\x7f\x7f\xff\x02\x00\x00\x00\x00\x00\x00\x00\x00\x80", 4),
            (b"\x02\x00\x00\x00\x00\x00\x00\x00\x00\x80", 1)];
    "5 D", "ABCDEFGH", ["I", "J"], "-9223372036854775808e-63", "9223372036854775807e63",
        &[(b"\xfe\x85", 1),
            (b"\xbf\x00\x7f\x7f\x7f\x7f\x7f\x7f\x7f\x7f\xff\x00\xc0\x00\x7f\x7f\x7f\x7f\x7f\x7f\x7f\x7f\xff", 4),
            (b"\xfe\x85", 1), (b"\xc1\x7f\x00\x00\x00\x00\x00\x00\x00\x00\x80", 4),
            (b"\x7f\x82\x7e\x00\x00\x00\x00\x00\x00\x00\x00\x81", 2),
            (b"\xc1\x7f\x00\x00\x00\x00\x00\x00\x00\x00\x80", 2), (b"\xfe\x85", 1),
            (b"\xc1\x7f\x00\x00\x00\x00\x00\x00\x00\x00\x80", 4), (b"\x80\x80\x81\x80", 1),
            (b"\xc1\x7f\x00\x00\x00\x00\x00\x00\x00\x00\x80", 2), (b"\xfc\x85", 1),
            (b"\xbf\x00\x7f\x7f\x7f\x7f\x7f\x7f\x7f\x7f\xff\x00\xc0\x00\x7f\x7f\x7f\x7f\x7f\x7f\x7f\x7f\xff", 2),
            (b"\x00\xfe\x01\x7f\x7f\x7f\x7f\x7f\x7f\x7f\x7f\xff\x00\xff\x01\x7f\x7f\x7f\x7f\x7f\x7f\x7f\x7f\xff", 1),
            (b"\xbf\x00\x7f\x7f\x7f\x7f\x7f\x7f\x7f\x7f\xff\x00\xc0\x00\x7f\x7f\x7f\x7f\x7f\x7f\x7f\x7f\xff", 1)],
        &[(b"\xf6\x85", 1),
            (b"\xbf\x00\x7f\x7f\x7f\x7f\x7f\x7f\x7f\x7f\xff\x00\xc0\x00\x7f\x7f\x7f\x7f\x7f\x7f\x7f\x7f\xff", 3),
            (b"\x00\xc0\x00\x7f\x7f\x7f\x7f\x7f\x7f\x7f\x7f\xff\xba", 1),
            (b"\xc1\x7f\x00\x00\x00\x00\x00\x00\x00\x00\x80", 4),
            (b"\x7f\x82\x7e\x00\x00\x00\x00\x00\x00\x00\x00\x81", 2),
            (b"\xc1\x7f\x00\x00\x00\x00\x00\x00\x00\x00\x80\x8a", 1),
            (b"\xc1\x7f\x00\x00\x00\x00\x00\x00\x00\x00\x80", 2),
            (b"\x80\x80\x81\x80\xc1\x7f\x00\x00\x00\x00\x00\x00\x00\x00\x80\xb4", 1),
            (b"\xbf\x00\x7f\x7f\x7f\x7f\x7f\x7f\x7f\x7f\xff\x00\xc0\x00\x7f\x7f\x7f\x7f\x7f\x7f\x7f\x7f\xff", 2),
            (b"\x00\xfe\x01\x7f\x7f\x7f\x7f\x7f\x7f\x7f\x7f\xff\x00\xff\x01\x7f\x7f\x7f\x7f\x7f\x7f\x7f\x7f\xff", 1),
            (b"\x00\xc0\x00\x7f\x7f\x7f\x7f\x7f\x7f\x7f\x7f\xff", 1)];
};
