//! The forms of a line.

ghost use Rattle.fast_lines.specs.declared.form.Form.TheVariants.{Text, Json};

use crate::bytes::{push, push_byte, push_hex, push_unsigned};
use crate::digits::lay_unsigned;
use crate::signs::{Escape, Signs};
use crate::strings::{lay_quoted, lay_text_unit, push_quoted};
use crate::tail::{LONGEST, lay_byte, lay_hex, lay_hex_pair, lay_if, lay_short, lay_text};
use std::alloc::AllocError;

/// How a message is written as a line.
#[derive(Clone, Copy, Debug, PartialEq, Eq)]
pub enum Form {
    /// `ID TEMPLATE NAME=VALUE ..`.
    Text,
    /// One JSON text, `{"template":TEMPLATE,"id":ID,"fields":{NAME:VALUE,..}}`.
    Json,
}

/// The signs of a text.
#[derive(Clone, Copy)]
pub struct TextSigns;

/// The signs of a JSON text.
#[derive(Clone, Copy)]
pub struct JsonSigns;

impl Escape for TextSigns {
    ghost form = { Text };

    #[inline(always)]
    fn lay_unit(self, byte: u8, bytes: &mut [u8], at: usize) -> usize {
        lay_text_unit(byte, bytes, at)
    }
}

impl Signs for TextSigns {
    #[inline(always)]
    fn between(self) -> &'static [u8] {
        b" "
    }

    #[inline(always)]
    fn is_led(self) -> bool {
        true
    }

    #[inline(always)]
    fn absent(self) -> &'static [u8] {
        b"-"
    }

    #[inline(always)]
    fn ending(self) -> &'static [u8] {
        b"\n"
    }

    fn push_vector(self, bytes: &[u8], out: &mut Vec<u8>) -> Result<(), AllocError> {
        push_byte(b'x', out)?;
        push_hex(bytes, out)
    }

    #[inline(always)]
    fn lay_vector(self, vector: &[u8], bytes: &mut [u8], at: usize) -> Option<usize> {
        let at = lay_byte(bytes, at, b'x');
        lay_hex(bytes, at, vector)
    }

    #[inline(always)]
    fn push_label(self, name: &str, out: &mut Vec<u8>) -> Result<(), AllocError> {
        push(name.as_bytes(), out)?;
        push_byte(b'=', out)
    }

    #[inline(always)]
    fn lay_label(self, led: bool, name: &str, bytes: &mut [u8], at: usize) -> Option<usize> {
        let at = lay_if(bytes, at, b' ', led);
        match lay_short(bytes, at, name.as_bytes()) {
            Some(at) => Some(lay_byte(bytes, at, b'=')),
            None => None,
        }
    }

    #[inline(always)]
    fn push_head(self, id: u32, name: &str, out: &mut Vec<u8>) -> Result<(), AllocError> {
        push_unsigned(u64::from(id), out)?;
        push_byte(b' ', out)?;
        push(name.as_bytes(), out)
    }

    #[inline(always)]
    fn lay_head(self, id: u32, name: &str, bytes: &mut [u8], at: usize) -> Option<usize> {
        let name = name.as_bytes();
        if name.len() > LONGEST {
            return None;
        }
        let at = lay_unsigned(bytes, at, u64::from(id));
        let at = lay_byte(bytes, at, b' ');
        Some(lay_text(bytes, at, name))
    }
}

impl Escape for JsonSigns {
    ghost form = { Json };

    #[inline(always)]
    fn lay_unit(self, byte: u8, bytes: &mut [u8], at: usize) -> usize {
        if byte < 0x20 || byte == 0x7F {
            let at = lay_text(bytes, at, b"\\u00");
            return lay_hex_pair(bytes, at, byte);
        }
        let at = lay_if(bytes, at, b'\\', byte == b'"' || byte == b'\\');
        lay_byte(bytes, at, byte)
    }
}

impl Signs for JsonSigns {
    #[inline(always)]
    fn between(self) -> &'static [u8] {
        b","
    }

    #[inline(always)]
    fn is_led(self) -> bool {
        false
    }

    #[inline(always)]
    fn absent(self) -> &'static [u8] {
        b"null"
    }

    #[inline(always)]
    fn ending(self) -> &'static [u8] {
        b"}}\n"
    }

    fn push_vector(self, bytes: &[u8], out: &mut Vec<u8>) -> Result<(), AllocError> {
        push_byte(b'"', out)?;
        push_hex(bytes, out)?;
        push_byte(b'"', out)
    }

    #[inline(always)]
    fn lay_vector(self, vector: &[u8], bytes: &mut [u8], at: usize) -> Option<usize> {
        let at = lay_byte(bytes, at, b'"');
        match lay_hex(bytes, at, vector) {
            Some(at) => Some(lay_byte(bytes, at, b'"')),
            None => None,
        }
    }

    #[inline(always)]
    fn push_label(self, name: &str, out: &mut Vec<u8>) -> Result<(), AllocError> {
        push_quoted(self, name.as_bytes(), out)?;
        push_byte(b':', out)
    }

    #[inline(always)]
    fn lay_label(self, led: bool, name: &str, bytes: &mut [u8], at: usize) -> Option<usize> {
        let at = lay_if(bytes, at, b',', led);
        match lay_quoted(self, name.as_bytes(), bytes, at) {
            Some(at) => Some(lay_byte(bytes, at, b':')),
            None => None,
        }
    }

    #[inline(always)]
    fn push_head(self, id: u32, name: &str, out: &mut Vec<u8>) -> Result<(), AllocError> {
        push(b"{\"template\":", out)?;
        push_quoted(self, name.as_bytes(), out)?;
        push(b",\"id\":", out)?;
        push_unsigned(u64::from(id), out)?;
        push(b",\"fields\":{", out)
    }

    #[inline(always)]
    fn lay_head(self, id: u32, name: &str, bytes: &mut [u8], at: usize) -> Option<usize> {
        let at = lay_text(bytes, at, b"{\"template\":");
        match lay_quoted(self, name.as_bytes(), bytes, at) {
            Some(at) => {
                let at = lay_text(bytes, at, b",\"id\":");
                let at = lay_unsigned(bytes, at, u64::from(id));
                Some(lay_text(bytes, at, b",\"fields\":{"))
            }
            None => None,
        }
    }
}
