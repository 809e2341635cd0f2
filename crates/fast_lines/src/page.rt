//! The text of a line that is open, with room behind it.

ghost use Rattle.std.specs.Prelude.{◌≡◌, ◌≤◌, ◌+◌, ◌-◌, ◌++◌, [], ℕ, List, true, false, length, take, OnOk, OnErr};
ghost use Rattle.std.specs.List.{flat_map};
ghost use Rattle.std.specs.Option.{option_copied};
ghost use Rattle.fast_lines.specs.Lines.{decimal_text, said_text};
ghost use Rattle.fast_lines.specs.Signs.{head_text, label_text, lead, quoted, unit_text};
ghost use Rattle.fast_lines.specs.Written.{Writes};
ghost use Rattle.fast_lines.specs.declared.page.Put.TheVariants as put;

use crate::digits::lay_decimal;
use crate::lines::lay_scalar;
use crate::signs::{Escape, Signs};
use crate::strings::{lay_quoted, lay_units};
use fast_template::Scalar;
use std::alloc::{AllocError, Global};
use std::marker::Model;

/// Bytes of which those in front of `end` are written; those behind it are room, so that what is appended has a fixed size
/// whatever it has of bytes.
#[derive(Drop)]
pub struct Page {
    bytes: Vec<u8>,
    end: usize,
    // behind each place in front of it stand `ROOM` bytes, which is known by one test
    near: usize,
}

impl Model for Page {
    ghost Value = { List ℕ };

    ghost view = { λ p. take p.end p.bytes.items };

    ghost invariant = { λ p. (p.end ≤ length p.bytes.items) × (p.near ≤ length p.bytes.items - 135) };
}

/// What was appended of a field at once.
#[derive(Clone, Copy, Debug, PartialEq, Eq)]
pub enum Put {
    /// Nothing.
    Nothing,
    /// Its label.
    Label,
    /// Its label and its value.
    Field,
}

/// Lengthens bytes until so many more stand behind a place; refused, they stay as they are.
#[inline(never)]
fn lengthen(bytes: &mut Vec<u8>, end: usize, count: usize) -> Result<(), AllocError>
    requires { end ≤ length bytes.old.items }
    ensures same { take end bytes.new.items ≡ take end bytes.old.items }
    ensures room { OnOk result (end + count ≤ length bytes.new.items) }
    ensures grows { length bytes.old.items ≤ length bytes.new.items }
    ensures refused { OnErr result (bytes.new.items ≡ bytes.old.items) }
{
    let wanted = match end.checked_add(count) {
        Some(wanted) => wanted,
        None => return Err(AllocError),
    };
    let double = bytes.len().saturating_mul(2);
    bytes.resize(wanted.max(double), 0)
}

/// Sees that so many bytes stand behind a place.
#[inline(always)]
fn make_room(bytes: &mut Vec<u8>, end: usize, count: usize) -> Result<(), AllocError>
    requires { end ≤ length bytes.old.items }
    ensures same { take end bytes.new.items ≡ take end bytes.old.items }
    ensures room { OnOk result (end + count ≤ length bytes.new.items) }
    ensures grows { length bytes.old.items ≤ length bytes.new.items }
{
    if bytes.len() - end < count {
        lengthen(bytes, end, count)
    } else {
        Ok(())
    }
}

/// So much room is seen to for what is laid out at once: a label and a short value.
const ROOM: usize = 136;

impl Page {
    /// Of nothing. Takes no memory.
    #[inline(always)]
    pub fn new(alloc: Global) -> Page
        ensures { result ≡ [] }
    {
        Page {
            bytes: Vec::new(alloc),
            end: 0,
            near: 0,
        }
    }

    /// Forgets all that is written.
    #[inline(always)]
    pub fn clear(&mut self)
        ensures { self.new ≡ [] }
    {
        self.end = 0;
    }

    /// What is written.
    #[inline(always)]
    pub fn as_slice(&self) -> &[u8]
        ensures { result.now ≡ self.now }
    {
        &self.bytes[..self.end]
    }

    /// How many bytes are written.
    #[inline(always)]
    pub fn len(&self) -> usize
        ensures { result ≡ length self.now }
    {
        self.end
    }

    /// Appends a text.
    ///
    /// # Errors
    ///
    /// An allocation was refused.
    #[inline(always)]
    pub fn put(&mut self, text: &[u8]) -> Result<(), AllocError>
        ensures { Writes text.now result self.old self.new }
    {
        make_room(&mut self.bytes, self.end, text.len())?;
        let next = self.end + text.len();
        self.bytes[self.end..next].copy_from_slice(text);
        self.end = next;
        Ok(())
    }

    /// Sees that there is room for what is laid out at once. What is written stays.
    ///
    /// # Errors
    ///
    /// As `put`.
    #[inline(always)]
    pub fn see_room(&mut self) -> Result<(), AllocError>
        ensures { self.new ≡ self.old }
    {
        make_room(&mut self.bytes, self.end, ROOM)?;
        self.near = self.bytes.len().saturating_sub(ROOM - 1);
        Ok(())
    }

    /// Appends the label of a name, behind what stands between two where that is due, and a value or what stands for none;
    /// answers whether it did, and appends nothing where one of both is not short, or there is too little room. It takes no
    /// memory.
    #[inline(always)]
    pub fn put_field<S: Signs>(
        &mut self,
        signs: S,
        led: bool,
        name: &str,
        value: Option<&Scalar>,
    ) -> bool
        ensures done { result ≡ true → self.new ≡ self.old
            ++ ((lead S.form led ++ label_text S.form name.now) ++ said_text S.form (option_copied value.entry)) }
        ensures left { result ≡ false → self.new ≡ self.old }
    {
        if self.end >= self.near {
            return false;
        }
        let bytes = self.bytes.as_mut_slice();
        match signs.lay_label(led, name, bytes, self.end) {
            None => false,
            Some(at) => match lay_scalar(signs, value, bytes, at) {
                None => false,
                Some(end) => {
                    self.end = end;
                    true
                }
            },
        }
    }

    /// Appends the label of a name and a string in its quotes, or the label alone where the string is not short or does not
    /// stand as it is; answers which, and nothing where the name is not short, or there is too little room.
    #[inline(always)]
    pub fn put_text<S: Signs>(&mut self, signs: S, led: bool, name: &str, text: &[u8]) -> Put
        ensures field { result ≡ put.Field → self.new ≡ self.old
            ++ ((lead S.form led ++ label_text S.form name.now) ++ quoted S.form text.now) }
        ensures label { result ≡ put.Label → self.new ≡ self.old ++ (lead S.form led ++ label_text S.form name.now) }
        ensures nothing { result ≡ put.Nothing → self.new ≡ self.old }
    {
        if self.end >= self.near {
            return Put::Nothing;
        }
        let bytes = self.bytes.as_mut_slice();
        match signs.lay_label(led, name, bytes, self.end) {
            None => Put::Nothing,
            Some(at) => match lay_quoted(signs, text, bytes, at) {
                None => {
                    self.end = at;
                    Put::Label
                }
                Some(end) => {
                    self.end = end;
                    Put::Field
                }
            },
        }
    }

    /// The same of the label alone.
    #[inline(always)]
    pub fn put_label<S: Signs>(&mut self, signs: S, led: bool, name: &str) -> bool
        ensures done { result ≡ true → self.new ≡ self.old ++ (lead S.form led ++ label_text S.form name.now) }
        ensures left { result ≡ false → self.new ≡ self.old }
    {
        if self.end >= self.near {
            return false;
        }
        match signs.lay_label(led, name, &mut self.bytes, self.end) {
            None => false,
            Some(end) => {
                self.end = end;
                true
            }
        }
    }

    /// The same of what stands in front of the fields of a message.
    #[inline(always)]
    pub fn put_head<S: Signs>(&mut self, signs: S, id: u32, name: &str) -> bool
        ensures done { result ≡ true → self.new ≡ self.old ++ head_text S.form id name.now }
        ensures left { result ≡ false → self.new ≡ self.old }
    {
        if self.end >= self.near {
            return false;
        }
        match signs.lay_head(id, name, &mut self.bytes, self.end) {
            None => false,
            Some(end) => {
                self.end = end;
                true
            }
        }
    }

    /// Appends a decimal.
    ///
    /// # Errors
    ///
    /// As `put`.
    #[inline(always)]
    pub fn put_decimal(&mut self, mantissa: i64, exponent: i32) -> Result<(), AllocError>
        ensures { Writes (decimal_text mantissa exponent) result self.old self.new }
    {
        make_room(&mut self.bytes, self.end, ROOM)?;
        self.end = lay_decimal(&mut self.bytes, self.end, mantissa, exponent);
        Ok(())
    }

    /// Appends a string of few bytes without its quotes.
    ///
    /// # Errors
    ///
    /// As `put`.
    #[inline(always)]
    pub fn put_units<S: Escape>(&mut self, escape: S, text: &[u8]) -> Result<(), AllocError>
        requires { length text.now ≤ 10 }
        ensures { Writes (flat_map (unit_text S.form) text.now) result self.old self.new }
    {
        make_room(&mut self.bytes, self.end, ROOM)?;
        self.end = lay_units(escape, text, &mut self.bytes, self.end);
        Ok(())
    }
}
