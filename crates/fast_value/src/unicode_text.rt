//! Texts.

ghost use Rattle.std.specs.Prelude.{◌≡◌, ◌+◌, ◌++◌, IfOk, length, nat_eq, string_bytes, take};
ghost use Rattle.std.specs.Cmp.{partial_equiv_from_equiv};
ghost use Rattle.std.specs.Cmp.Lexicographic.{nat_list_eq_equiv, pointwise};

use std::alloc::{AllocError, Global};
use std::marker::Model;
use std::{fmt, str};

/// A text in UTF-8. A contract sees its bytes.
#[derive(Drop)]
pub struct UnicodeText {
    bytes: Vec<u8>,
}

impl Model for UnicodeText {
    ghost use Rattle.std.specs.Prelude.{List, ℕ, IsUtf8};

    ghost Value = { List ℕ };

    ghost view = { λ s. s.bytes.items };

    ghost invariant = { λ s. IsUtf8 s.bytes.items };
}

impl UnicodeText {
    ghost use Rattle.std.specs.Prelude.{IsUtf8};

    /// The text of a string. Takes no memory.
    pub fn from_string(text: String) -> UnicodeText
        ensures { result ≡ string_bytes text }
    {
        Self {
            bytes: text.into_bytes(),
        }
    }

    /// The text that bytes are, which are UTF-8. Takes no memory and does not look at them.
    pub fn from_utf8(bytes: Vec<u8>) -> UnicodeText
        requires { IsUtf8 bytes.items }
        ensures { result ≡ bytes.items }
    {
        Self { bytes }
    }

    /// The bytes of this text, as to fill their vector again. Takes no memory.
    pub fn into_bytes(self) -> Vec<u8>
        ensures value { result.items ≡ self }
        ensures utf8 { IsUtf8 self }
    {
        let UnicodeText { bytes } = self;
        bytes
    }

    /// Puts bytes in the place of the last ones, which are as many; the text stays UTF-8. Takes no memory.
    pub fn put_over(&mut self, kept: usize, part: &[u8])
        requires many { kept + length part.now ≡ length self.now }
        requires utf8 { IsUtf8 (take kept self.now ++ part.now) }
        ensures { self.new ≡ take kept self.old ++ part.now }
    {
        self.bytes[kept..].copy_from_slice(part);
    }

    /// The string of this text. Takes no memory.
    pub fn into_string(self) -> String
        ensures { string_bytes result ≡ self }
    {
        match String::from_utf8(self.into_bytes()) {
            Ok(text) => text,
            Err(_) => unreachable!(),
        }
    }

    /// The bytes of the text, in order.
    pub fn as_bytes(&self) -> &[u8]
        ensures value { result.now ≡ self.now }
        ensures utf8 { IsUtf8 self.now }
    {
        &self.bytes
    }

    /// The text. Its bytes are looked at once more.
    pub fn as_str(&self) -> &str
        ensures { result.now ≡ self.now }
    {
        match str::from_utf8(self.as_bytes()) {
            Ok(text) => text,
            Err(_) => unreachable!(),
        }
    }

    /// The same text once more.
    ///
    /// # Errors
    ///
    /// Where memory is refused.
    pub fn copy(&self, alloc: Global) -> Result<UnicodeText, AllocError>
        ensures { IfOk result (λ other. other ≡ self.now) }
    {
        let bytes = self.as_bytes().to_vec(alloc)?;
        Ok(UnicodeText::from_utf8(bytes))
    }
}

impl fmt::Debug for UnicodeText {
    fn fmt<W: fmt::Write>(&self, f: &mut fmt::Formatter<W>) -> fmt::Result {
        self.as_str().fmt(f)
    }
}

impl PartialEq for UnicodeText {
    ghost eq = { pointwise nat_eq };

    ghost laws = { partial_equiv_from_equiv nat_list_eq_equiv };

    fn eq(&self, other: &UnicodeText) -> bool {
        self.as_bytes() == other.as_bytes()
    }
}

impl Eq for UnicodeText {
    ghost laws = { nat_list_eq_equiv };
}
